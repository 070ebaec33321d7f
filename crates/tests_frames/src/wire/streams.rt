//! Readers and writers that fail within a frame, and bodies of the maximum length.
use crate::parts::{assert_at, assert_is, open_body};
use bitflags::Flags as Set;
use std::process::Abort;
use sysv_model::{Body, Flags, Instrumented};
use sysv_wire::{
    Ask, Fault, Reply, ReplyContent, Request, Version, WriteFault, read_reply, read_request,
    write_reply, write_request,
};
use tests_kit::worked::{ANSWERS, SESSION};
use tests_kit::{Page, Pieces};

/// Reads at most five requests, up to the first failure, from a reader that fails after `good`
/// bytes. Returns the last result, and whether the reader is then known to have failed.
fn end_of_requests(text: &mut Body, good: usize) -> (Result<Option<Request>, Fault>, bool) {
    let mut pieces = Pieces::new(SESSION, 5);
    pieces.good = good;
    let mut reader = Instrumented::new(&mut pieces);
    let mut answer = Ok(None);
    for _ in 0..5 {
        answer = read_request(&mut reader, text);
        if answer.is_err() || reader.failures() > 0 {
            break;
        }
    }
    (answer, reader.failures() > 0)
}

/// Reads replies in the same way.
fn end_of_replies(text: &mut Body, good: usize) -> (Result<Option<Reply>, Fault>, bool) {
    let mut pieces = Pieces::new(ANSWERS, 5);
    pieces.good = good;
    let mut reader = Instrumented::new(&mut pieces);
    let mut answer = Ok(None);
    for _ in 0..5 {
        answer = read_reply(&mut reader, text);
        if answer.is_err() || reader.failures() > 0 {
            break;
        }
    }
    (answer, reader.failures() > 0)
}

#[test]
fn the_reader_fails(rt: HostRuntime) {
    let mut text = open_body(&rt, rt.alloc());
    for good in 0..SESSION.len() {
        let end = end_of_requests(&mut text, good);
        assert_at(&rt, end, (Err(Fault::Read), true), good);
    }
    for good in 0..ANSWERS.len() {
        let end = end_of_replies(&mut text, good);
        assert_at(&rt, end, (Err(Fault::Read), true), good);
    }
}

/// How a write to this page ended, and whether the page is then known to have failed.
type End = (Result<(), WriteFault>, bool);

/// Asserts that a write failed after these bytes were taken.
fn assert_fails_after(rt: &impl Abort, end: End, page: &Page, taken: &[u8]) {
    assert_at(rt, end, (Err(WriteFault), true), taken.len());
    assert_is(rt, page.written(), taken);
}

/// Returns how the write of a request ends.
fn end_of_request(page: &mut Page, request: &Request, text: &Body) -> End {
    let mut writer = Instrumented::new(page);
    let end = write_request(&mut writer, request, text);
    (end, writer.failures() > 0)
}

#[test]
fn a_writer_fails_within_a_request(rt: HostRuntime) {
    let mut text = open_body(&rt, rt.alloc());
    assert!(rt; text.push_piece(b"hi"));
    let request = Request {
        version: Version::One,
        ask: Ask::Snd {
            id: 0,
            mtype: 5,
            flags: Flags::from_bits_retain(0),
        },
    };
    for room in 0..24 {
        for (piece, stalls) in [(1, false), (1, true), (512, false), (512, true)] {
            let mut page = Page::taking(piece, room, stalls);
            let end = end_of_request(&mut page, &request, &text);
            assert_fails_after(&rt, end, &page, &SESSION[32..32 + room]);
        }
    }
}

#[test]
fn a_writer_fails_within_a_reply(rt: HostRuntime) {
    let mut text = open_body(&rt, rt.alloc());
    assert!(rt; text.push_piece(b"hi"));
    assert!(rt; text.len() <= 8192);
    let reply = Reply {
        version: Version::One,
        op: 3,
        result: ReplyContent::Rcv { mtype: 5 },
    };
    for room in 0..17 {
        let mut page = Page::taking(3, room, false);
        let mut writer = Instrumented::new(&mut page);
        let end = write_reply(&mut writer, &reply, &text);
        let end = (end, writer.failures() > 0);
        assert_fails_after(&rt, end, &page, &ANSWERS[25..25 + room]);
    }
}

#[test]
fn the_longest_text(rt: HostRuntime) {
    let mut frame = [b'x'; 8278];
    let head = [
        0, 0, 0x20, 0x52, 1, 2, 0, 0, 0, 0, 0, 0, 0, 0, 0, 0, 0, 9, 0, 0, 0, 0,
    ];
    frame[..22].copy_from_slice(&head);
    let mut text = open_body(&rt, rt.alloc());
    for piece in [1, 63, 64, 65, 9000] {
        let mut pieces = Pieces::new(&frame, piece);
        let mut reader = Instrumented::new(&mut pieces);
        let ask = Ask::Snd {
            id: 0,
            mtype: 9,
            flags: Flags::from_bits_retain(0),
        };
        let request = Request {
            version: Version::One,
            ask,
        };
        assert_is(&rt, read_request(&mut reader, &mut text), Ok(Some(request)));
        assert_is(&rt, text.len(), 8256);
        assert_is(&rt, read_request(&mut reader, &mut text), Ok(None));
    }
}
