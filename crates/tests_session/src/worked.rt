//! A session whose bytes were worked out by hand, whole and cut short, and sessions that end early.
use crate::parts::{assert_at, assert_is};
use crate::served::{assert_served, served};
use std::alloc::Global;
use std::process::Abort;
use sysv_session::End;
use sysv_wire::Fault;
use tests_kit::worked::{ANSWER_ENDS, ANSWERS, REQUEST_ENDS, SESSION};
use tests_kit::{Page, Pieces};

#[test]
fn the_session_cut_after_each_byte(rt: HostRuntime) {
    for cut in 0..SESSION.len() + 1 {
        let mut reader = Pieces::both(&SESSION[..cut], &SESSION[cut..]);
        let mut page = Page::new();
        let told = served(&rt, rt.alloc(), &mut reader, &mut page);
        assert_served(&rt, &told, &page, End::Ended, (5, 1, 1, 0), ANSWERS);
    }
}

#[test]
fn the_session_byte_by_byte(rt: HostRuntime) {
    for piece in [1, 2, 3, 7, 64] {
        let mut reader = Pieces::new(SESSION, piece);
        let mut page = Page::new();
        page.piece = piece;
        let told = served(&rt, rt.alloc(), &mut reader, &mut page);
        assert_served(&rt, &told, &page, End::Ended, (5, 1, 1, 0), ANSWERS);
    }
}

#[test]
fn each_reply_is_flushed_once(rt: HostRuntime) {
    let mut reader = Pieces::new(SESSION, usize::MAX);
    let mut page = Page::new();
    page.piece = 3;
    let told = served(&rt, rt.alloc(), &mut reader, &mut page);
    assert_is(&rt, told.end, End::Ended);
    assert_is(&rt, page.flushed(), [7, 18, 25, 42, 49].as_slice());
}

#[test]
fn the_session_ended_after_each_byte(rt: HostRuntime) {
    for cut in 0..SESSION.len() {
        let mut reader = Pieces::new(&SESSION[..cut], usize::MAX);
        let mut page = Page::new();
        let told = served(&rt, rt.alloc(), &mut reader, &mut page);
        let whole = REQUEST_ENDS.iter().filter(|end| **end <= cut).count();
        let is_between = cut == 0 || REQUEST_ENDS.contains(&cut);
        let end = if is_between {
            End::Ended
        } else {
            End::Fault(Fault::Truncated)
        };
        assert_at(&rt, (told.end, told.requests as usize), (end, whole), cut);
        let answered = if whole == 0 {
            0
        } else {
            ANSWER_ENDS[whole.min(5) - 1]
        };
        assert_at(&rt, page.written(), &ANSWERS[..answered.min(49)], cut);
    }
}

/// Asserts that a session of these bytes ends this way, before any hello.
fn ends_unanswered(rt: &impl Abort, alloc: Global, bytes: &[u8], end: End) {
    let mut reader = Pieces::new(bytes, usize::MAX);
    let mut page = Page::new();
    let told = served(rt, alloc, &mut reader, &mut page);
    assert_served(rt, &told, &page, end, (0, 0, 0, 0), b"");
    assert_is(rt, page.flushed().len(), 0);
}

#[test]
fn the_first_frame_is_no_hello(rt: HostRuntime) {
    ends_unanswered(&rt, rt.alloc(), &SESSION[18..], End::NoHello);
    ends_unanswered(&rt, rt.alloc(), &[], End::Ended);
    ends_unanswered(
        &rt,
        rt.alloc(),
        &[0, 0, 0x20, 0x53],
        End::Fault(Fault::TooLong),
    );
    ends_unanswered(
        &rt,
        rt.alloc(),
        &[0, 0, 0, 2, 1, 8],
        End::Fault(Fault::BadOp),
    );
    ends_unanswered(
        &rt,
        rt.alloc(),
        &[0, 0, 0, 2, 1, 0],
        End::Fault(Fault::BadField),
    );
    ends_unanswered(
        &rt,
        rt.alloc(),
        &SESSION[..17],
        End::Fault(Fault::Truncated),
    );
}

/// Asserts that a session of a hello and these bytes ends this way, with only the reply to the
/// hello.
fn ends_after_hello(rt: &impl Abort, alloc: Global, bytes: &[u8], end: End) {
    let mut reader = Pieces::both(&SESSION[..18], bytes);
    let mut page = Page::new();
    let told = served(rt, alloc, &mut reader, &mut page);
    assert_served(rt, &told, &page, end, (1, 0, 0, 0), &ANSWERS[..7]);
    assert_is(rt, page.flushed().len(), 1);
}

#[test]
fn a_second_hello(rt: HostRuntime) {
    ends_after_hello(&rt, rt.alloc(), &SESSION[..18], End::Fault(Fault::BadOp));
}

#[test]
fn bad_frames_after_the_hello(rt: HostRuntime) {
    let table: [(&[u8], Fault); 6] = [
        (&[0, 0, 0, 1], Fault::BadField),
        (&[0, 0, 0x20, 0x53], Fault::TooLong),
        (&[0, 0, 0, 2, 1, 8], Fault::BadOp),
        (&[0, 0, 0, 2, 9, 1], Fault::BadField),
        (&[0, 0, 0, 0x0d, 1, 1], Fault::BadField),
        (&[0, 0, 0, 6, 1, 4, 0, 0], Fault::Truncated),
    ];
    for (bytes, fault) in table {
        ends_after_hello(&rt, rt.alloc(), bytes, End::Fault(fault));
    }
}

/// A hello and a get of version 2.
const SECOND: &[u8] = &[
    0x00, 0x00, 0x00, 0x0e, 0x02, 0x00, 0x00, 0x00, 0x03, 0xe8, 0x00, 0x00, 0x03, 0xe8, 0x00, 0x00,
    0x00, 0x65, 0x00, 0x00, 0x00, 0x0a, 0x02, 0x01, 0x00, 0x00, 0x00, 0x07, 0x00, 0x00, 0x03, 0x80,
];

/// The replies to them.
const SECOND_ANSWERS: &[u8] = &[
    0x00, 0x00, 0x00, 0x07, 0x02, 0x00, 0x00, 0x00, 0x00, 0x01, 0x00, 0x00, 0x00, 0x00, 0x07, 0x02,
    0x01, 0x00, 0x00, 0x00, 0x00, 0x00,
];

#[test]
fn a_session_of_version_2(rt: HostRuntime) {
    for piece in [1, 2, 3, 7, 64] {
        let mut reader = Pieces::new(SECOND, piece);
        let mut page = Page::new();
        let told = served(&rt, rt.alloc(), &mut reader, &mut page);
        assert_served(&rt, &told, &page, End::Ended, (2, 0, 0, 0), SECOND_ANSWERS);
    }
}

/// Asserts that a session of a hello of version 2 and these bytes ends this way, with only the
/// reply to the hello.
fn ends_after_second_hello(rt: &impl Abort, alloc: Global, bytes: &[u8], fault: Fault) {
    let mut reader = Pieces::both(&SECOND[..18], bytes);
    let mut page = Page::new();
    let told = served(rt, alloc, &mut reader, &mut page);
    let end = End::Fault(fault);
    assert_served(rt, &told, &page, end, (1, 0, 0, 0), &SECOND_ANSWERS[..11]);
    assert_is(rt, page.flushed().len(), 1);
}

#[test]
fn requests_of_the_other_version(rt: HostRuntime) {
    let alloc = rt.alloc();
    ends_after_hello(&rt, alloc, &SECOND[18..], End::Fault(Fault::BadField));
    ends_after_hello(&rt, alloc, &SECOND[..18], End::Fault(Fault::BadField));
    ends_after_second_hello(&rt, alloc, &SESSION[18..32], Fault::BadField);
    ends_after_second_hello(&rt, alloc, &SESSION[..18], Fault::BadField);
    ends_after_second_hello(&rt, alloc, &SECOND[..18], Fault::BadOp);
    ends_after_second_hello(&rt, alloc, &[0, 0, 0, 2, 3, 1], Fault::BadField);
}
