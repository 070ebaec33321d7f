//! Frames of version 3, worked out by hand, and readers with each newest version.
use crate::parts::{assert_at, assert_holds, assert_is, open_body};
use bitflags::Flags as Set;
use std::process::Abort;
use sysv_model::{Body, Cred, Errno, Flags, Instrumented, MESSAGE_BYTES};
use sysv_wire::{
    Ask, Fault, FrameIn, Reply, ReplyContent, Request, Version, frame_in, frame_in_up_to,
    read_reply, read_reply_up_to, read_request, read_request_up_to, write_reply, write_request,
};
use tests_kit::{Page, Pieces};

/// A hello, a hold for 30 seconds, and what spends and what sends back the message.
const THIRD: &[u8] = &[
    0x00, 0x00, 0x00, 0x0e, 0x03, 0x00, 0x00, 0x00, 0x03, 0xe8, 0x00, 0x00, 0x03, 0xe8, 0x00, 0x00,
    0x00, 0x65, 0x00, 0x00, 0x00, 0x1a, 0x03, 0x08, 0x00, 0x00, 0x00, 0x00, 0x00, 0x00, 0x00, 0x64,
    0xff, 0xff, 0xff, 0xff, 0xff, 0xff, 0xff, 0xfb, 0x00, 0x00, 0x08, 0x00, 0x00, 0x00, 0x00, 0x1e,
    0x00, 0x00, 0x00, 0x02, 0x03, 0x09, 0x00, 0x00, 0x00, 0x02, 0x03, 0x0a,
];

/// Where each of these requests ends.
const THIRD_ENDS: [usize; 4] = [18, 48, 54, 60];

/// The replies to them, the second with the body `hi`, and a refusal with EINVAL.
const THIRD_ANSWERS: &[u8] = &[
    0x00, 0x00, 0x00, 0x07, 0x03, 0x00, 0x00, 0x00, 0x00, 0x01, 0x00, 0x00, 0x00, 0x00, 0x0d, 0x03,
    0x08, 0x00, 0x00, 0x00, 0x00, 0x00, 0x00, 0x00, 0x00, 0x05, 0x68, 0x69, 0x00, 0x00, 0x00, 0x03,
    0x03, 0x09, 0x00, 0x00, 0x00, 0x00, 0x03, 0x03, 0x0a, 0x00, 0x00, 0x00, 0x00, 0x03, 0x03, 0x09,
    0x16,
];

/// The requests.
const ASKS: [Ask; 4] = [
    Ask::Hello(Cred {
        uid: 1000,
        gid: 1000,
        pid: 101,
    }),
    Ask::Hold {
        id: 0,
        size: 100,
        mtype: -5,
        flags: Flags::IPC_NOWAIT,
        seconds: 30,
    },
    Ask::Done,
    Ask::Back,
];

/// The operations of the replies and their results.
const TOLD: [(u8, ReplyContent); 5] = [
    (0, ReplyContent::HelloSlots { slots: 256 }),
    (8, ReplyContent::Hold { mtype: 5 }),
    (9, ReplyContent::Done),
    (10, ReplyContent::Back),
    (9, ReplyContent::Refused(Errno::EINVAL)),
];

#[test]
fn requests_of_version_3(rt: HostRuntime) {
    for piece in [1, 2, 3, 5, 200] {
        let mut text = open_body(&rt, rt.alloc());
        let mut pieces = Pieces::new(THIRD, piece);
        let mut reader = Instrumented::new(&mut pieces);
        let mut page = Page::taking(piece, 512, false);
        let mut writer = Instrumented::new(&mut page);
        for ask in ASKS {
            let version = Version::Three;
            let request = Request { version, ask };
            let read = read_request_up_to(Version::Three, &mut reader, &mut text);
            let written = write_request(&mut writer, &request, &text);
            assert_is(&rt, (read, written), (Ok(Some(request)), Ok(())));
        }
        let end = read_request_up_to(Version::Three, &mut reader, &mut text);
        assert_is(&rt, (end, page.written()), (Ok(None), THIRD));
    }
}

#[test]
fn replies_of_version_3(rt: HostRuntime) {
    for piece in [1, 2, 3, 5, 200] {
        let mut text = open_body(&rt, rt.alloc());
        let mut pieces = Pieces::new(THIRD_ANSWERS, piece);
        let mut reader = Instrumented::new(&mut pieces);
        let mut page = Page::taking(piece, 512, false);
        let mut writer = Instrumented::new(&mut page);
        for (op, result) in TOLD {
            let version = Version::Three;
            let wanted = Reply {
                version,
                op,
                result,
            };
            match read_reply_up_to(Version::Three, &mut reader, &mut text) {
                Ok(Some(read)) => {
                    assert_is(&rt, read, wanted);
                    assert_holds(&rt, &text, if op == 8 { b"hi" } else { b"" });
                    assert!(&rt; text.len() <= MESSAGE_BYTES);
                    assert_is(&rt, write_reply(&mut writer, &read, &text), Ok(()));
                }
                other => assert_eq!(&rt; other, Ok(Some(wanted))),
            }
        }
        let end = read_reply_up_to(Version::Three, &mut reader, &mut text);
        assert_is(&rt, (end, page.written()), (Ok(None), THIRD_ANSWERS));
    }
}

#[test]
fn requests_of_version_3_that_arrive_byte_by_byte(rt: HostRuntime) {
    let mut start = 0;
    for end in THIRD_ENDS {
        for cut in start..end {
            assert!(&rt; start <= cut && cut <= THIRD.len());
            let found = frame_in_up_to(Version::Three, &THIRD[start..cut]);
            assert!(&rt; matches!(found, FrameIn::More { .. }), "{cut}: {found:?}");
        }
        assert!(&rt; start <= end && end <= THIRD.len());
        let length = end.saturating_sub(start);
        let found = frame_in_up_to(Version::Three, &THIRD[start..]);
        assert_at(&rt, found, FrameIn::Whole { length }, end);
        start = end;
    }
}

#[test]
fn version_3_is_refused_by_readers_of_versions_1_and_2(rt: HostRuntime) {
    let mut text = open_body(&rt, rt.alloc());
    let asked = read_request(
        &mut Instrumented::new(&mut Pieces::new(THIRD, 1)),
        &mut text,
    );
    assert_is(&rt, asked, Err(Fault::BadField));
    let mut pieces = Pieces::new(THIRD_ANSWERS, 1);
    let told = read_reply(&mut Instrumented::new(&mut pieces), &mut text);
    assert_is(&rt, told, Err(Fault::BadField));
    let fault = Fault::BadField;
    assert_is(&rt, frame_in(THIRD), FrameIn::Refused { fault });
}

/// Returns why a frame of a length that no operation has is refused.
fn fault_of(newest: Version, version: u8, op: u8) -> Fault {
    let last = if version == 3 { 10 } else { 7 };
    if 1 <= version && version <= newest.number() && op > last {
        Fault::BadOp
    } else {
        Fault::BadField
    }
}

/// Asserts the fault in the first bytes of a request and of a reply, if the newest version is this.
fn assert_fault(rt: &impl Abort, text: &mut Body, newest: Version, version: u8, op: u8) {
    let wanted = fault_of(newest, version, op);
    let asked = [0, 0, 0, 3, version, op, 0];
    let found = frame_in_up_to(newest, &asked);
    assert_at(rt, found, FrameIn::Refused { fault: wanted }, asked);
    let mut pieces = Pieces::new(&asked, 1);
    let read = read_request_up_to(newest, &mut Instrumented::new(&mut pieces), text);
    assert_at(rt, read, Err(wanted), asked);
    let told = [0, 0, 0, 5, version, op, 0];
    let mut pieces = Pieces::new(&told, 1);
    let read = read_reply_up_to(newest, &mut Instrumented::new(&mut pieces), text);
    assert_at(rt, read, Err(wanted), told);
}

#[test]
fn versions_and_operations_by_the_newest_version(rt: HostRuntime) {
    let mut text = open_body(&rt, rt.alloc());
    for newest in [Version::One, Version::Two, Version::Three] {
        for version in [0, 1, 2, 3, 4, 128, 255] {
            for op in [0, 1, 2, 5, 6, 7, 8, 9, 10, 11, 12, 255] {
                if op != 2 {
                    assert_fault(&rt, &mut text, newest, version, op);
                }
            }
        }
    }
}

/// The number of bytes in the fields of each operation that only version 3 has.
const FIELDS: [(u8, u8); 3] = [(8, 24), (9, 0), (10, 0)];

#[test]
fn lengths_of_requests_of_version_3(rt: HostRuntime) {
    let mut text = open_body(&rt, rt.alloc());
    for (op, fields) in FIELDS {
        for length in 2..90u8 {
            let mut bytes = [0; 96];
            bytes[3] = length;
            bytes[4] = 3;
            bytes[5] = op;
            let mut pieces = Pieces::new(&bytes[..usize::from(length).min(92) + 4], 1);
            let mut reader = Instrumented::new(&mut pieces);
            let read = read_request_up_to(Version::Three, &mut reader, &mut text);
            assert_at(&rt, read.is_ok(), length == fields + 2, [op, length]);
        }
    }
}
