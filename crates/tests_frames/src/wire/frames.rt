//! Frames whose bytes were worked out by hand.
use crate::parts::{assert_is, open_body};
use bitflags::Flags as Set;
use std::alloc::Global;
use std::process::Abort;
use sysv_model::{Cred, Errno, Flags, Instrumented, MESSAGE_BYTES, Perm, Row, SetTo, Stat};
use sysv_wire::{
    Ask, Reply, ReplyContent, Request, Version, read_reply, read_request, write_reply,
    write_request,
};
use tests_kit::worked::{ANSWERS, SESSION};
use tests_kit::{Page, Pieces};

/// Requests with numbers at the ends of their ranges.
pub(super) const OTHERS: &[u8] = &[
    0x00, 0x00, 0x00, 0x0a, 0x01, 0x01, 0x80, 0x00, 0x00, 0x00, 0xff, 0xff, 0xff, 0xff, 0x00, 0x00,
    0x00, 0x12, 0x01, 0x02, 0xff, 0xff, 0xff, 0xff, 0x80, 0x00, 0x00, 0x00, 0x00, 0x00, 0x00, 0x00,
    0x00, 0x00, 0x20, 0x00, 0x00, 0x00, 0x00, 0x06, 0x01, 0x04, 0x00, 0x00, 0x00, 0x40, 0x00, 0x00,
    0x00, 0x16, 0x01, 0x05, 0x00, 0x00, 0x00, 0x00, 0x00, 0x00, 0x03, 0xe8, 0x00, 0x00, 0x03, 0xe9,
    0xff, 0xff, 0xff, 0xff, 0x00, 0x00, 0x20, 0x00, 0x00, 0x00, 0x00, 0x06, 0x01, 0x06, 0x7f, 0xff,
    0xff, 0xff, 0x00, 0x00, 0x00, 0x06, 0x01, 0x07, 0x00, 0x00, 0x00, 0x03,
];

/// Attributes, rows and replies without fields.
pub(super) const TOLD: &[u8] = &[
    0x00, 0x00, 0x00, 0x45, 0x01, 0x04, 0x00, 0x00, 0x00, 0x00, 0x07, 0x00, 0x00, 0x03, 0xe8, 0x00,
    0x00, 0x03, 0xe9, 0x00, 0x00, 0x03, 0xea, 0x00, 0x00, 0x03, 0xeb, 0x01, 0x80, 0x00, 0x00, 0x00,
    0x03, 0x00, 0x00, 0x00, 0x01, 0x00, 0x00, 0x40, 0x00, 0x00, 0x00, 0x00, 0x65, 0x00, 0x00, 0x00,
    0x66, 0x00, 0x00, 0x00, 0x00, 0x00, 0x00, 0x00, 0x01, 0x00, 0x00, 0x00, 0x00, 0x00, 0x00, 0x00,
    0x02, 0x00, 0x00, 0x00, 0x01, 0x00, 0x00, 0x00, 0x03, 0x00, 0x00, 0x00, 0x1a, 0x01, 0x07, 0x00,
    0x01, 0x00, 0x00, 0x00, 0x40, 0x00, 0x00, 0x00, 0x07, 0x00, 0x00, 0x03, 0xe8, 0x01, 0xff, 0x00,
    0x00, 0x00, 0x03, 0x00, 0x00, 0x00, 0x01, 0x00, 0x00, 0x00, 0x04, 0x01, 0x07, 0x00, 0x00, 0x00,
    0x00, 0x00, 0x03, 0x01, 0x05, 0x00, 0x00, 0x00, 0x00, 0x03, 0x01, 0x06, 0x00, 0x00, 0x00, 0x00,
    0x03, 0x01, 0x07, 0x0b,
];

/// Reads the requests one by one in pieces of this size, and writes each again.
fn reads_and_writes(
    rt: &impl Abort,
    alloc: Global,
    version: Version,
    bytes: &[u8],
    asks: &[Ask],
    piece: usize,
) {
    let mut text = open_body(rt, alloc);
    let mut pieces = Pieces::new(bytes, piece);
    let mut reader = Instrumented::new(&mut pieces);
    let mut page = Page::taking(piece, 512, false);
    let mut writer = Instrumented::new(&mut page);
    for ask in asks {
        let request = Request { version, ask: *ask };
        let read = read_request(&mut reader, &mut text);
        let written = write_request(&mut writer, &request, &text);
        assert_is(rt, (read, written), (Ok(Some(request)), Ok(())));
    }
    let end = read_request(&mut reader, &mut text);
    let failed = reader.failures() > 0 || writer.failures() > 0;
    assert_is(rt, (end, failed, page.written()), (Ok(None), false, bytes));
}

/// Reads the replies one by one in pieces of this size, and writes each again.
fn reads_and_writes_replies(
    rt: &impl Abort,
    alloc: Global,
    bytes: &[u8],
    replies: &[Reply],
    piece: usize,
) {
    let mut text = open_body(rt, alloc);
    let mut pieces = Pieces::new(bytes, piece);
    let mut reader = Instrumented::new(&mut pieces);
    let mut page = Page::taking(piece, 512, false);
    let mut writer = Instrumented::new(&mut page);
    for reply in replies {
        match read_reply(&mut reader, &mut text) {
            Ok(Some(read)) => {
                assert_is(rt, read, *reply);
                assert!(rt; text.len() <= MESSAGE_BYTES);
                assert_is(rt, write_reply(&mut writer, &read, &text), Ok(()));
            }
            other => assert_eq!(rt; other, Ok(Some(*reply))),
        }
    }
    let end = read_reply(&mut reader, &mut text);
    let failed = reader.failures() > 0 || writer.failures() > 0;
    assert_is(rt, (end, failed, page.written()), (Ok(None), false, bytes));
}

/// Each receive of the session.
const RECEIVE: Ask = Ask::Rcv {
    id: 0,
    size: 100,
    mtype: -5,
    flags: Flags::IPC_NOWAIT,
};

#[test]
fn a_session(rt: HostRuntime) {
    let asks = [
        Ask::Hello(Cred {
            uid: 1000,
            gid: 1000,
            pid: 101,
        }),
        Ask::Get {
            key: 7,
            flags: Flags::from_bits_retain(0o1600),
        },
        Ask::Snd {
            id: 0,
            mtype: 5,
            flags: Flags::from_bits_retain(0),
        },
        RECEIVE,
        RECEIVE,
    ];
    let replies = [
        (0, ReplyContent::Hello),
        (1, ReplyContent::Get { id: 0 }),
        (2, ReplyContent::Snd),
        (3, ReplyContent::Rcv { mtype: 5 }),
        (3, ReplyContent::Refused(Errno::ENOMSG)),
    ]
    .map(|(op, content)| Reply {
        version: Version::One,
        op,
        result: content,
    });
    for piece in [1, 2, 3, 5, 200] {
        reads_and_writes(&rt, rt.alloc(), Version::One, SESSION, &asks, piece);
        reads_and_writes_replies(&rt, rt.alloc(), ANSWERS, &replies, piece);
    }
}

/// A hello and a get of version 2.
pub(super) const SECOND: &[u8] = &[
    0x00, 0x00, 0x00, 0x0e, 0x02, 0x00, 0x00, 0x00, 0x03, 0xe8, 0x00, 0x00, 0x03, 0xe8, 0x00, 0x00,
    0x00, 0x65, 0x00, 0x00, 0x00, 0x0a, 0x02, 0x01, 0x00, 0x00, 0x00, 0x07, 0x00, 0x00, 0x03, 0x80,
];

/// The replies to them, the first with 256 slots, and the reply to a hello with the maximum number
/// of slots.
pub(super) const SECOND_ANSWERS: &[u8] = &[
    0x00, 0x00, 0x00, 0x07, 0x02, 0x00, 0x00, 0x00, 0x00, 0x01, 0x00, 0x00, 0x00, 0x00, 0x07, 0x02,
    0x01, 0x00, 0x00, 0x00, 0x00, 0x00, 0x00, 0x00, 0x00, 0x07, 0x02, 0x00, 0x00, 0xff, 0xff, 0xff,
    0xff, 0x00, 0x00, 0x00, 0x03, 0x02, 0x00, 0x01,
];

#[test]
fn a_session_of_version_2(rt: HostRuntime) {
    let asks = [
        Ask::Hello(Cred {
            uid: 1000,
            gid: 1000,
            pid: 101,
        }),
        Ask::Get {
            key: 7,
            flags: Flags::from_bits_retain(0o1600),
        },
    ];
    let replies = [
        (0, ReplyContent::HelloSlots { slots: 256 }),
        (1, ReplyContent::Get { id: 0 }),
        (0, ReplyContent::HelloSlots { slots: u32::MAX }),
        (0, ReplyContent::Refused(Errno::EPERM)),
    ]
    .map(|(op, content)| Reply {
        version: Version::Two,
        op,
        result: content,
    });
    for piece in [1, 2, 3, 5, 200] {
        reads_and_writes(&rt, rt.alloc(), Version::Two, SECOND, &asks, piece);
        reads_and_writes_replies(&rt, rt.alloc(), SECOND_ANSWERS, &replies, piece);
    }
}

#[test]
fn ends_of_ranges(rt: HostRuntime) {
    let asks = [
        Ask::Get {
            key: i32::MIN,
            flags: Flags::from_bits_retain(u32::MAX),
        },
        Ask::Snd {
            id: -1,
            mtype: i64::MIN,
            flags: Flags::MSG_EXCEPT,
        },
        Ask::Stat { id: 64 },
        Ask::Set {
            id: 0,
            to: SetTo {
                uid: 1000,
                gid: 1001,
                mode: u32::MAX,
                qbytes: 8192,
            },
        },
        Ask::Rm { id: i32::MAX },
        Ask::Row { slot: 3 },
    ];
    for piece in [1, 7, 200] {
        reads_and_writes(&rt, rt.alloc(), Version::One, OTHERS, &asks, piece);
    }
}

/// The attributes in a reply.
const STAT: Stat = Stat {
    key: 7,
    perm: Perm {
        uid: 1000,
        gid: 1001,
        cuid: 1002,
        cgid: 1003,
        mode: 0o600,
    },
    cbytes: 3,
    qnum: 1,
    qbytes: 16384,
    lspid: 101,
    lrpid: 102,
    stime: 1,
    rtime: 2,
    ctime: 4_294_967_299,
};

/// A row.
const ROW: Row = Row {
    id: 64,
    key: 7,
    uid: 1000,
    mode: 0o777,
    cbytes: 3,
    qnum: 1,
};

#[test]
fn attributes_and_rows(rt: HostRuntime) {
    let replies = [
        (4, ReplyContent::Stat(STAT)),
        (7, ReplyContent::Row(Some(ROW))),
        (7, ReplyContent::Row(None)),
        (5, ReplyContent::Set),
        (6, ReplyContent::Rm),
        (7, ReplyContent::Refused(Errno::EAGAIN)),
    ]
    .map(|(op, content)| Reply {
        version: Version::One,
        op,
        result: content,
    });
    for piece in [1, 7, 200] {
        reads_and_writes_replies(&rt, rt.alloc(), TOLD, &replies, piece);
    }
}
