//! The words of all calls: limits, errors, flags, bodies and selectors.
mod growths;

use crate::parts::{assert_at, assert_holds, assert_is, open_body};
use bitflags::Flags as Set;
use std::alloc::Global;
use std::process::Abort;
use sysv_model::{
    BLOCK_BYTES, BODY_ROOM, Errno, Flags, IPC_PRIVATE, MAX_ACTORS, MAX_BLOCKS, MAX_QBYTES,
    MESSAGE_BYTES, MIN_BLOCKS, QBYTES_AT_CREATION, QUEUE_MESSAGES, Selector, WORN,
};

#[test]
fn figures(rt: HostRuntime) {
    assert_is(&rt, IPC_PRIVATE, 0);
    assert_is(&rt, MESSAGE_BYTES, 8_192);
    assert_is(&rt, BODY_ROOM, 8_256);
    assert_is(&rt, BLOCK_BYTES, 64);
    assert_is(&rt, QUEUE_MESSAGES, 256);
    assert_is(&rt, QBYTES_AT_CREATION, 16_384);
    assert_is(&rt, MAX_QBYTES, 65_536);
    assert_is(&rt, MAX_ACTORS, 1_024);
    assert_is(&rt, MIN_BLOCKS, 128);
    assert_is(&rt, MAX_BLOCKS, 65_536);
    assert_is(&rt, WORN, 4_611_686_018_427_387_904);
}

/// Returns what the error prints. Tolerates one refusal of memory.
fn printed(rt: &impl Abort, alloc: Global, error: Errno) -> String {
    match format!(in alloc; "{error}") {
        Ok(text) => text,
        Err(_) => format!(in alloc; "{error}").expect(rt, "a second try"),
    }
}

#[test]
fn numbers_and_names(rt: HostRuntime) {
    let table = [
        (Errno::EPERM, 1, "EPERM"),
        (Errno::ENOENT, 2, "ENOENT"),
        (Errno::E2BIG, 7, "E2BIG"),
        (Errno::EAGAIN, 11, "EAGAIN"),
        (Errno::EACCES, 13, "EACCES"),
        (Errno::EEXIST, 17, "EEXIST"),
        (Errno::EINVAL, 22, "EINVAL"),
        (Errno::ENOSPC, 28, "ENOSPC"),
        (Errno::ENOMSG, 42, "ENOMSG"),
        (Errno::EIDRM, 43, "EIDRM"),
        (Errno::EOVERFLOW, 75, "EOVERFLOW"),
    ];
    for (error, number, name) in table {
        assert_at(&rt, error.number(), number, name);
        assert_is(&rt, printed(&rt, rt.alloc(), error).as_str(), name);
    }
}

#[test]
fn named_flags_have_their_numbers(rt: HostRuntime) {
    let table = [
        (Flags::OTHER_EXECUTE, 1, "OTHER_EXECUTE"),
        (Flags::OTHER_WRITE, 2, "OTHER_WRITE"),
        (Flags::OTHER_READ, 4, "OTHER_READ"),
        (Flags::GROUP_EXECUTE, 8, "GROUP_EXECUTE"),
        (Flags::GROUP_WRITE, 16, "GROUP_WRITE"),
        (Flags::GROUP_READ, 32, "GROUP_READ"),
        (Flags::USER_EXECUTE, 64, "USER_EXECUTE"),
        (Flags::USER_WRITE, 128, "USER_WRITE"),
        (Flags::USER_READ, 256, "USER_READ"),
        (Flags::IPC_CREAT, 512, "IPC_CREAT"),
        (Flags::IPC_EXCL, 1024, "IPC_EXCL"),
        (Flags::IPC_NOWAIT, 2048, "IPC_NOWAIT"),
        (Flags::MSG_NOERROR, 4096, "MSG_NOERROR"),
        (Flags::MSG_EXCEPT, 8192, "MSG_EXCEPT"),
    ];
    assert_is(&rt, Flags::flags().len(), table.len());
    for (flag, number, name) in table {
        assert_at(&rt, flag.bits(), number, name);
        assert_at(&rt, Flags::from_name(name), Some(flag), name);
    }
}

#[test]
fn all_bits_are_kept(rt: HostRuntime) {
    for bits in [0, 0o777, 16384, 1 << 31, 0xffff_ffff] {
        assert_is(&rt, Flags::from_bits_retain(bits).bits(), bits);
    }
    let wide = Flags::from_bits_retain(0xffff_ffff);
    assert!(rt; wide.contains(Flags::MSG_EXCEPT));
    let made = Flags::IPC_CREAT | Flags::USER_READ | Flags::USER_WRITE;
    assert_is(&rt, made.bits(), 0x380);
    assert!(rt; !made.contains(Flags::IPC_NOWAIT));
}

#[test]
fn a_piece_is_added_whole_or_not_at_all(rt: HostRuntime) {
    let mut body = open_body(&rt, rt.alloc());
    assert_is(&rt, body.len(), 0);
    let bytes = [7; 8257];
    let table = [
        (0, 0, true, 0),
        (0, 1, true, 1),
        (0, 8256, true, 8256),
        (0, 8257, false, 0),
        (1, 8255, true, 8256),
        (1, 8256, false, 1),
        (8192, 64, true, 8256),
        (8192, 65, false, 8192),
        (8256, 0, true, 8256),
        (8256, 1, false, 8256),
    ];
    for (held, piece, fits, left) in table {
        assert!(rt; held <= bytes.len() && piece <= bytes.len());
        body.clear();
        assert_at(&rt, body.len(), 0, held);
        assert_is(&rt, body.push_piece(&bytes[..held]), true);
        assert_at(&rt, body.push_piece(&bytes[..piece]), fits, [held, piece]);
        assert_at(&rt, body.len(), left, [held, piece]);
    }
}

#[test]
fn a_text_is_read_by_blocks(rt: HostRuntime) {
    let mut body = open_body(&rt, rt.alloc());
    let text = [b'x'; 130];
    assert!(rt; body.push_piece(&text));
    let table = [(0, 64), (1, 64), (2, 2), (3, 0), (u32::MAX, 0)];
    for (k, len) in table {
        assert_at(&rt, body.block(k).len(), len, k);
    }
    assert_is(&rt, body.block(2), b"xx".as_slice());
}

#[test]
fn pieces_lie_across_blocks(rt: HostRuntime) {
    let mut body = open_body(&rt, rt.alloc());
    let mut text = [0; 8256];
    for (i, byte) in text.iter_mut().enumerate() {
        *byte = (i % 251) as u8;
    }
    let mut done = 0;
    for len in [1, 62, 3, 64, 62, 64, 65, 128, 7807] {
        assert!(rt; done <= text.len() && len <= text.len() - done);
        assert!(rt; body.push_piece(&text[done..done + len]));
        done += len;
        assert!(rt; done <= text.len());
        assert_holds(&rt, &body, &text[..done]);
    }
    assert_is(&rt, body.len(), 8256);
    body.truncate(100);
    assert!(rt; body.push_piece(b"more"));
    assert_eq!(rt; body.len(), 104);
    assert_is(&rt, body.byte(99), 99);
    assert_is(&rt, body.byte(100), b'm');
}

#[test]
fn a_text_is_cut(rt: HostRuntime) {
    let mut body = open_body(&rt, rt.alloc());
    assert!(rt; body.push_piece(b"hello"));
    body.truncate(9);
    assert_is(&rt, body.block(0), b"hello".as_slice());
    body.truncate(2);
    assert_is(&rt, body.block(0), b"he".as_slice());
}

#[test]
fn bytes_stand_in_order(rt: HostRuntime) {
    let mut body = open_body(&rt, rt.alloc());
    assert!(rt; body.push_piece(b"he"));
    assert!(rt; body.push_piece(b"llo"));
    assert_is(&rt, body.len(), 5);
    assert_holds(&rt, &body, b"hello");
}

#[test]
fn a_type_argument_asks_for_its_kind(rt: HostRuntime) {
    let table = [
        (0, Selector::Any),
        (-1, Selector::UpTo(1)),
        (-i64::MAX, Selector::UpTo(9_223_372_036_854_775_807)),
        (i64::MIN, Selector::UpTo(9_223_372_036_854_775_808)),
    ];
    for (mtype, sel) in table {
        assert_at(&rt, Selector::of(mtype, Flags::IPC_NOWAIT), sel, mtype);
        assert_at(&rt, Selector::of(mtype, Flags::MSG_EXCEPT), sel, mtype);
    }
    for mtype in [1, 5, i64::MAX] {
        let exactly = Selector::of(mtype, Flags::IPC_NOWAIT);
        let except = Selector::of(mtype, Flags::MSG_EXCEPT | Flags::IPC_NOWAIT);
        assert_is(&rt, exactly, Selector::Exactly(mtype));
        assert_is(&rt, except, Selector::Except(mtype));
    }
}
