//! The permissions of callers, worked out by hand from the standard's general description of
//! interprocess communication.

use crate::parts::assert_at;
use std::process::Abort;
use sysv_model::{Cred, Perm};
use sysv_rules::{Want, may, may_control};

/// The nine mode bits.
const BITS: [u16; 9] = [
    0o400, 0o200, 0o100, 0o040, 0o020, 0o010, 0o004, 0o002, 0o001,
];

/// A queue of user 10 and group 20, made by user 11 and group 21.
fn queue(mode: u16) -> Perm {
    Perm {
        uid: 10,
        gid: 20,
        cuid: 11,
        cgid: 21,
        mode,
    }
}

fn caller(uid: u32, gid: u32) -> Cred {
    Cred { uid, gid, pid: 10 }
}

/// Asserts whether the caller of a queue with this mode has the permission that it wants.
fn assert_may(rt: &impl Abort, who: &str, cred: Cred, mode: u16, want: Want, may_it: bool) {
    assert_eq!(rt;
        may(cred, queue(mode), want),
        may_it,
        "{who}: {want:?} by {mode}"
    );
}

#[test]
fn one_bit_grants_and_eight_do_not(rt: HostRuntime) {
    let table = [
        ("owner", caller(10, 99), 0o400, 0o200),
        ("creator", caller(11, 99), 0o400, 0o200),
        ("member", caller(98, 20), 0o040, 0o020),
        (
            "member of the creator's group",
            caller(98, 21),
            0o040,
            0o020,
        ),
        ("other", caller(98, 99), 0o004, 0o002),
    ];
    for (who, cred, read, write) in table {
        for bit in BITS {
            assert_may(&rt, who, cred, bit, Want::Read, bit == read);
            assert_may(&rt, who, cred, bit, Want::Write, bit == write);
        }
        assert_may(&rt, who, cred, 0o777, Want::Read, true);
        assert_may(&rt, who, cred, 0o777, Want::Write, true);
        assert_may(&rt, who, cred, 0o777 - read, Want::Read, false);
        assert_may(&rt, who, cred, 0o777 - write, Want::Write, false);
    }
}

#[test]
fn a_lower_class_does_not_help(rt: HostRuntime) {
    let table = [
        ("owner in the group", caller(10, 20), 0o077),
        ("creator in its group", caller(11, 21), 0o077),
        ("owner in the group", caller(10, 20), 0o070),
        ("owner in the group", caller(10, 20), 0o007),
        ("member", caller(98, 20), 0o007),
        ("member of the creator's group", caller(98, 21), 0o007),
    ];
    for (who, cred, mode) in table {
        assert_may(&rt, who, cred, mode, Want::Read, false);
        assert_may(&rt, who, cred, mode, Want::Write, false);
    }
}

#[test]
fn user_zero_always_may(rt: HostRuntime) {
    for mode in [0, 0o777, 0o111, 0o400, 0o002] {
        for gid in [0, 20, 99] {
            assert_may(&rt, "user zero", caller(0, gid), mode, Want::Read, true);
            assert_may(&rt, "user zero", caller(0, gid), mode, Want::Write, true);
            assert!(rt; may_control(caller(0, gid), queue(mode)), "{mode}");
        }
    }
}

#[test]
fn owner_and_creator_control(rt: HostRuntime) {
    let table = [
        ("owner", caller(10, 99), true),
        ("creator", caller(11, 99), true),
        ("member", caller(98, 20), false),
        ("member of the creator's group", caller(98, 21), false),
        ("other", caller(98, 99), false),
    ];
    for (who, cred, controls) in table {
        for mode in [0, 0o777] {
            assert_at(&rt, may_control(cred, queue(mode)), controls, who);
        }
    }
}
