//! Lines of a script.
use crate::parts::{assert_is, assert_that};
use bitflags::Flags as _;
use std::io::Write;
use std::process::Abort;
use sysv_model::{Errno, Flags};
use sysv_script::{Head, Line, Operation, Text, line_of};
use sysv_steps::{Call, Outcome};

#[test]
fn a_line_says_what_an_actor_starts(rt: HostRuntime) {
    let said = line_of(b"2 snd -1 9223372036854775807 NOWAIT+0600 =a b");
    let Some(Line::Start { actor, call, goes }) = said else {
        panic!(rt; "no start");
    };
    assert_is(&rt, actor, 2);
    assert_that(&rt, goes);
    let Call::Send {
        id,
        mtype,
        flags,
        body: text,
    } = call
    else {
        panic!(rt; "no send");
    };
    assert_is(&rt, (id, mtype), (-1, i64::MAX));
    assert_is(
        &rt,
        flags,
        Flags::IPC_NOWAIT
            .union(Flags::USER_READ)
            .union(Flags::USER_WRITE),
    );
    let Text::Given(bytes) = text else {
        panic!(rt; "no text");
    };
    assert_is(&rt, bytes, b"a b".as_slice());
    assert_that(&rt, line_of(b"17 snd 0 1 - =").is_none());
}

#[test]
fn orders_are_understood(rt: HostRuntime) {
    let moment = line_of(b"now 18446744073709551615");
    assert_that(&rt, matches!(moment, Some(Line::Moment(u64::MAX))));
    assert_that(
        &rt,
        matches!(line_of(b"step 16"), Some(Line::Step { actor: 16 })),
    );
    assert_that(
        &rt,
        matches!(line_of(b"go 01"), Some(Line::Go { actor: 1 })),
    );
    assert_that(&rt, matches!(line_of(b"all"), Some(Line::All)));
    assert_that(
        &rt,
        matches!(line_of(b"pool 128"), Some(Line::Pool { blocks: 128 })),
    );
    assert_that(&rt, line_of(b"pool 127").is_none());
    assert_that(&rt, line_of(b"pool 65537").is_none());
    assert_that(
        &rt,
        matches!(line_of(b"as 3 5 6 7"), Some(Line::Cred { actor: 3, .. })),
    );
    assert_that(&rt, line_of(b"go 0").is_none());
    assert_that(&rt, line_of(b"all ").is_none());
    assert_that(&rt, line_of(b"wait 1").is_none());
}

/// Returns the call that a line starts.
fn call_of<'a>(rt: &impl Abort, line: &'a [u8]) -> Call<Text<'a>, ()> {
    match line_of(line) {
        Some(Line::Start { call, .. }) => call,
        _ => panic!(rt; "no start"),
    }
}

#[test]
fn each_call_is_understood(rt: HostRuntime) {
    let get = line_of(b"+1 get -4 CREAT+0600");
    let Some(Line::Start { call, goes, .. }) = get else {
        panic!(rt; "no get");
    };
    assert_that(&rt, !goes);
    assert_that(&rt, matches!(call, Call::Get { key: -4, .. }));
    let Call::Set { id, to } = call_of(&rt, b"1 set 64 5 6 0640 70000") else {
        panic!(rt; "no set");
    };
    assert_is(
        &rt,
        (id, to.uid, to.gid, to.mode, to.qbytes),
        (64, 5, 6, 416, 70000),
    );
    assert_that(
        &rt,
        matches!(call_of(&rt, b"2 rm 7"), Call::Remove { id: 7 }),
    );
    assert_that(
        &rt,
        matches!(call_of(&rt, b"2 stat 8"), Call::Stat { id: 8 }),
    );
    assert_that(&rt, line_of(b"1 set 0 1 1 1000 5").is_none());
    assert_that(&rt, line_of(b"1 rm 0 ").is_none());
}

#[test]
fn heads_are_printed(rt: HostRuntime) {
    let table = [
        (Outcome::Zero, b"1 snd = 0".as_slice()),
        (
            Outcome::Got { mtype: -7, len: 5 },
            b"1 snd = 5 type -7 =".as_slice(),
        ),
        (
            Outcome::Refused(Errno::EAGAIN),
            b"1 snd ! EAGAIN".as_slice(),
        ),
    ];
    for (outcome, line) in table {
        let head = Head::Answers {
            actor: 1,
            operation: Operation::Send,
            outcome,
        };
        let Ok(mut printed) = Vec::with_capacity(rt.alloc(), 64) else {
            return;
        };
        assert_that(&rt, write!(printed, "{head}").is_ok());
        assert_is(&rt, printed.as_slice(), line);
    }
}
