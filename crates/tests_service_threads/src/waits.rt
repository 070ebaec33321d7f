//! Waits of every kind end when what they wait for happens.

use crate::ask::{Ask, Told};
use crate::board::{Board, Moment};
use crate::part::{Part, Turn, add, told_of};
use crate::parts::{assert_is, closed};
use crate::team::run;
use std::alloc::Global;
use std::process::Abort;
use std::sync::Wait;
use std::thread::Threads;
use std::time::Clock;
use sysv_model::{Errno, SetTo};
use tests_kit::{ROOT, USER};

/// How often a wait is tried if the other call may be first.
const TRIES: u32 = 50;

/// The number of gets that wait for one key.
const GETS: usize = 4;

/// The attributes of a queue of user 1000 with this mode and limit.
fn to(mode: u32, qbytes: u32) -> SetTo {
    SetTo {
        uid: 1000,
        gid: 1000,
        mode,
        qbytes,
    }
}

/// Runs a call that waits, after these calls, and a call that ends its wait.
#[derive(Clone, Copy)]
struct Case {
    before: [Ask; 3],
    waits: Ask,
    ends: Ask,
    told: Told,
}

/// Returns the result of the wait, the number of reports when it ended, and the result of the call
/// that ended it.
fn waited<R: Threads + Abort + Wait + Clock + Sync>(
    rt: &R,
    alloc: Global,
    case: &Case,
) -> (Told, u64, Told) {
    let board = Board::new();
    let waits = Turn::at_once(&board, case.waits);
    let ends = Turn {
        runs: false,
        after: 1,
        begins: true,
        ..Turn::at_once(&board, case.ends)
    };
    let mut parts = Vec::new(alloc);
    add(rt, &mut parts, Part::Asks(waits));
    add(rt, &mut parts, Part::Asks(ends));
    let left = run(rt, alloc, 128, &case.before, parts);
    assert_is(rt, (left.closed.free, left.closed.held), (128, 0));
    let (told, said) = told_of(rt, &left.parts, 0);
    (told, said, told_of(rt, &left.parts, 1).0)
}

/// Asserts that the wait has ended, and not before the call that ends it began. If the removal was
/// made before the first look, it is tried again.
fn check<R: Threads + Abort + Wait + Clock + Sync>(rt: &R, alloc: Global, case: &Case) {
    for _ in 0..TRIES {
        let (told, said, ending) = waited(rt, alloc, case);
        assert_is(rt, said, 2);
        assert!(rt; ending.is_ok());
        if told != Err(Errno::EINVAL) {
            assert_is(rt, told, case.told);
            return;
        }
    }
    panic!(rt; "the removal came first each time")
}

/// Asserts that the wait has this result, for each of these calls that end it.
fn check_each<R: Threads + Abort + Wait + Clock + Sync>(
    rt: &R,
    alloc: Global,
    before: [Ask; 3],
    waits: Ask,
    ends: [(Ask, Told); 3],
) {
    for (ends, told) in ends {
        let case = Case {
            before,
            waits,
            ends,
            told,
        };
        check(rt, alloc, &case);
    }
}

#[test]
fn a_send_waits_for_room(rt: HostRuntime) {
    let before = [
        Ask::Get(1),
        Ask::Set(0, USER, to(0o600, 1)),
        Ask::Send(0, 1),
    ];
    let waits = Ask::Send(0, 1);
    let ends = [
        (Ask::Receive(0), Ok(0)),
        (Ask::Set(0, ROOT, to(0o600, 2)), Ok(0)),
        (Ask::Remove(0), Err(Errno::EIDRM)),
    ];
    check_each(&rt, rt.alloc(), before, waits, ends);
}

#[test]
fn a_receive_waits_for_a_message(rt: HostRuntime) {
    let before = [Ask::Get(1), Ask::Get(2), Ask::Get(3)];
    let waits = Ask::Receive(0);
    let ends = [
        (Ask::Send(0, 5), Ok(5)),
        (Ask::Set(0, USER, to(0o200, 1)), Err(Errno::EACCES)),
        (Ask::Remove(0), Err(Errno::EIDRM)),
    ];
    check_each(&rt, rt.alloc(), before, waits, ends);
}

// The message is for the receive that began to wait last. The other one is woken too, and waits
// until the queue is removed. A receive that is not woken would sleep for ever.
#[test]
fn an_arrival_wakes_every_receive_that_waits(rt: HostRuntime) {
    let alloc = rt.alloc();
    let board = Board::new();
    let in_vain = Turn::at_once(&board, Ask::ReceiveSecond(0));
    let receives = Turn {
        runs: false,
        after: 1,
        begins: true,
        ends: true,
        ..Turn::at_once(&board, Ask::Receive(0))
    };
    let sends = Turn {
        runs: false,
        after: 2,
        begins: true,
        ..Turn::at_once(&board, Ask::Send(0, 5))
    };
    let removes = Turn {
        runs: false,
        after: 4,
        ..Turn::at_once(&board, Ask::Remove(0))
    };
    let mut parts = Vec::new(alloc);
    for turn in [in_vain, receives, sends, removes] {
        add(&rt, &mut parts, Part::Asks(turn));
    }
    let left = run(&rt, alloc, 128, &[Ask::Get(1)], parts);
    assert_is(&rt, left.closed, closed(0, 128));
    let in_vain = told_of(&rt, &left.parts, 0).0;
    assert!(rt; matches!(in_vain, Err(Errno::EIDRM | Errno::EINVAL)));
    assert_is(&rt, told_of(&rt, &left.parts, 1).0, Ok(5));
    assert_is(&rt, told_of(&rt, &left.parts, 2).0, Ok(0));
    assert_is(&rt, told_of(&rt, &left.parts, 3).0, Ok(0));
}

#[test]
fn a_send_waits_for_blocks(rt: HostRuntime) {
    let before = [Ask::Get(1), Ask::Get(2), Ask::Send(0, 8192)];
    let waits = Ask::Send(1, 1);
    let ends = [
        (Ask::Receive(0), Ok(0)),
        (Ask::Remove(0), Ok(0)),
        (Ask::Remove(1), Err(Errno::EIDRM)),
    ];
    check_each(&rt, rt.alloc(), before, waits, ends);
}

// The first get makes the queue, and its clock holds it before the install until the second get
// waits and the third call reports that.
#[test]
fn a_get_waits_for_a_key_that_is_made(rt: HostRuntime) {
    let alloc = rt.alloc();
    let board = Board::new();
    let makes = Turn {
        runs: false,
        clock: Moment::Holds(&board, 3),
        ..Turn::at_once(&board, Ask::Get(7))
    };
    let waits = Turn {
        runs: false,
        after: 1,
        begins: true,
        ..Turn::at_once(&board, Ask::Get(7))
    };
    let releases = Turn {
        runs: false,
        after: 2,
        begins: true,
        ..Turn::at_once(&board, Ask::Get(8))
    };
    let mut parts = Vec::new(alloc);
    for turn in [makes, waits, releases] {
        add(&rt, &mut parts, Part::Asks(turn));
    }
    let left = run(&rt, alloc, 128, &[], parts);
    assert_is(&rt, left.closed, closed(0, 128));
    assert_is(&rt, told_of(&rt, &left.parts, 0), (Ok(0), 3));
    assert_is(&rt, told_of(&rt, &left.parts, 1), (Ok(0), 3));
    assert_is(&rt, told_of(&rt, &left.parts, 2).0, Ok(1));
}

// A get that the settle does not wake would sleep for ever.
#[test]
fn one_settle_wakes_all_gets_that_wait(rt: HostRuntime) {
    let alloc = rt.alloc();
    let board = Board::new();
    let goal = GETS as u64 + 2;
    let makes = Turn {
        runs: false,
        clock: Moment::Holds(&board, goal),
        ..Turn::at_once(&board, Ask::Get(7))
    };
    let releases = Turn {
        runs: false,
        after: goal - 1,
        begins: true,
        ..Turn::at_once(&board, Ask::Get(8))
    };
    let mut parts = Vec::new(alloc);
    add(&rt, &mut parts, Part::Asks(makes));
    add(&rt, &mut parts, Part::Asks(releases));
    for _ in 0..GETS {
        let waits = Turn {
            runs: false,
            after: 1,
            begins: true,
            ..Turn::at_once(&board, Ask::Get(7))
        };
        add(&rt, &mut parts, Part::Asks(waits));
    }
    let left = run(&rt, alloc, 128, &[], parts);
    assert_is(&rt, left.closed, closed(0, 128));
    for place in 0..GETS {
        assert_is(&rt, told_of(&rt, &left.parts, place + 2), (Ok(0), goal));
    }
}

/// The time of a call that waited, as the queue shows it. Two things were said when the wait could
/// end, and one when the call began.
fn stamped<R: Threads + Abort + Wait + Clock + Sync>(
    rt: &R,
    alloc: Global,
    before: [Ask; 3],
    calls: [Ask; 3],
) -> Told {
    let board = Board::new();
    let [waits, ends, tells] = calls;
    let waits = Turn {
        clock: Moment::Rises(&board),
        ends: true,
        ..Turn::at_once(&board, waits)
    };
    let ends = Turn {
        runs: false,
        after: 1,
        begins: true,
        ..Turn::at_once(&board, ends)
    };
    let tells = Turn {
        runs: false,
        after: 3,
        ..Turn::at_once(&board, tells)
    };
    let mut parts = Vec::new(alloc);
    for turn in [waits, ends, tells] {
        add(rt, &mut parts, Part::Asks(turn));
    }
    let left = run(rt, alloc, 128, &before, parts);
    told_of(rt, &left.parts, 2).0
}

// A call that waited is stamped with a time that its clock gave after the wait, and not with that
// of its start.
#[test]
fn a_call_that_waited_is_stamped_after_its_wait(rt: HostRuntime) {
    let before = [
        Ask::Get(1),
        Ask::Set(0, USER, to(0o600, 1)),
        Ask::Send(0, 1),
    ];
    let calls = [Ask::Send(0, 1), Ask::Receive(0), Ask::SentAt(0)];
    assert_is(&rt, stamped(&rt, rt.alloc(), before, calls), Ok(2));
    let before = [Ask::Get(1), Ask::Get(2), Ask::Get(3)];
    let calls = [Ask::Receive(0), Ask::Send(0, 5), Ask::ReceivedAt(0)];
    assert_is(&rt, stamped(&rt, rt.alloc(), before, calls), Ok(2));
}
