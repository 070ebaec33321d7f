//! A stop ends all waits.

use crate::ask::Ask;
use crate::board::{Board, Moment};
use crate::part::{Part, Turn, add, told_of};
use crate::parts::{assert_is, closed};
use crate::team::run;
use crate::turns::{Tease, Then};
use std::process::Abort;
use sysv_model::Errno;

/// Two receives of type 2 at a queue, whose clocks report on a board each, and a thread that
/// reports after both have looked.
fn add_waiters<'a>(
    rt: &impl Abort,
    parts: &mut Vec<Part<'a>>,
    board: &'a Board,
    id: i32,
    looks: &'a [Board],
) {
    for look in looks {
        let turn = Turn {
            runs: false,
            clock: Moment::Counts(look),
            ..Turn::at_once(board, Ask::ReceiveSecond(id))
        };
        add(rt, parts, Part::Asks(turn));
    }
    let then = Then::Says(board);
    add(rt, parts, Part::Teases(Tease { id, looks, then }));
}

// The stop begins after each of six receives has looked, so each of them has found its queue.
#[test]
fn a_stop_wakes_all_who_wait(rt: HostRuntime) {
    let alloc = rt.alloc();
    let board = Board::new();
    let looks = [Board::two(), Board::two(), Board::two()];
    let mut parts = Vec::new(alloc);
    for (id, pair) in (0..3).zip(looks.iter()) {
        add_waiters(&rt, &mut parts, &board, id, pair);
    }
    let stops = Turn {
        runs: false,
        after: 3,
        begins: true,
        ..Turn::at_once(&board, Ask::Stop)
    };
    add(&rt, &mut parts, Part::Asks(stops));
    let before = [Ask::Get(1), Ask::Get(2), Ask::Get(3)];
    let left = run(&rt, alloc, 128, &before, parts);
    assert_is(&rt, left.live, 0);
    assert_is(&rt, left.closed, closed(0, 128));
    for waiter in [0, 1, 3, 4, 6, 7] {
        assert_is(
            &rt,
            told_of(&rt, &left.parts, waiter),
            (Err(Errno::EIDRM), 4),
        );
    }
    assert_is(&rt, told_of(&rt, &left.parts, 9).0, Ok(3));
}
