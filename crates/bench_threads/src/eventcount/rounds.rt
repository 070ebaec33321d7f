//! Waits that sleep: a ping-pong of two threads over an eventcount, the same over a locked count,
//! and a wait of a second.
use crate::eventcount::part::{Act, time_of};
use crate::figures::{show, show_ratio};
use crate::watch::Time;
use std::alloc::Global;
use std::io;
use std::sync::Wait;
use std::thread::Threads;
use std::time::{Clock, CpuClock};

/// The number of rounds of a ping-pong.
const ROUNDS: u64 = 100_000;

/// How often the two kinds of ping-pong are measured in turn.
const REPEATS: u32 = 5;

fn show_rounds<R: Threads + Wait + Clock + CpuClock + Print + Sync>(
    rt: &R,
    alloc: Global,
) -> io::Result<()> {
    let plays = [Act::Play(0), Act::Play(1)];
    let locked = [Act::PlayLocked(0), Act::PlayLocked(1)];
    let counts = time_of(rt, alloc, Time::Passed, plays, ROUNDS);
    let locks = time_of(rt, alloc, Time::Passed, locked, ROUNDS);
    show(rt, "ping-pong", "eventcounts", counts, ROUNDS, "ns a round")?;
    show(rt, "ping-pong", "locks", locks, ROUNDS, "ns a round")?;
    let how = "eventcounts beside locks";
    show_ratio(rt, "ping-pong", how, counts, locks, "times")
}

/// Prints all of them, each kind of ping-pong a few times in turn.
pub(crate) fn measure<R: Threads + Wait + Clock + CpuClock + Print + Sync>(
    rt: &R,
    alloc: Global,
) -> io::Result<()> {
    for _ in 0..REPEATS {
        show_rounds(rt, alloc)?;
    }
    let used = time_of(rt, alloc, Time::Processor, [Act::Sleep, Act::Rouse], 1);
    show(
        rt,
        "a wait of a second",
        "processor time",
        used,
        1000,
        "microseconds",
    )
}
