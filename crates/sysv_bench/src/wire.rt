//! Frames over memory: what a send and its reply take, and what the readers return for bytes from
//! the standard input.
mod answers;
mod turns;

pub(crate) use answers::tell_answers;
use bench_threads::figures::show;
use std::alloc::Global;
use std::io;
use std::time::{Clock, CpuClock};
use turns::time_of_turns;

/// How often a send is read and its reply is written.
const TIMES: u64 = 1_000_000;

/// Prints what it takes to read a send and to write its reply.
pub(crate) fn measure<R: Clock + CpuClock + Print>(rt: &R, alloc: Global) -> io::Result<()> {
    let what = "a send of 64 bytes read and its reply written";
    let nanos = time_of_turns(rt, alloc, TIMES);
    show(rt, what, "over memory", nanos, TIMES, "ns a turn")
}

/// Returns the nanoseconds of a few turns.
pub(crate) fn once<R: Clock + CpuClock>(rt: &R, alloc: Global) -> Option<u64> {
    time_of_turns(rt, alloc, 10)
}
