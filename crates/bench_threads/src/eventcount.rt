//! Eventcounts beside a count under std's `Mutex` and `Condvar`.
mod locked;
mod part;
mod place;
mod rounds;
mod steps;

use crate::watch::Time;
use part::{Act, time_of};
use std::alloc::Global;
use std::io;
use std::sync::Wait;
use std::thread::Threads;
use std::time::{Clock, CpuClock};

/// Prints what each step takes, and then what waits take.
pub fn measure<R: Threads + Wait + Clock + CpuClock + Print + Sync>(
    rt: &R,
    alloc: Global,
) -> io::Result<()> {
    steps::measure(rt, alloc)?;
    rounds::measure(rt, alloc)
}

/// Returns the nanoseconds of a few rounds of a ping-pong.
pub fn once<R: Threads + Wait + Clock + CpuClock + Sync>(rt: &R, alloc: Global) -> Option<u64> {
    time_of(rt, alloc, Time::Passed, [Act::Play(0), Act::Play(1)], 100)
}
