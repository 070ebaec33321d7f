//! The same object under std's `Mutex`.
use crate::gate::calls::TIMES;
use crate::gate::sum::Sum;
use crate::watch::{Time, Watch};
use std::sync::{Mutex, Wait};
use std::thread::{Threads, for_each_mut};
use std::time::{Clock, CpuClock};

/// Returns the nanoseconds that `threads` threads, at most four, take for their additions.
pub(crate) fn time_at_lock<R: Threads + Wait + Clock + CpuClock + Sync>(
    rt: &R,
    threads: usize,
) -> Option<u64> {
    let sum = Mutex::new(Sum::new());
    let mut last = [0; 4];
    let watch = Watch::start(rt, Time::Passed);
    add_all(rt, &sum, &mut last[..threads.min(4)]);
    watch?.nanos(rt)
}

fn add_all<R: Threads + Wait + Sync>(rt: &R, sum: &Mutex<Sum>, last: &mut [u64]) {
    let threads = last.len().max(1);
    for_each_mut(rt, last, threads, &|_, last| *last = add_often(rt, sum));
}

fn add_often(rt: &impl Wait, sum: &Mutex<Sum>) -> u64 {
    let mut last = 0;
    for _ in 0..TIMES {
        last = sum.lock(rt).add();
    }
    last
}
