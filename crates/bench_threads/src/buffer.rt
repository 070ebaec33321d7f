//! Buffers beside a channel of `crossbeam_channel` with the same bound, and a buffer used by one
//! thread, which never sleeps.
mod channel;
mod many;
mod one;

use crate::figures::{show, show_ratio};
use std::alloc::Global;
use std::io;
use std::sync::Wait;
use std::thread::Threads;
use std::time::{Clock, CpuClock};

/// The number of cells, and the bound of the channel.
const BOUND: usize = 64;

/// How often each measurement is made, all of them in turn.
const RUNS: u32 = 5;

/// The number of items of one measurement.
const ITEMS: u64 = 400_000;

const UNIT: &str = "ns an item";

/// Prints what an item takes from one thread to another, and from two threads to two others.
pub fn measure<R: Threads + Wait + Clock + CpuClock + Print + Sync>(
    rt: &R,
    alloc: Global,
) -> io::Result<()> {
    for _ in 0..RUNS {
        measure_in_turn(rt, alloc)?;
    }
    Ok(())
}

fn measure_in_turn<R: Threads + Wait + Clock + CpuClock + Print + Sync>(
    rt: &R,
    alloc: Global,
) -> io::Result<()> {
    let one = one::time_of_one_to_one(rt, alloc, BOUND, ITEMS);
    let many = many::time_of_one_to_one(rt, alloc, BOUND, ITEMS);
    let channel = channel::time_of_one_to_one(rt, alloc, BOUND, ITEMS);
    tell(rt, "one to one, OneBuffer", one, channel)?;
    tell(rt, "one to one, ManyBuffer", many, channel)?;
    let many = many::time_of_two_to_two(rt, alloc, BOUND, ITEMS / 2);
    let channel = channel::time_of_two_to_two(rt, alloc, BOUND, ITEMS / 2);
    tell(rt, "two to two, ManyBuffer", many, channel)
}

/// Prints what an item takes through a buffer and through the channel, and the ratio.
fn tell(rt: &impl Print, what: &str, buffer: Option<u64>, channel: Option<u64>) -> io::Result<()> {
    show(rt, what, "buffer", buffer, ITEMS, UNIT)?;
    show(rt, what, "channel", channel, ITEMS, UNIT)?;
    let unit = "times (goal: at most 2)";
    show_ratio(rt, what, "by the channel's", buffer, channel, unit)
}

/// Prints what it takes one thread to put an item and to take it back.
pub fn measure_alone<R: Wait + Clock + CpuClock + Print>(rt: &R, alloc: Global) -> io::Result<()> {
    let one = one::time_alone(rt, alloc, BOUND, ITEMS);
    let many = many::time_alone(rt, alloc, BOUND, ITEMS);
    show(rt, "alone", "OneBuffer", one, ITEMS, UNIT)?;
    show(rt, "alone", "ManyBuffer", many, ITEMS, UNIT)
}

/// Returns the nanoseconds of a few items from two threads to two others.
pub fn once<R: Threads + Wait + Clock + CpuClock + Sync>(rt: &R, alloc: Global) -> Option<u64> {
    many::time_of_two_to_two(rt, alloc, 2, 100)
}
