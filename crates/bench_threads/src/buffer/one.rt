//! Items from one thread to another through a buffer of one producer and one consumer.
ghost use Rattle.std.specs.Prelude.{◌≡◌};

use crate::watch::{Time, Watch, nanos_if};
use std::alloc::Global;
use std::sync::Wait;
use std::thread::{Threads, join};
use std::time::{Clock, CpuClock};
use sysv_buffer::{Consumer, OneBuffer, Producer};

fn put_all(rt: &impl Wait, buffer: &OneBuffer<u64>, mut end: Producer<u64>, items: u64) -> bool
    requires { end.buffer ≡ buffer.now }
{
    for number in 0..items {
        if buffer.put(rt, &mut end, number).is_err() {
            return false;
        }
    }
    true
}

fn take_all(rt: &impl Wait, buffer: &OneBuffer<u64>, mut end: Consumer<u64>, items: u64) -> bool
    requires { end.buffer ≡ buffer.now }
{
    for _ in 0..items {
        if buffer.take(rt, &mut end).is_err() {
            return false;
        }
    }
    true
}

fn exchange<R: Threads + Wait + Sync>(
    rt: &R,
    buffer: &OneBuffer<u64>,
    puts: Producer<u64>,
    takes: Consumer<u64>,
    items: u64,
) -> bool
    requires puts { puts.buffer ≡ buffer.now }
    requires takes { takes.buffer ≡ buffer.now }
{
    let (one, two) = join(
        rt,
        || put_all(rt, buffer, puts, items),
        || take_all(rt, buffer, takes, items),
    );
    one && two
}

/// Returns the nanoseconds of items that one thread puts and another takes.
pub(crate) fn time_of_one_to_one<R: Threads + Wait + Clock + CpuClock + Sync>(
    rt: &R,
    alloc: Global,
    cells: usize,
    items: u64,
) -> Option<u64> {
    let Ok((buffer, puts, takes)) = OneBuffer::open(alloc, cells) else {
        return None;
    };
    let watch = Watch::start(rt, Time::Passed);
    let done = exchange(rt, &buffer, puts, takes, items);
    nanos_if(rt, watch, done)
}

fn put_and_take(
    rt: &impl Wait,
    buffer: &OneBuffer<u64>,
    puts: &mut Producer<u64>,
    takes: &mut Consumer<u64>,
    items: u64,
) -> bool
    requires puts { puts.old.buffer ≡ buffer.now }
    requires takes { takes.old.buffer ≡ buffer.now }
{
    for number in 0..items {
        if buffer.put(rt, puts, number).is_err() || buffer.take(rt, takes).is_err() {
            return false;
        }
    }
    true
}

/// Returns the nanoseconds of items that one thread puts and takes in turn, so that it never
/// sleeps.
pub(crate) fn time_alone<R: Wait + Clock + CpuClock>(
    rt: &R,
    alloc: Global,
    cells: usize,
    items: u64,
) -> Option<u64> {
    let Ok((buffer, mut puts, mut takes)) = OneBuffer::open(alloc, cells) else {
        return None;
    };
    let watch = Watch::start(rt, Time::Passed);
    let done = put_and_take(rt, &buffer, &mut puts, &mut takes, items);
    nanos_if(rt, watch, done)
}
