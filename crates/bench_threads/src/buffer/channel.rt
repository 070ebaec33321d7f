//! The same measurements through a channel.
use crate::watch::{Time, Watch, nanos_if};
use crossbeam_channel::{Receiver, Sender, bounded};
use std::alloc::Global;
use std::sync::Wait;
use std::thread::{Threads, join};
use std::time::{Clock, CpuClock};

fn send_some(rt: &impl Wait, sender: &Sender<u64>, count: u64) -> bool {
    for number in 0..count {
        if sender.send(rt, number).is_err() {
            return false;
        }
    }
    true
}

fn receive_some(rt: &impl Wait, receiver: &Receiver<u64>, count: u64) -> bool {
    for _ in 0..count {
        if receiver.recv(rt).is_err() {
            return false;
        }
    }
    true
}

/// Sends `count` items in one thread, and receives the same number in another.
fn exchange<R: Threads + Wait + Sync>(
    rt: &R,
    sender: &Sender<u64>,
    receiver: &Receiver<u64>,
    count: u64,
) -> bool {
    let (one, two) = join(
        rt,
        || send_some(rt, sender, count),
        || receive_some(rt, receiver, count),
    );
    one && two
}

/// Does the same with two such pairs of threads at once.
fn exchange_by_four<R: Threads + Wait + Sync>(
    rt: &R,
    sender: &Sender<u64>,
    receiver: &Receiver<u64>,
    count: u64,
) -> bool {
    let (one, two) = join(
        rt,
        || exchange(rt, sender, receiver, count),
        || exchange(rt, sender, receiver, count),
    );
    one && two
}

/// Returns the nanoseconds of items that one thread sends and another receives.
pub(crate) fn time_of_one_to_one<R: Threads + Wait + Clock + CpuClock + Sync>(
    rt: &R,
    alloc: Global,
    bound: usize,
    items: u64,
) -> Option<u64> {
    let Ok((sender, receiver)) = bounded(alloc, bound) else {
        return None;
    };
    let watch = Watch::start(rt, Time::Passed);
    let done = exchange(rt, &sender, &receiver, items);
    nanos_if(rt, watch, done)
}

/// Returns the nanoseconds until each of two threads has sent `items` items and each of two others
/// has received the same number.
pub(crate) fn time_of_two_to_two<R: Threads + Wait + Clock + CpuClock + Sync>(
    rt: &R,
    alloc: Global,
    bound: usize,
    items: u64,
) -> Option<u64> {
    let Ok((sender, receiver)) = bounded(alloc, bound) else {
        return None;
    };
    let watch = Watch::start(rt, Time::Passed);
    let done = exchange_by_four(rt, &sender, &receiver, items);
    nanos_if(rt, watch, done)
}
