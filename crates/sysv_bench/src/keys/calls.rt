//! Queues that are made, settled and forgotten repeatedly.
use crate::keys::{Act, time_of};
use bench_threads::figures::{show, show_ratio};
use bench_threads::watch::{Time, Watch};
use std::alloc::Global;
use std::io;
use std::time::{Clock, CpuClock};
use sysv_keys::{Begun, Registry};
use sysv_model::Flags;

/// How often a queue is made and forgotten in the first measurement. In the second it is ten times
/// that number.
const TIMES: u64 = 1_000_000;

/// The key of those queues.
const KEY: i32 = 7;

/// The flags of a call that makes a queue.
pub(crate) const CREATING: Flags = Flags::IPC_CREAT;

/// Makes, settles and forgets the queue of a key.
fn come_and_go(registry: &mut Registry, key: i32) {
    if let Begun::Made { id } = registry.begin(key, CREATING) {
        registry.settle(id);
        registry.forget(id);
    }
}

/// Returns the nanoseconds of doing so `times` times.
pub(crate) fn come_and_go_often<R: Clock + CpuClock>(
    rt: &R,
    registry: &mut Registry,
    key: i32,
    times: u64,
) -> Option<u64> {
    let watch = Watch::start(rt, Time::Processor)?;
    for _ in 0..times {
        come_and_go(registry, key);
    }
    watch.nanos(rt)
}

/// Prints the time of making, settling and forgetting a queue, and the ratio of ten times that
/// number to it.
pub(crate) fn measure<R: Clock + CpuClock + Print>(rt: &R, alloc: Global) -> io::Result<()> {
    measure_key(rt, alloc, "a key", KEY)?;
    measure_key(rt, alloc, "a private key", 0)
}

fn measure_key<R: Clock + CpuClock + Print>(
    rt: &R,
    alloc: Global,
    what: &str,
    key: i32,
) -> io::Result<()> {
    let once = time_of(rt, alloc, Act::ComeAndGo(key), TIMES);
    let often = time_of(rt, alloc, Act::ComeAndGo(key), 10 * TIMES);
    show(rt, what, "made, settled and forgotten", once, TIMES, "ns")?;
    let how = "ten times as often";
    show_ratio(rt, what, how, often, once, "times as long")
}
