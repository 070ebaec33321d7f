//! Single steps, by one thread and by two.
use crate::eventcount::part::{Act, time_of};
use crate::figures::show;
use crate::watch::Time;
use std::alloc::Global;
use std::io;
use std::sync::Wait;
use std::thread::Threads;
use std::time::{Clock, CpuClock};

/// How often a thread takes a single step.
const STEPS: u64 = 2_000_000;

const UNIT: &str = "ns a step";

fn show_step<R: Threads + Wait + Clock + CpuClock + Print + Sync>(
    rt: &R,
    alloc: Global,
    what: &str,
    step: Act,
) -> io::Result<()> {
    let alone = time_of(rt, alloc, Time::Passed, [step, Act::Rest], STEPS);
    show(rt, what, "one thread", alone, STEPS, UNIT)?;
    let beside = time_of(rt, alloc, Time::Passed, [step; 2], STEPS);
    show(rt, what, "two threads", beside, 2 * STEPS, UNIT)
}

/// Prints what each step takes.
pub(crate) fn measure<R: Threads + Wait + Clock + CpuClock + Print + Sync>(
    rt: &R,
    alloc: Global,
) -> io::Result<()> {
    show_step(rt, alloc, "advance", Act::Advance)?;
    show_step(rt, alloc, "advance and wake", Act::AdvanceAndWake)?;
    show_step(rt, alloc, "read", Act::Read)
}
