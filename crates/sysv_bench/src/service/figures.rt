//! The figures.
use crate::bodies::Bodies;
use crate::service::pairs::Pairs;
use crate::service::part::Part;
use crate::service::rounds::Player;
use crate::service::team::run;
use bench_threads::figures::{show, show_ratio};
use std::alloc::Global;
use std::io;
use std::sync::Wait;
use std::thread::Threads;
use std::time::{Clock, CpuClock};

/// How many pairs each thread makes.
const PAIRS: u64 = 300_000;

/// How many rounds a ping-pong has.
const ROUNDS: u64 = 50_000;

const BLOCKS: u32 = 1024;

fn pairs_at(alloc: Global, id: i32, size: u64, times: u64) -> Option<Part<'static>> {
    let bodies = Bodies::of_size(alloc, size)?;
    Some(Part::Pairs(Pairs {
        id,
        times,
        bodies,
        done: 0,
    }))
}

fn player(alloc: Global, serves: bool, hears: i32, says: i32, times: u64) -> Option<Part<'static>> {
    let bodies = Bodies::of_size(alloc, 64)?;
    Some(Part::Plays(Player {
        serves,
        hears,
        says,
        times,
        bodies,
        done: 0,
    }))
}

/// Adds a part, unless it is `None`. Returns `false` if it is, or if memory is refused.
fn add<'a>(parts: &mut Vec<Part<'a>>, part: Option<Part<'a>>) -> bool {
    match part {
        Some(part) => parts.push(part).is_ok(),
        None => false,
    }
}

/// Returns a part for each thread, or `None` if memory is refused.
fn all_pairs(alloc: Global, threads: i32, size: u64, times: u64) -> Option<Vec<Part<'static>>> {
    let mut parts = Vec::new(alloc);
    for id in 0..threads {
        if !add(&mut parts, pairs_at(alloc, id, size, times)) {
            return None;
        }
    }
    Some(parts)
}

/// Returns both sides of a ping-pong, or `None` if memory is refused.
fn both_players(alloc: Global, times: u64) -> Option<Vec<Part<'static>>> {
    let mut parts = Vec::new(alloc);
    let one = add(&mut parts, player(alloc, true, 1, 0, times));
    let other = add(&mut parts, player(alloc, false, 0, 1, times));
    if one && other { Some(parts) } else { None }
}

/// Returns how many pairs and rounds all of the parts finished.
fn done_in(parts: &[Part]) -> u64 {
    let mut done: u64 = 0;
    for part in parts {
        let more = match part {
            Part::Pairs(pairs) => pairs.done,
            Part::Plays(player) => player.done,
            _ => 0,
        };
        done = done.saturating_add(more);
    }
    done
}

/// Returns the nanoseconds until each of the threads has made `times` pairs of this size, or `None`
/// if one failed.
pub(crate) fn time_of_pairs<R: Threads + Wait + Clock + CpuClock + Sync>(
    rt: &R,
    alloc: Global,
    threads: i32,
    size: u64,
    times: u64,
) -> Option<u64> {
    let parts = all_pairs(alloc, threads, size, times)?;
    let left = run(rt, alloc, BLOCKS, threads, parts)?;
    if done_in(&left.parts) / times.max(1) == u64::from(threads.unsigned_abs()) {
        left.nanos
    } else {
        None
    }
}

/// Returns the nanoseconds of the rounds of a ping-pong.
fn time_of_rounds<R: Threads + Wait + Clock + CpuClock + Sync>(
    rt: &R,
    alloc: Global,
    times: u64,
) -> Option<u64> {
    let parts = both_players(alloc, times)?;
    let left = run(rt, alloc, BLOCKS, 2, parts)?;
    if done_in(&left.parts) / 2 == times {
        left.nanos
    } else {
        None
    }
}

/// Prints how many pairs or rounds per second were done.
fn show_rate(
    rt: &impl Print,
    what: &str,
    how: &str,
    times: u64,
    nanos: Option<u64>,
    unit: &str,
) -> io::Result<()> {
    let scaled = times.saturating_mul(1_000_000_000);
    show_ratio(rt, what, how, Some(scaled), nanos, unit)
}

/// Prints what pairs of one size take one thread.
pub(crate) fn measure_pairs<R: Threads + Wait + Clock + CpuClock + Print + Sync>(
    rt: &R,
    alloc: Global,
    size: u64,
    count: u64,
) -> io::Result<()> {
    let nanos = time_of_pairs(rt, alloc, 1, size, count);
    show(rt, "pairs", "one thread", nanos, count, "ns a pair")
}

/// Prints what the rounds of a ping-pong take.
pub(crate) fn measure_rounds<R: Threads + Wait + Clock + CpuClock + Print + Sync>(
    rt: &R,
    alloc: Global,
    count: u64,
) -> io::Result<()> {
    let nanos = time_of_rounds(rt, alloc, count);
    show(rt, "ping-pong", "two threads", nanos, count, "ns a round")
}

fn show_size<R: Threads + Wait + Clock + CpuClock + Print + Sync>(
    rt: &R,
    alloc: Global,
    what: &str,
    size: u64,
) -> io::Result<()> {
    show_threads(rt, alloc, what, size, "one thread", 1)?;
    show_threads(rt, alloc, what, size, "two threads", 2)?;
    show_threads(rt, alloc, what, size, "four threads", 4)
}

fn show_threads<R: Threads + Wait + Clock + CpuClock + Print + Sync>(
    rt: &R,
    alloc: Global,
    what: &str,
    size: u64,
    how: &str,
    threads: i32,
) -> io::Result<()> {
    let nanos = time_of_pairs(rt, alloc, threads, size, PAIRS);
    let times = PAIRS.saturating_mul(u64::from(threads.unsigned_abs()));
    show_rate(rt, what, how, times, nanos, "pairs a second")
}

/// Prints all of them.
pub(crate) fn measure<R: Threads + Wait + Clock + CpuClock + Print + Sync>(
    rt: &R,
    alloc: Global,
) -> io::Result<()> {
    show_size(rt, alloc, "64 bytes", 64)?;
    show_size(rt, alloc, "8192 bytes", 8192)?;
    let nanos = time_of_rounds(rt, alloc, ROUNDS);
    show_rate(
        rt,
        "ping-pong",
        "two threads",
        ROUNDS,
        nanos,
        "rounds a second",
    )
}

/// Returns the nanoseconds of a few pairs by two threads.
pub(crate) fn once<R: Threads + Wait + Clock + CpuClock + Sync>(
    rt: &R,
    alloc: Global,
) -> Option<u64> {
    time_of_pairs(rt, alloc, 2, 64, 100)
}
