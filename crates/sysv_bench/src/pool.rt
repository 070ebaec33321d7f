//! Chains of a pool beside vectors and a plain copy, for payloads of several sizes. Each is measured
//! five times, in turn.
mod rounds;

use crate::bodies::Bodies;
use bench_threads::figures::{show, show_ratio};
use rounds::{time_of_chains, time_of_copies, time_of_vecs};
use std::alloc::Global;
use std::io;
use std::time::{Clock, CpuClock};
use sysv_model::MESSAGE_BYTES;
use sysv_pool::Pool;

/// The number of rounds of one run.
const ROUNDS: u64 = 100_000;

/// How often each kind of round is measured, all of them in turn.
const RUNS: u32 = 5;

/// The number of bytes that are copied.
const TEXT: [u8; MESSAGE_BYTES] = [b'x'; MESSAGE_BYTES];

/// The shortest and the longest time of several runs, in nanoseconds.
#[derive(Clone, Copy)]
struct Spread {
    best: u64,
    worst: u64,
}

/// What is known before the first run.
const UNMEASURED: Spread = Spread {
    best: u64::MAX,
    worst: 0,
};

/// The times of each kind of round, `None` for one of which a run failed.
#[derive(Clone, Copy)]
struct Times {
    chains: Option<Spread>,
    vecs: Option<Spread>,
    copies: Option<Spread>,
}

/// Returns the times of these runs and of one more.
fn with(spread: Option<Spread>, nanos: Option<u64>) -> Option<Spread> {
    let (Some(spread), Some(nanos)) = (spread, nanos) else {
        return None;
    };
    Some(Spread {
        best: spread.best.min(nanos),
        worst: spread.worst.max(nanos),
    })
}

/// Prints the shortest and the longest time of a round.
fn show_spread(
    rt: &impl Print,
    what: &str,
    [best, worst]: [&str; 2],
    spread: Option<Spread>,
) -> io::Result<()> {
    let unit = "ns a round";
    show(rt, what, best, spread.map(|it| it.best), ROUNDS, unit)?;
    show(rt, what, worst, spread.map(|it| it.worst), ROUNDS, unit)
}

/// Prints the times of rounds with chains beside those with vectors, and the ratio of the shortest
/// ones.
fn show_beside(rt: &impl Print, what: &str, times: &Times) -> io::Result<()> {
    let Times { chains, vecs, .. } = *times;
    show_spread(rt, what, ["chain at best", "chain at worst"], chains)?;
    show_spread(rt, what, ["vector at best", "vector at worst"], vecs)?;
    let (chain, vec) = (chains.map(|it| it.best), vecs.map(|it| it.best));
    show_ratio(rt, what, "chain beside vector", chain, vec, "times")
}

/// Prints how many million bytes per second were copied in the shortest run.
fn show_speed(rt: &impl Print, how: &str, spread: Option<Spread>) -> io::Result<()> {
    let millions = MESSAGE_BYTES as u64 * 1000 * ROUNDS;
    let unit = "million bytes a second";
    let nanos = spread.map(|it| it.best);
    show_ratio(rt, "8192 bytes", how, Some(millions), nanos, unit)
}

/// Measures payloads of one size.
fn measure_size<R: Clock + CpuClock + Print>(
    rt: &R,
    alloc: Global,
    pool: &mut Pool,
    what: &str,
    text: &[u8],
) -> io::Result<()> {
    let Some(mut bodies) = Bodies::of(alloc, text) else {
        return println!(rt; "{what}: memory was refused");
    };
    let times = times_of(rt, alloc, pool, text, &mut bodies);
    show_beside(rt, what, &times)?;
    if text.len() != TEXT.len() {
        return Ok(());
    }
    show_speed(rt, "through a chain", times.chains)?;
    show_speed(rt, "plain copy", times.copies)
}

/// Returns the times of payloads of the same bytes in these bodies. The kinds of rounds take turns.
fn times_of<R: Clock + CpuClock>(
    rt: &R,
    alloc: Global,
    pool: &mut Pool,
    text: &[u8],
    bodies: &mut Bodies,
) -> Times {
    let none = Some(UNMEASURED);
    let (mut chains, mut vecs, mut copies) = (none, none, none);
    for _ in 0..RUNS {
        let nanos = time_of_chains(rt, pool, &bodies.text, &mut bodies.out, ROUNDS);
        chains = with(chains, nanos);
        vecs = with(vecs, time_of_vecs(rt, alloc, text, &mut bodies.out, ROUNDS));
        copies = with(copies, time_of_copies(rt, text, &mut bodies.out, ROUNDS));
    }
    Times {
        chains,
        vecs,
        copies,
    }
}

fn measure_all<R: Clock + CpuClock + Print>(
    rt: &R,
    alloc: Global,
    pool: &mut Pool,
) -> io::Result<()> {
    measure_size(rt, alloc, pool, "64 bytes", &TEXT[..64])?;
    measure_size(rt, alloc, pool, "1024 bytes", &TEXT[..1024])?;
    measure_size(rt, alloc, pool, "8192 bytes", &TEXT)
}

/// Prints what a round takes with a chain and with a vector, at best and at worst.
pub(crate) fn measure<R: Clock + CpuClock + Print>(rt: &R, alloc: Global) -> io::Result<()> {
    let Ok(mut pool) = Pool::open(alloc, 1024) else {
        return println!(rt; "no pool: memory was refused");
    };
    let shown = measure_all(rt, alloc, &mut pool);
    pool.end();
    shown
}

/// Returns the nanoseconds of a few rounds with chains.
pub(crate) fn once<R: Clock + CpuClock>(rt: &R, alloc: Global) -> Option<u64> {
    let Ok(mut pool) = Pool::open(alloc, 1024) else {
        return None;
    };
    let nanos = once_in(rt, alloc, &mut pool);
    pool.end();
    nanos
}

fn once_in<R: Clock + CpuClock>(rt: &R, alloc: Global, pool: &mut Pool) -> Option<u64> {
    let mut bodies = Bodies::of(alloc, &TEXT)?;
    time_of_chains(rt, pool, &bodies.text, &mut bodies.out, 10)
}
