//! The rounds that are measured, and the time that a number of them takes.
use bench_threads::watch::{Time, Watch};
use std::alloc::Global;
use std::time::{Clock, CpuClock};
use sysv_model::{Body, MESSAGE_BYTES, WORN};
use sysv_pool::Pool;

/// Reserves a chain, fills it with the body, copies the body out and releases the chain. Returns
/// `false` if one of these was refused.
fn chain_round(pool: &mut Pool, text: &Body, out: &mut Body) -> bool {
    let len = text.len();
    let released = pool.released();
    if len > MESSAGE_BYTES || released >= WORN {
        return false;
    }
    let Some(mut chain) = pool.reserve(len) else {
        return false;
    };
    chain.fill(text);
    out.clear();
    chain.copy_out(len, out);
    match pool.release(chain) {
        Ok(()) => true,
        Err(chain) => chain.end() == 0,
    }
}

/// Allocates a vector, fills it with the body, copies the body out and drops the vector. Returns
/// `false` if memory was refused.
fn vec_round(alloc: Global, text: &[u8], out: &mut Body) -> bool {
    match Vec::with_capacity(alloc, text.len()) {
        Ok(mut bytes) => bytes.extend_from_slice(text).is_ok() && copy(&bytes, out),
        Err(_) => false,
    }
}

/// Copies the bytes into the body. Returns whether they fit.
fn copy(text: &[u8], out: &mut Body) -> bool {
    out.clear();
    out.push_piece(text)
}

/// Returns the nanoseconds of all rounds with chains.
pub(crate) fn time_of_chains<R: Clock + CpuClock>(
    rt: &R,
    pool: &mut Pool,
    text: &Body,
    out: &mut Body,
    rounds: u64,
) -> Option<u64> {
    let watch = Watch::start(rt, Time::Passed)?;
    for _ in 0..rounds {
        if !chain_round(pool, text, out) {
            return None;
        }
    }
    watch.nanos(rt)
}

/// Returns the nanoseconds of all rounds with vectors.
pub(crate) fn time_of_vecs<R: Clock + CpuClock>(
    rt: &R,
    alloc: Global,
    text: &[u8],
    out: &mut Body,
    rounds: u64,
) -> Option<u64> {
    let watch = Watch::start(rt, Time::Passed)?;
    for _ in 0..rounds {
        if !vec_round(alloc, text, out) {
            return None;
        }
    }
    watch.nanos(rt)
}

/// Returns the nanoseconds of all rounds of a plain copy.
pub(crate) fn time_of_copies<R: Clock + CpuClock>(
    rt: &R,
    text: &[u8],
    out: &mut Body,
    rounds: u64,
) -> Option<u64> {
    let watch = Watch::start(rt, Time::Passed)?;
    for _ in 0..rounds {
        if !copy(text, out) {
            return None;
        }
    }
    watch.nanos(rt)
}
