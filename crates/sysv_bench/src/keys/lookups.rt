//! Look-ups of a key among one key and among 64 keys.
use crate::keys::calls::CREATING;
use crate::keys::{Act, time_of};
use bench_threads::figures::{show, show_ratio};
use bench_threads::watch::{Time, Watch, nanos_if};
use std::alloc::Global;
use std::io;
use std::time::{Clock, CpuClock};
use sysv_keys::{Begun, Registry};

/// How often a key is looked up.
const TIMES: u64 = 10_000_000;

/// How many keys have a row in the second measurement.
const MOST: i32 = 64;

/// How often the two are measured in turn.
const REPEATS: u32 = 3;

/// Gives each key a row. Returns whether each key has one.
fn fill(registry: &mut Registry, keys: i32) -> bool {
    for key in 0..keys {
        let Begun::Made { id } = registry.begin(key.wrapping_mul(7919).wrapping_add(1), CREATING)
        else {
            return false;
        };
        registry.settle(id);
    }
    true
}

/// Gives each key a row and looks the keys up in turn. Returns `None` if a key got no row or was not
/// found.
pub(crate) fn look_up<R: Clock + CpuClock>(
    rt: &R,
    registry: &mut Registry,
    keys: i32,
    times: u64,
) -> Option<u64> {
    if !fill(registry, keys) {
        return None;
    }
    let watch = Watch::start(rt, Time::Processor);
    let mut found: u64 = 0;
    let mut key: i32 = 0;
    for _ in 0..times {
        key = if key.wrapping_add(1) < keys {
            key.wrapping_add(1)
        } else {
            0
        };
        if let Begun::Found { .. } = registry.begin(
            key.wrapping_mul(7919).wrapping_add(1),
            CREATING,
        ) {
            found = found.wrapping_add(1);
        }
    }
    nanos_if(rt, watch, found == times)
}

/// Prints what a look-up takes among one key and among all, and the ratio.
pub(crate) fn measure<R: Clock + CpuClock + Print>(rt: &R, alloc: Global) -> io::Result<()> {
    for _ in 0..REPEATS {
        measure_in_turn(rt, alloc)?;
    }
    Ok(())
}

fn measure_in_turn<R: Clock + CpuClock + Print>(rt: &R, alloc: Global) -> io::Result<()> {
    let one = time_of(rt, alloc, Act::LookUp(1), TIMES);
    let all = time_of(rt, alloc, Act::LookUp(MOST), TIMES);
    show(rt, "a look-up", "among 1 key", one, TIMES, "ns")?;
    show(rt, "a look-up", "among 64 keys", all, TIMES, "ns")?;
    let how = "among 64 keys beside 1";
    show_ratio(rt, "a look-up", how, all, one, "times as long")
}
