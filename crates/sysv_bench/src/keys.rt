//! The registry of keys: how its time grows with the number of calls, and with the number of keys
//! that have a row.
mod calls;
mod lookups;

use calls::come_and_go_often;
use lookups::look_up;
use std::alloc::Global;
use std::io;
use std::time::{Clock, CpuClock};
use sysv_keys::Registry;

/// What is done with a registry.
#[derive(Clone, Copy)]
enum Act {
    /// The queue of this key is made, settled and forgotten.
    ComeAndGo(i32),
    /// Keys are looked up among this number of keys.
    LookUp(i32),
}

/// Returns the nanoseconds of doing this `times` times with a new registry.
fn time_of<R: Clock + CpuClock>(rt: &R, alloc: Global, act: Act, times: u64) -> Option<u64> {
    let Ok(mut registry) = Registry::open(alloc) else {
        return None;
    };
    match act {
        Act::ComeAndGo(key) => come_and_go_often(rt, &mut registry, key, times),
        Act::LookUp(keys) => look_up(rt, &mut registry, keys, times),
    }
}

/// Prints the time of making, settling and forgetting the queue of a key, and the time of a
/// look-up.
pub(crate) fn measure<R: Clock + CpuClock + Print>(rt: &R, alloc: Global) -> io::Result<()> {
    calls::measure(rt, alloc)?;
    lookups::measure(rt, alloc)
}

/// Returns the nanoseconds of a few look-ups.
pub(crate) fn once<R: Clock + CpuClock>(rt: &R, alloc: Global) -> Option<u64> {
    time_of(rt, alloc, Act::LookUp(2), 100)
}
