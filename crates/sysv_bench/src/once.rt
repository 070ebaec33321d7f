//! Each measurement once, with the smallest sizes. This takes a second at most, and prints nothing
//! that depends on time.
use crate::{keys, pool, service, session, wire};
use bench_threads::{buffer, eventcount, gate};
use std::alloc::Global;
use std::io;
use std::sync::Wait;
use std::thread::Threads;
use std::time::{Clock, CpuClock};

/// Prints for each measurement whether its steps succeeded.
pub(crate) fn measure<R: Threads + Wait + Clock + CpuClock + Print + Sync>(
    rt: &R,
    alloc: Global,
) -> io::Result<()> {
    tell(rt, "eventcount", eventcount::once(rt, alloc))?;
    tell(rt, "buffer", buffer::once(rt, alloc))?;
    tell(rt, "gate", gate::once(rt, alloc))?;
    tell(rt, "pool", pool::once(rt, alloc))?;
    tell(rt, "keys", keys::once(rt, alloc))?;
    tell(rt, "wire", wire::once(rt, alloc))?;
    tell(rt, "session", session::once(rt, alloc))?;
    tell(rt, "service", service::once(rt, alloc))
}

fn tell(rt: &impl Print, name: &str, nanos: Option<u64>) -> io::Result<()> {
    match nanos {
        Some(_) => println!(rt; "{name}: measured"),
        None => println!(rt; "{name}: failed"),
    }
}
