//! A session over memory beside the calls that it makes: a msgsnd and a msgrcv of 64 bytes in turn,
//! by one pass of a service.
ghost use Rattle.sysv_seats.specs.HandlesKept.{KeepsHandles};

mod frames;

use crate::caller::Still;
use crate::service::time_of_pairs;
use bench_threads::figures::{show, show_ratio};
use bench_threads::watch::{Time, Watch, nanos_if};
use frames::{Replies, Requests};
use std::alloc::Global;
use std::io;
use std::sync::Wait;
use std::thread::Threads;
use std::time::{Clock, CpuClock};
use sysv_model::Instrumented;
use sysv_seats::ServiceHandler;
use sysv_service::Service;
use sysv_session::{End, Texts};

/// How many pairs are measured.
const PAIRS: u32 = 1_000_000;

/// Prints what a pair takes as two calls and by a session.
pub(crate) fn measure<R: Threads + Wait + Clock + CpuClock + Print + Sync>(
    rt: &R,
    alloc: Global,
) -> io::Result<()> {
    let what = "a msgsnd and a msgrcv of 64 bytes";
    let pairs = u64::from(PAIRS);
    let calls = time_of_pairs(rt, alloc, 1, 64, pairs);
    let session = time_of_session(rt, alloc, PAIRS);
    show(rt, what, "calls", calls, pairs, "ns")?;
    show(rt, what, "session", session, pairs, "ns")?;
    let what = "a session's time";
    let how = "by that of its calls";
    show_ratio(rt, what, how, session, calls, "(goal: at most 2)")
}

/// Returns the nanoseconds of a session with a few pairs.
pub(crate) fn once<R: Wait + Clock + CpuClock>(rt: &R, alloc: Global) -> Option<u64> {
    time_of_session(rt, alloc, 10)
}

/// Returns the nanoseconds of a session with this number of pairs.
fn time_of_session<R: Wait + Clock + CpuClock>(rt: &R, alloc: Global, pairs: u32) -> Option<u64> {
    let Ok(mut texts) = Texts::open(alloc) else {
        return None;
    };
    let Ok((service, pass)) = Service::open(alloc, 1024) else {
        return None;
    };
    let mut handler = ServiceHandler::new(rt, &service, &Still, pass);
    let nanos = time_by(rt, &mut handler, &mut texts, pairs);
    let pass = handler.into_pass();
    service.close(pass);
    nanos
}

/// Returns the nanoseconds of a session with this handler.
fn time_by<R: Wait + Clock + CpuClock>(
    rt: &R,
    handler: &mut ServiceHandler<'_, Still, R>,
    texts: &mut Texts,
    pairs: u32,
) -> Option<u64>
    ensures { KeepsHandles handler.old handler.new }
{
    let mut requests = Requests::new(pairs);
    let mut replies = Replies::default();
    let mut reader = Instrumented::new(&mut requests);
    let mut writer = Instrumented::new(&mut replies);
    let watch = Watch::start(rt, Time::Passed);
    let served = handler.serve_instrumented(texts, &mut reader, &mut writer);
    let nanos = nanos_if(rt, watch, served.end == End::Ended);
    if served.tally.written() == u64::from(pairs) {
        nanos
    } else {
        None
    }
}
