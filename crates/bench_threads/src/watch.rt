//! Measuring time.
use std::io;
use std::time::{Clock, CpuClock, Duration, Instant};

/// The kind of time that a watch measures.
#[derive(Clone, Copy)]
pub enum Time {
    /// The time that passes.
    Passed,
    /// The processor time of all threads.
    Processor,
}

/// A clock that was started.
#[derive(Clone, Copy)]
pub struct Watch {
    time: Time,
    begun: Instant,
    used: Duration,
}

impl Watch {
    /// Starts a watch. Returns `None` if the system returns no time.
    pub fn start<R: Clock + CpuClock>(rt: &R, time: Time) -> Option<Watch> {
        let used = rt.process_cpu_time().ok()?;
        let begun = Instant::now(rt).ok()?;
        Some(Watch { time, begun, used })
    }

    /// Returns the nanoseconds since the start, at most `u64::MAX`.
    pub fn nanos<R: Clock + CpuClock>(&self, rt: &R) -> Option<u64> {
        let since = match self.time {
            Time::Passed => self.passed(rt),
            Time::Processor => self.used(rt),
        };
        Some(u64::try_from(since.ok()?.as_nanos()).unwrap_or(u64::MAX))
    }

    fn passed(&self, rt: &impl Clock) -> io::Result<Duration> {
        self.begun.elapsed(rt)
    }

    fn used(&self, rt: &impl CpuClock) -> io::Result<Duration> {
        Ok(rt.process_cpu_time()?.saturating_sub(self.used))
    }
}

/// Returns the nanoseconds since the start of a watch. Returns `None` if the watch was not started,
/// or if what it timed was not done.
pub fn nanos_if<R: Clock + CpuClock>(rt: &R, watch: Option<Watch>, done: bool) -> Option<u64> {
    match watch {
        Some(watch) if done => watch.nanos(rt),
        _ => None,
    }
}
