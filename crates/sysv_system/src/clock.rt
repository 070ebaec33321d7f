//! Clocks.
use libc::types::timespec;
use libc::{CLOCK_MONOTONIC, CLOCK_REALTIME, clock_gettime};

const MILLIS_PER_SECOND: u64 = 1000;

const NANOS_PER_MILLI: i64 = 1_000_000;

/// The beginning of a clock.
const BEGINNING: timespec = timespec {
    tv_sec: 0,
    tv_nsec: 0,
};

/// Returns the number of milliseconds since some start. The time in which the system is suspended
/// does not count.
pub fn present_millis() -> u64 {
    let mut time = BEGINNING;
    clock_gettime(CLOCK_MONOTONIC, &mut time);
    let seconds = u64::try_from(time.tv_sec).unwrap_or(0);
    let millis = u64::try_from(time.tv_nsec / NANOS_PER_MILLI).unwrap_or(0);
    seconds
        .saturating_mul(MILLIS_PER_SECOND)
        .saturating_add(millis)
}

/// Returns the number of seconds since 1970, or 0 if the clock is set before that.
pub fn present_seconds() -> u64 {
    let mut time = BEGINNING;
    clock_gettime(CLOCK_REALTIME, &mut time);
    u64::try_from(time.tv_sec).unwrap_or(0)
}
