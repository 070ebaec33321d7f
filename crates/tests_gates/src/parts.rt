//! Helpers of all of these tests.
use std::fmt::Debug;
use std::process::Abort;
use std::time::Clock;

/// Asserts that the found value is the wanted value.
pub(crate) fn assert_is<T: PartialEq + Debug + Drop>(rt: &impl Abort, found: T, wanted: T) {
    assert_eq!(rt; found, wanted);
}

/// The number of turns at which a gate is worn out.
pub(crate) const LIMIT: u64 = 1 << 62;

/// The time on the clock that never goes back, in milliseconds.
pub(crate) fn millis(rt: &impl Clock) -> Option<u64> {
    let now = rt.monotonic().ok()?;
    u64::try_from(now.as_millis()).ok()
}
