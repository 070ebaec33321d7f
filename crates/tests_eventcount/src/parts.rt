//! Helpers of all of these tests.
use std::fmt::Debug;
use std::process::Abort;

/// Asserts that the found value is the wanted value.
pub(crate) fn assert_is<T: PartialEq + Debug + Drop>(rt: &impl Abort, found: T, wanted: T) {
    assert_eq!(rt; found, wanted);
}

/// The number of advances or of tickets at which an object is worn out.
pub(crate) const LIMIT: u64 = 1 << 62;
