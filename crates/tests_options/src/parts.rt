//! Helpers of all of these tests.
use std::fmt::Debug;
use std::process::Abort;

/// Asserts that the found value is the wanted value.
pub(crate) fn assert_is<T: PartialEq + Debug + Drop>(rt: &impl Abort, found: T, wanted: T) {
    assert_eq!(rt; found, wanted);
}

/// Asserts that this holds.
pub(crate) fn assert_that(rt: &impl Abort, holds: bool) {
    assert!(rt; holds);
}
