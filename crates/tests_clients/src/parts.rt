//! Helpers of all of these tests.
use std::fmt::Debug;
use std::process::Abort;

/// Asserts that the found value is the wanted value.
pub(crate) fn assert_is<T: PartialEq + Debug + Drop>(rt: &impl Abort, found: T, wanted: T) {
    assert_eq!(rt; found, wanted);
}

/// Asserts that the found value is the wanted value. A failure says where it was found.
pub(crate) fn assert_at<T: PartialEq + Debug + Drop>(
    rt: &impl Abort,
    found: T,
    wanted: T,
    at: impl Debug + Drop,
) {
    assert_eq!(rt; found, wanted, "at {at:?}");
}
