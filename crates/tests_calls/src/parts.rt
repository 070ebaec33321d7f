//! Helpers of all of these tests.
use std::alloc::Global;
use std::fmt::Debug;
use std::process::Abort;
use sysv_model::Body;

/// Asserts that the found value is the wanted value.
pub(crate) fn assert_is<T: PartialEq + Debug + Drop>(rt: &impl Abort, found: T, wanted: T) {
    assert_eq!(rt; found, wanted);
}

/// Asserts that this is true.
pub(crate) fn assert_that(rt: &impl Abort, holds: bool) {
    assert!(rt; holds);
}

/// Opens a body. Tolerates one refusal of memory.
pub(crate) fn open_body(rt: &impl Abort, alloc: Global) -> Body {
    tests_kit::open_body(alloc).expect(rt, "a second try")
}
