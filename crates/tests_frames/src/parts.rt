//! Helpers of all of these tests.
use std::alloc::Global;
use std::fmt::Debug;
use std::process::Abort;
use sysv_model::Body;

/// Asserts that the found value is the wanted value.
pub(crate) fn assert_is<T: PartialEq + Debug + Drop>(rt: &impl Abort, found: T, wanted: T) {
    assert_eq!(rt; found, wanted);
}

/// Asserts that the found value is the wanted value. A failure says where it was found.
pub(crate) fn assert_at<T: PartialEq + Debug + Drop>(
    rt: &impl Abort,
    found: T,
    wanted: T,
    at: impl Debug + Drop,
) {
    assert_eq!(rt; found, wanted, "at {at:?}");
}

/// Opens a body. Tolerates one refusal of memory.
pub(crate) fn open_body(rt: &impl Abort, alloc: Global) -> Body {
    tests_kit::open_body(alloc).expect(rt, "a second try")
}

/// Asserts that the body has these bytes.
pub(crate) fn assert_holds(rt: &impl Abort, body: &Body, text: &[u8]) {
    assert_eq!(rt; body.len(), text.len());
    for i in 0..body.len() {
        assert_at(rt, body.byte(i), text[i], i);
    }
}
