//! Helpers of all of these tests.
use std::alloc::Global;
use std::fmt::Debug;
use std::process::Abort;
use sysv_model::Body;
use sysv_pool::Pool;

/// Asserts that the found value is the wanted value.
pub(crate) fn assert_is<T: PartialEq + Debug + Drop>(rt: &impl Abort, found: T, wanted: T) {
    assert_eq!(rt; found, wanted);
}

/// Opens a body. Tolerates one refusal of memory.
pub(crate) fn open_body(rt: &impl Abort, alloc: Global) -> Body {
    tests_kit::open_body(alloc).expect(rt, "a second try")
}

/// Opens a pool with this number of blocks. Tolerates one refusal of memory.
pub(crate) fn open_pool(rt: &impl Abort, alloc: Global, blocks: u32) -> Pool {
    tests_kit::open_pool(alloc, blocks).expect(rt, "a second try")
}

/// Asserts that the body has these bytes.
pub(crate) fn assert_holds(rt: &impl Abort, body: &Body, text: &[u8]) {
    assert_is(rt, body.len(), text.len());
    for (i, byte) in text.iter().enumerate() {
        assert_is(rt, (i, byte_at(body, i)), (i, Some(*byte)));
    }
}

fn byte_at(body: &Body, i: usize) -> Option<u8> {
    if i < body.len() {
        Some(body.byte(i))
    } else {
        None
    }
}
