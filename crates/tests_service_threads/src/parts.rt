//! Helpers of all of these tests: a service, and bodies.
ghost use Rattle.std.specs.Prelude.{◌≡◌, []};
ghost use Rattle.sysv_service.specs.Seats.{AreOf};

use std::alloc::Global;
use std::fmt::Debug;
use std::process::Abort;
use sysv_model::Body;
use sysv_service::{Closed, OpenRefused, Pass, Service};

/// Asserts that the found value is the wanted value.
pub(crate) fn assert_is<T: PartialEq + Debug + Drop>(rt: &impl Abort, found: T, wanted: T) {
    assert_eq!(rt; found, wanted);
}

/// Opens a service with this number of blocks, whose tickets begin at `first`. Tolerates one
/// refusal of memory.
pub(crate) fn opened(rt: &impl Abort, alloc: Global, blocks: u32, first: u64) -> (Service, Pass)
    ensures { AreOf result.0 result.1.seats }
{
    match Service::open_at(alloc, blocks, first, 0) {
        Ok(opened) => opened,
        Err(why) => {
            assert_is(rt, why, OpenRefused::NoMemory);
            match Service::open_at(alloc, blocks, first, 0) {
                Ok(opened) => opened,
                Err(why) => panic!(rt; "a second try: {why:?}"),
            }
        }
    }
}

/// Returns the result of a close at which this number of messages was queued, this number of blocks
/// is free, and no gate is held.
pub(crate) const fn closed(waiting: u64, free: u32) -> Closed {
    Closed {
        waiting,
        free,
        held: 0,
    }
}

/// Returns an empty body. Tolerates one refusal of memory.
pub(crate) fn empty_body(rt: &impl Abort, alloc: Global) -> Body
    ensures { result ≡ [] }
{
    tests_kit::open_body(alloc).expect(rt, "a second try")
}

/// Returns a body with these bytes.
pub(crate) fn body_of(rt: &impl Abort, alloc: Global, text: &[u8]) -> Body {
    let mut body = empty_body(rt, alloc);
    assert!(rt; body.push_piece(text));
    body
}
