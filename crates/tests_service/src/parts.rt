//! Helpers of all of these tests: a service, a clock, and bodies.
ghost use Rattle.std.specs.Prelude.{◌≡◌, []};
ghost use Rattle.sysv_service.specs.Seats.{AreOf};

use std::alloc::Global;
use std::fmt::Debug;
use std::process::Abort;
use sysv_model::{Body, Flags};
use sysv_service::{Clock, Closed, OpenRefused, Pass, Service};
use tests_kit::flags;

/// Asserts that the found value is the wanted value.
pub(crate) fn assert_is<T: PartialEq + Debug + Drop>(rt: &impl Abort, found: T, wanted: T) {
    assert_eq!(rt; found, wanted);
}

/// A clock that always returns the same time.
pub(crate) struct Still(pub(crate) u64);

impl Clock for Still {
    ghost may = { λ clock now. now ≡ clock.0 };

    fn now(&self) -> u64 {
        self.0
    }
}

pub(crate) const CLOCK: Still = Still(7);

/// Opens a service with this number of blocks, whose tickets begin at `first`. Tolerates one
/// refusal of memory.
pub(crate) fn opened(rt: &impl Abort, alloc: Global, blocks: u32, first: u64) -> (Service, Pass)
    ensures { AreOf result.0 result.1.seats }
{
    opened_at(rt, alloc, blocks, first, 0)
}

/// Opens a service like `opened`, with all identifiers beginning at this generation.
pub(crate) fn opened_at(
    rt: &impl Abort,
    alloc: Global,
    blocks: u32,
    first: u64,
    generation: u32,
) -> (Service, Pass)
    ensures { AreOf result.0 result.1.seats }
{
    match Service::open_at(alloc, blocks, first, generation) {
        Ok(opened) => opened,
        Err(why) => {
            assert_eq!(rt; why, OpenRefused::NoMemory);
            match Service::open_at(alloc, blocks, first, generation) {
                Ok(opened) => opened,
                Err(why) => panic!(rt; "a second try: {why:?}"),
            }
        }
    }
}

/// Returns the result of a close at which this number of messages was queued, this number of blocks
/// is free, and no gate is held.
pub(crate) const fn closed(waiting: u64, free: u32) -> Closed {
    Closed {
        waiting,
        free,
        held: 0,
    }
}

/// No flags: a send and a receive wait.
pub(crate) fn waiting() -> Flags {
    flags(0)
}

/// Returns an empty body. Tolerates one refusal of memory.
pub(crate) fn empty_body(rt: &impl Abort, alloc: Global) -> Body
    ensures { result ≡ [] }
{
    tests_kit::open_body(alloc).expect(rt, "a second try")
}

/// Returns a body with these bytes.
pub(crate) fn body_of(rt: &impl Abort, alloc: Global, text: &[u8]) -> Body {
    let mut body = empty_body(rt, alloc);
    assert!(rt; body.push_piece(text));
    body
}
