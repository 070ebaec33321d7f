//! Helpers of the tests of sessions over a service: the service and a clock.
ghost use Rattle.std.specs.Prelude.{◌≡◌};
ghost use Rattle.sysv_service.specs.Seats.{AreOf};

use std::alloc::Global;
use std::fmt::Debug;
use std::process::Abort;
use sysv_pool::Pool;
use sysv_service::{Clock, Closed, OpenRefused, Pass, Service};

/// Asserts that the found value is the wanted value.
pub(crate) fn assert_is<T: PartialEq + Debug + Drop>(rt: &impl Abort, found: T, wanted: T) {
    assert_eq!(rt; found, wanted);
}

/// Asserts that the found value is the wanted value. A failure names the place.
pub(crate) fn assert_at<T: PartialEq + Debug + Drop>(
    rt: &impl Abort,
    found: T,
    wanted: T,
    place: usize,
) {
    assert_eq!(rt; found, wanted, "{place}");
}

/// Asserts that this holds.
pub(crate) fn assert_that(rt: &impl Abort, holds: bool) {
    assert!(rt; holds);
}

/// Opens a pool with this number of blocks. Tolerates one refusal of memory.
pub(crate) fn open_pool(rt: &impl Abort, alloc: Global, blocks: u32) -> Pool {
    tests_kit::open_pool(alloc, blocks).expect(rt, "a second try")
}

/// A clock that always returns the same time.
pub(crate) struct Still(pub(crate) u64);

impl Clock for Still {
    ghost may = { λ clock now. now ≡ clock.0 };

    fn now(&self) -> u64 {
        self.0
    }
}

pub(crate) const CLOCK: Still = Still(7);

/// Opens a service with this number of blocks, whose tickets begin at `first`. Tolerates one
/// refusal of memory.
pub(crate) fn opened(rt: &impl Abort, alloc: Global, blocks: u32, first: u64) -> (Service, Pass)
    ensures { AreOf result.0 result.1.seats }
{
    match Service::open_at(alloc, blocks, first, 0) {
        Ok(opened) => opened,
        Err(why) => {
            assert_is(rt, why, OpenRefused::NoMemory);
            match Service::open_at(alloc, blocks, first, 0) {
                Ok(opened) => opened,
                Err(why) => panic!(rt; "a second try: {why:?}"),
            }
        }
    }
}

/// Returns the result of a close at which this number of messages was queued, this number of blocks
/// is free, and no gate is held.
pub(crate) const fn closed(waiting: u64, free: u32) -> Closed {
    Closed {
        waiting,
        free,
        held: 0,
    }
}
