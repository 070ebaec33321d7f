//! A seat together with its eventcount.
ghost use Rattle.std.specs.Prelude.{◌≡◌};

use std::sync::Wait;
use sysv_eventcount::{Eventcount, Seat};

/// A seat, with the eventcount that it belongs to.
#[derive(Drop)]
pub(crate) struct Place<'a> {
    count: &'a Eventcount,
    seat: Seat,
    ghost fits: { seat.counter ≡ count.now },
}

impl<'a> Place<'a> {
    pub(crate) fn new(count: &'a Eventcount, seat: Seat) -> Place<'a>
        requires { seat.counter ≡ count.now }
    {
        Place { count, seat }
    }

    /// Returns a second place at the same eventcount.
    pub(crate) fn split(&mut self) -> Option<Place<'a>> {
        let Ok(seat) = self.count.split(&mut self.seat) else {
            return None;
        };
        Some(Place::new(self.count, seat))
    }

    pub(crate) fn advance(&mut self) {
        let _ = self.count.advance(&mut self.seat);
    }

    pub(crate) fn wake(&self, rt: &impl Wait) {
        self.count.wake(rt);
    }

    pub(crate) fn read(&mut self) {
        self.count.read(&mut self.seat);
    }

    pub(crate) fn hear(&mut self, rt: &impl Wait, goal: u64) {
        self.count.await_at_least(rt, &mut self.seat, goal);
    }
}
