//! A seat together with its eventcount.
ghost use Rattle.std.specs.Prelude.{◌≡◌};

use sysv_eventcount::{Awaited, Eventcount, Seat};

/// The number of looks after which a wait gives up.
const LOOKS: u64 = 10_000_000;

/// A seat, with the eventcount that it belongs to.
#[derive(Drop)]
pub(crate) struct Place<'a> {
    count: &'a Eventcount,
    seat: Seat,
    ghost fits: { seat.counter ≡ count.now },
}

impl<'a> Place<'a> {
    pub(crate) fn new(count: &'a Eventcount, seat: Seat) -> Place<'a>
        requires { seat.counter ≡ count.now }
    {
        Place { count, seat }
    }

    /// Returns a second place at the same eventcount.
    pub(crate) fn split(&mut self) -> Option<Place<'a>> {
        let Ok(seat) = self.count.split(&mut self.seat) else {
            return None;
        };
        Some(Place::new(self.count, seat))
    }

    pub(crate) fn say(&mut self) {
        let _ = self.count.advance(&mut self.seat);
    }

    /// Returns whether the count reached `goal` before the wait gave up.
    pub(crate) fn hears(&mut self, goal: u64) -> bool {
        matches!(
            self.count.await_turns(&mut self.seat, goal, LOOKS),
            Awaited::Reached(_)
        )
    }
}
