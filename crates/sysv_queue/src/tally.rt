//! The counts of messages that were taken, written and lost.

ghost use Rattle.std.specs.Prelude.{◌≡◌, ◌+◌, ◌-◌, ◌^◌, ◌<◌};
ghost use Rattle.sysv_queue.specs.Tally.{taken_in};

use std::marker::Model;

/// The number of messages that were taken, and how many of them were written to their receivers or
/// lost on the way (specific to this profile).
///
/// Contracts see the last two numbers. Their sum is the first.
#[derive(Clone, Copy, PartialEq, Eq, Debug)]
pub struct Tally {
    taken: u64,
    written: u64,
    lost: u64,
}

impl Model for Tally {
    ghost use Rattle.std.specs.Prelude.{◌≡◌, ◌+◌};
    ghost use Rattle.sysv_queue.specs.Tally.{Tallied, taken_in};

    ghost Value = { Tallied };

    ghost view = { λ t. record { written = t.written; lost = t.lost } };

    ghost invariant = { λ t. t.taken ≡ t.written + t.lost };

    ghost inverse = { λ t. record { taken = taken_in t; written = t.written; lost = t.lost } };
}

impl Tally {
    /// Creates a tally of no messages.
    pub fn open() -> Tally
        ensures { result ≡ record { written = 0; lost = 0 } }
    {
        Tally {
            taken: 0,
            written: 0,
            lost: 0,
        }
    }

    /// Returns the number of messages that were taken, which are those written and those lost.
    pub fn taken(&self) -> u64
        ensures { result ≡ taken_in self.now }
    {
        self.taken
    }

    /// Returns the number of messages that were written.
    pub fn written(&self) -> u64
        ensures { result ≡ self.now.written }
    {
        self.written
    }

    /// Returns the number of messages that were lost.
    pub fn lost(&self) -> u64
        ensures { result ≡ self.now.lost }
    {
        self.lost
    }

    /// Counts one more message that was written.
    pub(crate) fn add_written(&mut self)
        requires { taken_in self.old < 2 ^ 64 - 1 }
        ensures { self.new ≡ record self.old { written = self.old.written + 1 } }
    {
        self.taken += 1;
        self.written += 1;
    }

    /// Counts one more message that was lost.
    pub(crate) fn add_lost(&mut self)
        requires { taken_in self.old < 2 ^ 64 - 1 }
        ensures { self.new ≡ record self.old { lost = self.old.lost + 1 } }
    {
        self.taken += 1;
        self.lost += 1;
    }
}
