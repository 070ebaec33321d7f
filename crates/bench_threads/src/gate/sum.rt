//! The object that is measured: a sum with two counts.
ghost use Rattle.std.specs.Prelude.{◌≡◌, ◌+◌, ◌%◌, ◌^◌};

use sysv_gate::Object;

/// A sum to which each call adds one; the reply is the sum before.
#[derive(Drop)]
pub(crate) struct Sum {
    sum: u64,
    arrived: u64,
    freed: u64,
}

/// Which of the counts a call raises.
#[derive(Clone, Copy)]
pub(crate) enum Raise {
    Neither,
    Arrived,
    Freed,
}

impl Sum {
    pub(crate) fn new() -> Sum
        ensures { (result.arrived ≡ 0) × (result.freed ≡ 0) }
    {
        Sum {
            sum: 0,
            arrived: 0,
            freed: 0,
        }
    }

    /// Adds one, and returns the sum before.
    pub(crate) fn add(&mut self) -> u64
        ensures sum { (result ≡ self.old.sum) × (self.new.sum ≡ (self.old.sum + 1) % 2 ^ 64) }
        ensures counts { (self.new.arrived ≡ self.old.arrived) × (self.new.freed ≡ self.old.freed) }
    {
        let before = self.sum;
        self.sum = before.wrapping_add(1);
        before
    }
}

impl Object for Sum {
    type Call = Raise;

    type Reply = u64;

    ghost meaning = { λ before _ reply after. (reply ≡ before.sum)
        × (after.sum ≡ (before.sum + 1) % 2 ^ 64) };

    ghost counted = { λ s. (s.arrived, s.freed) };

    fn apply(&mut self, call: Raise) -> u64 {
        let before = self.add();
        match call {
            Raise::Neither => {}
            Raise::Arrived => self.arrived += 1,
            Raise::Freed => self.freed += 1,
        }
        before
    }

    fn counts(&self) -> (u64, u64) {
        (self.arrived, self.freed)
    }
}
