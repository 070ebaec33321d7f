//! An object that adds.
ghost use Rattle.std.specs.Prelude.{◌≡◌, ◌+◌, ◌%◌, ◌^◌, ◌≤◌, ◌<◌};

use sysv_gate::Object;

/// Each call adds a number to the sum, and returns the sum before. The first count rises at odd
/// numbers, and the second at even numbers.
#[derive(Drop)]
pub(crate) struct Sum {
    pub(crate) sum: u64,
    odd: u64,
    even: u64,
}

impl Sum {
    /// Creates an object with this sum.
    pub(crate) fn new(sum: u64) -> Sum
        ensures { (result.odd ≡ 0) × (result.even ≡ 0) }
    {
        Sum {
            sum,
            odd: 0,
            even: 0,
        }
    }
}

impl Object for Sum {
    type Call = u8;

    type Reply = u64;

    ghost meaning = { λ before call reply after. (reply ≡ before.sum)
        × (after.sum ≡ (before.sum + call) % 2 ^ 64) };

    ghost counted = { λ s. (s.odd, s.even) };

    fn apply(&mut self, call: u8) -> u64 {
        let before = self.sum;
        self.sum = before.wrapping_add(u64::from(call));
        if call % 2 == 1 {
            self.odd += 1;
        } else {
            self.even += 1;
        }
        before
    }

    fn counts(&self) -> (u64, u64) {
        (self.odd, self.even)
    }
}
