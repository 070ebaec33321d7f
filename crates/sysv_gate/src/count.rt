//! The two counts of an object.
ghost use Rattle.std.specs.Prelude.{◌≡◌};
ghost use Rattle.sysv_gate.specs.Counts.{word_of};

use crate::table::words::{ARRIVED, FREED};

/// One of the two counts of an object.
#[derive(Clone, Copy)]
pub enum Count {
    /// The first count.
    Arrived,
    /// The second count.
    Freed,
}

impl Count {
    /// Returns the word where the count is announced.
    pub(crate) fn word(self) -> usize
        ensures { result ≡ word_of self }
    {
        match self {
            Count::Arrived => ARRIVED,
            Count::Freed => FREED,
        }
    }
}
