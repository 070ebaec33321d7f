//! An entry of the index: a queued message's type and place.

ghost use Rattle.std.specs.Prelude.{◌↔◌, IsTrue};
ghost use Rattle.sysv_messages.specs.Entries.{IsBefore};

/// A queued message as the index knows it.
#[derive(Clone, Copy, PartialEq, Eq, Debug)]
pub struct Entry {
    /// The message's type, which may be any number.
    pub mtype: i64,
    /// The message's acceptance number. No other message of the queue has it.
    pub number: u64,
    /// Where the caller keeps the message. The index does not use it.
    pub place: usize,
}

impl Entry {
    /// Returns whether this entry's type is lower, or the types are equal and its number is lower.
    pub(crate) fn is_before(&self, other: &Entry) -> bool
        ensures { IsTrue result ↔ IsBefore self.now other.now }
    {
        self.mtype < other.mtype || (self.mtype == other.mtype && self.number < other.number)
    }
}
