//! The receipt of a message that was taken.

ghost use Rattle.std.specs.Prelude.{◌≡◌, ◌+◌, ◌-◌, ◌^◌, ◌<◌};
ghost use Rattle.sysv_queue.specs.Tally.{taken_in};

use crate::tally::Tally;
use std::marker::Model;

/// The result of a receive, without the bytes of the body (POSIX.1-2017, `msgrcv`).
///
/// A delivery can be neither dropped nor copied. Spend it with `written` or `lost`, so that each
/// message taken is counted once.
pub struct Delivery {
    pub(crate) mtype: i64,
    pub(crate) len: usize,
    pub(crate) sender: u32,
    pub(crate) number: u64,
}

impl Model for Delivery {
    ghost use Rattle.sysv_queue.specs.Delivery.{Given};

    ghost Value = { Given };

    ghost view = { λ d.
        record { mtype = d.mtype; len = d.len; sender = d.sender; number = d.number } };
}

impl Delivery {
    /// Returns the message's type.
    pub fn mtype(&self) -> i64
        ensures { result ≡ self.now.mtype }
    {
        self.mtype
    }

    /// Returns the number of bytes that the receive delivered, 0 to 8,192.
    pub fn len(&self) -> usize
        ensures { result ≡ self.now.len }
    {
        self.len
    }

    /// Returns the process that sent the message.
    pub fn sender(&self) -> u32
        ensures { result ≡ self.now.sender }
    {
        self.sender
    }

    /// Returns the message's acceptance number.
    pub fn number(&self) -> u64
        ensures { result ≡ self.now.number }
    {
        self.number
    }

    /// Counts the message as written to its receiver.
    ///
    /// # Conditions
    ///
    /// - The tally has counted fewer than 2^64 - 1 messages.
    pub fn written(self, tally: &mut Tally)
        requires { taken_in tally.old < 2 ^ 64 - 1 }
        ensures { tally.new ≡ record tally.old { written = tally.old.written + 1 } }
    {
        let Delivery {
            mtype: _,
            len: _,
            sender: _,
            number: _,
        } = self;
        tally.add_written();
    }

    /// Counts the message as lost on the way to its receiver.
    ///
    /// # Conditions
    ///
    /// - The tally has counted fewer than 2^64 - 1 messages.
    pub fn lost(self, tally: &mut Tally)
        requires { taken_in tally.old < 2 ^ 64 - 1 }
        ensures { tally.new ≡ record tally.old { lost = tally.old.lost + 1 } }
    {
        let Delivery {
            mtype: _,
            len: _,
            sender: _,
            number: _,
        } = self;
        tally.add_lost();
    }
}
