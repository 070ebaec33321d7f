//! Sequencers.
ghost use Rattle.std.specs.Prelude.{◌≡◌, ◌^◌, ◌<◌, IfOk, OnOk, OnErr};
ghost use Rattle.sysv_eventcount.specs.Counter.{added, Learns, MeetsWear};
ghost use Rattle.sysv_lists.specs.Numbers.{NoneTwice};

use crate::refusals::Worn;
use crate::seat::Seat;
use crate::word::Word;

/// The kind of a word that issues tickets.
pub struct Tickets;

/// Issues the numbers from its first value on, each once. Threads share it by reference, and each
/// thread draws with a seat of its own.
pub type Sequencer = Word<Tickets>;

impl Word<Tickets> {
    /// Draws the next ticket: the first value plus the number of tickets drawn before it. No other
    /// call returns the same ticket.
    ///
    /// # Errors
    ///
    /// - `Worn` only if the next ticket has reached 2^62. No ticket is drawn, and every later draw
    ///   with this seat fails too.
    ///
    /// # Conditions
    ///
    /// - `seat` is a seat of this sequencer.
    pub fn ticket(&self, seat: &mut Seat) -> Result<u64, Worn>
        requires { seat.old.counter ≡ self.now }
        ensures ok { IfOk result (λ n. seat.new ≡ added n seat.old) }
        ensures learned { IfOk result (λ n. Learns seat.old n) }
        ensures once { IfOk result (λ _. NoneTwice seat.new.own) }
        ensures not_worn { OnOk result (seat.old.seen < 2 ^ 62) }
        ensures worn { OnErr result (MeetsWear seat.old seat.new) }
        ensures same { seat.new.counter ≡ seat.old.counter }
    {
        self.add(seat)
    }
}
