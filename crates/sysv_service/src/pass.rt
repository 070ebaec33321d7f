//! The passes of a service.

ghost use Rattle.std.specs.Prelude.{◌≡◌, ◌+◌};

use crate::Seats;
use std::marker::Model;
use std::mem;
use sysv_pool::Chain;

/// The right of one thread to call a service. It has a seat at each object. It works only with the
/// service that it came from. It may move to another thread. A pass can be neither dropped nor
/// copied; end it with `Service::join_pass` or `Service::close`.
pub struct Pass {
    pub(crate) seats: Seats,
    /// The chains that could not be returned to the pool, as one chain.
    pub(crate) held: Chain,
}

impl Model for Pass {
    ghost use Rattle.sysv_service.specs.Ran.{Pass as Seen};

    ghost Value = { Seen };

    ghost view = { λ p. record { seats = p.seats; held = p.held.blocks } };
}

impl Pass {
    /// Keeps a chain that could not be returned to the pool.
    pub(crate) fn hold(&mut self, chain: Chain)
        ensures { self.new ≡ record self.old { held = self.old.held + chain.blocks } }
    {
        let held = mem::replace(&mut self.held, Chain::empty());
        let empty = mem::replace(&mut self.held, held.join(chain));
        empty.end();
    }

    /// Returns the number of blocks that calls with this pass reserved and did not release, modulo
    /// 2^64. A message that another pass receives stays counted here, and its release is subtracted
    /// there: the numbers of all passes of a service add up to the number of blocks in use.
    ///
    /// A new pass starts at 0, and `Service::join_pass` adds the number of the other pass. A chain
    /// that the pass keeps is in use.
    pub fn blocks_in_use(&self) -> u64 {
        self.seats.in_use
    }

    /// Returns the seats, and the chains that could not be returned to the pool, as one chain.
    pub(crate) fn into_seats(self) -> (Seats, Chain)
        ensures { (result.0 ≡ self.seats) × (result.1.blocks ≡ self.held) }
    {
        let Pass { seats, held } = self;
        (seats, held)
    }
}
