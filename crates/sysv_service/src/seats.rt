//! A seat at each gate.

ghost use Rattle.std.specs.Prelude.{◌≡◌};
ghost use Rattle.sysv_pool.specs.Chain.{counted};
ghost use Rattle.sysv_service.specs.BlocksMoved.{blocks_handed, blocks_returned};

use crate::object::SharedObject;
use std::marker::Model;
use sysv_bank::BankSeat;
use sysv_objects::{ObjectCall, ObjectReply, PoolCall, PoolReply};

/// The right of one thread to take turns at each slot, at the registry and at the pool. Seats work
/// only with the gates that they came from. They may move to another thread.
pub struct Seats {
    pub(crate) seat: BankSeat<SharedObject>,
    /// The number of blocks that turns of these seats reserved and did not release, modulo 2^64.
    pub(crate) in_use: u64,
}

impl Model for Seats {
    ghost use Rattle.sysv_bank.specs.Banks.{gates_of};
    ghost use Rattle.sysv_service.specs.Seats.{Seats as Seen};
    ghost use Rattle.sysv_service.specs.Banked.{seats_seen, AreByKind};

    ghost Value = { Seen };

    ghost view = { λ s. seats_seen s.seat };

    ghost invariant = { λ s. AreByKind (gates_of s.seat.seats) };
}

impl Seats {
    /// Counts the blocks of a turn: `handed` blocks were handed to the pool, and the reply may
    /// return some. If no turn was made, none moved.
    #[inline(always)]
    pub(crate) fn count_blocks(&mut self, handed: u32, made: &Result<ObjectReply, ObjectCall>)
        ensures { self.new ≡ self.old }
    {
        if let Ok(reply) = made {
            let more = u64::from(returned_by(reply)).wrapping_sub(u64::from(handed));
            self.in_use = self.in_use.wrapping_add(more);
        }
    }
}

/// Returns the number of blocks that a request hands to the pool.
#[inline(always)]
pub(crate) fn handed_by(call: &ObjectCall) -> u32
    ensures { result ≡ counted (blocks_handed call.now) }
{
    match call {
        ObjectCall::Pool(PoolCall::Release(chain)) => chain.blocks(),
        _ => 0,
    }
}

/// Returns the number of blocks that the pool returns with a reply: those of a chain that it
/// reserved, or of one that it did not take back.
#[inline(always)]
fn returned_by(reply: &ObjectReply) -> u32
    ensures { result ≡ counted (blocks_returned reply.now) }
{
    match reply {
        ObjectReply::Pool(PoolReply::Reserved(Some(chain)) | PoolReply::Released(Err(chain))) => {
            chain.blocks()
        }
        _ => 0,
    }
}
