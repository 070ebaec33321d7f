//! The gates of all objects.

use crate::object::SharedObject;
use std::alloc::Global;
use std::marker::Model;
use sysv_bank::Bank;
use sysv_gate::Closing;
use sysv_queue::QueueSlot;

/// The place of the registry in the bank.
pub(crate) const REGISTRY: usize = 0;

/// The place of the pool in the bank.
pub(crate) const POOL: usize = 1;

/// The place of slot 0 in the bank. The other slots follow it.
pub(crate) const FIRST_SLOT: usize = 2;

/// The slots of the queues, the registry and the pool, each behind a gate of its own. All turns at
/// all of them have one order. Threads share the gates by reference, and each thread takes turns
/// with seats of its own. A call on an identifier goes to the slot of that identifier, whether a
/// queue is live under it or not. Each call waits for its turn.
pub struct Gates {
    pub(crate) bank: Bank<SharedObject>,
    /// Space for the result of `close`, so that `close` allocates nothing.
    pub(crate) closings: Vec<Closing<QueueSlot>, Global>,
}

impl Model for Gates {
    ghost use Rattle.std.specs.Prelude.{◌≡◌, ◌+◌, ◌≤◌, [], length, vec_capacity};
    ghost use Rattle.sysv_keys.specs.declared.identifier.TheConstants.{SLOTS};
    ghost use Rattle.sysv_service.specs.Seats.{Gates as Seen};
    ghost use Rattle.sysv_service.specs.Banked.{gates_seen, AreByKind};

    ghost Value = { Seen };

    ghost view = { λ g. gates_seen g.bank };

    ghost invariant = { λ g. AreByKind g.bank × (length g.bank ≡ SLOTS + 2)
        × (g.closings.items ≡ []) × (SLOTS ≤ vec_capacity g.closings) };
}
