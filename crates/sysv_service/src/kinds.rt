//! The kinds of objects of one bank: the slots, the registry and the pool.

use sysv_keys::Registry;
use sysv_pool::Pool;
use sysv_queue::QueueSlot;

/// An object of one of three kinds.
pub enum Gated {
    /// A slot of a queue.
    Slot(QueueSlot),
    /// The registry of keys and identifiers.
    Registry(Registry),
    /// The pool of blocks.
    Pool(Pool),
}

impl Gated {
    /// Frees the object.
    pub(crate) fn end(self) {
        match self {
            Gated::Slot(slot) => {
                slot.end().end();
            }
            Gated::Registry(_registry) => {}
            Gated::Pool(pool) => pool.end(),
        }
    }
}
