//! Calls that wait, as values.

ghost use Rattle.std.specs.Prelude.{◌≡◌, ◌<◌, List, ℕ};
ghost use Rattle.sysv_keys.specs.declared.identifier.TheConstants.{SLOTS};
ghost use Rattle.sysv_steps.specs.Resume.{awaited};
ghost use Rattle.sysv_seats.specs.Parked.{awaited_count, selector_in, wait_in, IsWithinSlots};

use sysv_keys::slot_of_id;
use sysv_model::Selector;
use sysv_service::{GetWait, ReceiveWait, SendWait};

/// A call that waits. It holds no blocks and no message, so a caller gives it up by dropping it.
#[derive(Clone, Copy, PartialEq, Eq)]
pub enum Waiting {
    /// A `msgsnd` that waits for room in its queue or for blocks.
    Send(SendWait),
    /// A `msgrcv` that waits for a message.
    Receive(ReceiveWait),
    /// A `msgget` that waits while another call creates or removes the queue of its key.
    Get(GetWait),
}

/// The count for which a call waits.
#[derive(Clone, Copy, PartialEq, Eq, Debug)]
pub enum Awaited {
    /// The arrived count of a slot: the call waits for a message.
    Arrived {
        /// The slot, below `sysv_keys::SLOTS`.
        slot: usize,
    },
    /// The freed count of a slot: the call waits for room in its queue.
    Freed {
        /// The slot, below `sysv_keys::SLOTS`.
        slot: usize,
    },
    /// The released count of the pool: the call waits for blocks.
    Released,
    /// The settled count of the registry: the call waits for the queue of its key.
    Settled,
}

impl Waiting {
    /// Returns the count for which the call waits.
    pub fn awaits(&self) -> Awaited
        ensures count { (text : List ℕ) → awaited_count result ≡ awaited (wait_in self.now text) }
        ensures within { IsWithinSlots result }
    {
        match *self {
            Waiting::Send(SendWait::Room { send, .. }) => Awaited::Freed {
                slot: slot_of_id(send.id),
            },
            Waiting::Send(SendWait::Blocks { .. }) => Awaited::Released,
            Waiting::Receive(wait) => Awaited::Arrived {
                slot: slot_of_id(wait.receive.id),
            },
            Waiting::Get(_) => Awaited::Settled,
        }
    }

    /// Returns which messages the call requests, or `None` if it is no receive.
    pub fn selector(&self) -> Option<Selector>
        ensures { result ≡ selector_in self.now }
    {
        match *self {
            Waiting::Send(_) | Waiting::Get(_) => None,
            Waiting::Receive(wait) => Some(wait.receive.selector),
        }
    }
}
