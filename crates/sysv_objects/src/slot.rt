//! Turns at a slot.

ghost use Rattle.std.specs.Prelude.{◌≡◌, ◌^◌, ◌<◌};
ghost use Rattle.sysv_objects.specs.SlotTurns.{SlotMoves, IsThere, MayRaise, slot_asked, chain_handed};
ghost use Rattle.sysv_keys.specs.declared.identifier.TheConstants.{SLOTS};

use crate::loaded::LoadedChain;
use sysv_keys::slot_of_id;
use sysv_model::{Cred, Errno, Flags, Row, Selector, SetTo, Stat};
use sysv_pool::Chain;
use sysv_queue::{Discarded, Look, PlaceRefused, Probe, QueueSlot, TakeRefused, Taken};

/// The requests to a slot. Each is the call of `QueueSlot` with the same name.
pub enum SlotCall {
    Install {
        id: i32,
        key: i32,
        cred: Cred,
        mode: u32,
        now: u64,
    },
    Probe {
        id: i32,
        cred: Cred,
        flags: Flags,
    },
    Look {
        id: i32,
        cred: Cred,
        size: usize,
    },
    Place {
        id: i32,
        cred: Cred,
        mtype: i64,
        loaded: LoadedChain,
        now: u64,
    },
    Take {
        id: i32,
        cred: Cred,
        selector: Selector,
        size: u32,
        noerror: bool,
        now: u64,
    },
    Stat {
        id: i32,
        cred: Cred,
    },
    Set {
        id: i32,
        cred: Cred,
        to: SetTo,
        now: u64,
    },
    Remove {
        id: i32,
        cred: Cred,
    },
    /// `QueueSlot::row`, at the slot with this number.
    Row {
        slot: usize,
    },
}

/// The replies of a slot: the results of `install`, `probe`, `look`, `place`, `take`, `stat`,
/// `set`, `remove` and `row`, in this order.
pub enum SlotReply {
    Installed(bool),
    Probed(Probe),
    Looked(Look),
    Placed(Result<u64, PlaceRefused>),
    Taken(Result<Taken, TakeRefused>),
    Told(Result<Stat, Errno>),
    Set(Result<(), Errno>),
    Removed(Result<Discarded, Errno>),
    Shown(Option<Row>),
}

impl SlotCall {
    /// Returns the number of the slot that the request goes to: the slot of its identifier, or the
    /// slot whose row it reads. It is below `SLOTS` unless the request reads the row of a slot that
    /// does not exist.
    pub fn slot(&self) -> usize
        ensures number { result ≡ slot_asked self.now }
        ensures within { IsThere self.now → result < SLOTS }
    {
        let id = match self {
            SlotCall::Install { id, .. } => *id,
            SlotCall::Probe { id, .. } => *id,
            SlotCall::Look { id, .. } => *id,
            SlotCall::Place { id, .. } => *id,
            SlotCall::Take { id, .. } => *id,
            SlotCall::Stat { id, .. } => *id,
            SlotCall::Set { id, .. } => *id,
            SlotCall::Remove { id, .. } => *id,
            SlotCall::Row { slot } => return *slot,
        };
        slot_of_id(id)
    }

    /// Returns the chain that the request hands over, or an empty chain if it hands over none.
    pub(crate) fn into_chain(self) -> Chain
        ensures { result ≡ chain_handed self }
    {
        match self {
            SlotCall::Place {
                id: _,
                cred: _,
                mtype: _,
                loaded,
                now: _,
            } => loaded.into_chain(),
            SlotCall::Install {
                id: _,
                key: _,
                cred: _,
                mode: _,
                now: _,
            }
            | SlotCall::Probe {
                id: _,
                cred: _,
                flags: _,
            }
            | SlotCall::Look {
                id: _,
                cred: _,
                size: _,
            }
            | SlotCall::Take {
                id: _,
                cred: _,
                selector: _,
                size: _,
                noerror: _,
                now: _,
            }
            | SlotCall::Stat { id: _, cred: _ }
            | SlotCall::Set {
                id: _,
                cred: _,
                to: _,
                now: _,
            }
            | SlotCall::Remove { id: _, cred: _ }
            | SlotCall::Row { slot: _ } => Chain::empty(),
        }
    }

    /// Makes the turn at this slot.
    ///
    /// # Conditions
    ///
    /// - If the turn may raise a count of the slot (a place, a take, a set or a removal), both
    ///   counts are below 2^63.
    #[inline(always)]
    pub fn make(self, slot: &mut QueueSlot) -> SlotReply
        requires arrived { MayRaise self → slot.old.arrived < 2 ^ 63 }
        requires freed { MayRaise self → slot.old.freed < 2 ^ 63 }
        ensures { SlotMoves slot.old self result slot.new }
    {
        match self {
            SlotCall::Install {
                id,
                key,
                cred,
                mode,
                now,
            } => SlotReply::Installed(slot.install(id, key, cred, mode, now)),
            SlotCall::Probe { id, cred, flags } => SlotReply::Probed(slot.probe(id, cred, flags)),
            SlotCall::Look { id, cred, size } => SlotReply::Looked(slot.look(id, cred, size)),
            SlotCall::Place {
                id,
                cred,
                mtype,
                loaded,
                now,
            } => {
                let size = loaded.size();
                SlotReply::Placed(slot.place(id, cred, mtype, loaded.into_chain(), size, now))
            }
            SlotCall::Take {
                id,
                cred,
                selector,
                size,
                noerror,
                now,
            } => SlotReply::Taken(slot.take(id, cred, selector, size, noerror, now)),
            SlotCall::Stat { id, cred } => SlotReply::Told(slot.stat(id, cred)),
            SlotCall::Set { id, cred, to, now } => SlotReply::Set(slot.set(id, cred, to, now)),
            SlotCall::Remove { id, cred } => SlotReply::Removed(slot.remove(id, cred)),
            SlotCall::Row { slot: _ } => SlotReply::Shown(slot.row()),
        }
    }
}
