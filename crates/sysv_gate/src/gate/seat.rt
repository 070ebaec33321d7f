//! The seats of gates.
ghost use Rattle.sysv_gate.specs.History.{Moves};
ghost use Rattle.sysv_gate.specs.Held.{IsTokenOf};

use crate::object::Object;
use crate::table::TableToken;
use std::marker::Model;
use std::snapshot::Snapshot;

/// What is fixed when a gate is opened: the object, for proofs only, and the first ticket.
pub(crate) struct Key<O> {
    pub(crate) opening: Snapshot<O>,
    pub(crate) first: u64,
}

impl<O> Drop for Key<O> {
    fn drop(self) {
        let Key {
            opening: _,
            first: _,
        } = self;
    }
}

/// The right of one thread to take turns at one gate, and what that thread knows of the history
/// there. It works only with the gate that it came from. It may move to another thread.
pub struct Seat<O: Object> {
    pub(crate) token: TableToken<O>,
    pub(crate) key: Snapshot<Key<O>>,
}

impl<O: Object> Model for Seat<O> {
    ghost use Rattle.sysv_gate.specs.Gates.{Holding};

    ghost Value = { Holding O O.Call O.Reply };

    ghost use Rattle.sysv_gate.specs.Held.{held, IsAtRest};
    ghost use Rattle.sysv_gate.specs.History.{Moves};

    ghost view = { held };

    ghost invariant = { IsAtRest (Moves O.meaning O.counted) };
}

impl<O: Object> Drop for Seat<O> {
    fn drop(self) {
        let Seat { token: _, key: _ } = self;
    }
}

impl<O: Object> Seat<O> {
    pub(crate) fn into_token(self) -> TableToken<O>
        ensures { IsTokenOf (Moves O.meaning O.counted) self result }
    {
        let Seat { token, key: _ } = self;
        token
    }
}
