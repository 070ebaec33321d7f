//! The slots, the registry and the pool, as objects behind gates.

ghost use Rattle.std.specs.Prelude.{◌≡◌};
ghost use Rattle.sysv_service.specs.Gated.{GatedMoves, Stands, gated_counts, Accepts};

use crate::kinds::Gated;
use std::marker::Model;
use sysv_gate::Object;
use sysv_objects::{ObjectCall, ObjectReply};

/// An object behind a gate, which represents some history. It stays of its kind, and accepts only
/// the calls of its kind. It cannot be dropped; end it with `into_kind`.
pub struct SharedObject {
    object: Gated,
}

impl Model for SharedObject {
    ghost use Rattle.sysv_service.specs.declared.kinds.Gated.{Gated as Seen};
    ghost use Rattle.sysv_service.specs.Gated.{Stands};

    ghost Value = { Seen };

    ghost view = { λ s. s.object };

    ghost invariant = { λ s. Stands s.object };
}

impl SharedObject {
    /// Makes the object behind a gate.
    ///
    /// # Conditions
    ///
    /// - `object` represents some history.
    pub fn of(object: Gated) -> SharedObject
        requires { Stands object }
        ensures { result ≡ object }
    {
        SharedObject { object }
    }

    /// Returns the object alone.
    pub fn into_kind(self) -> Gated
        ensures { result ≡ self }
    {
        let SharedObject { object } = self;
        object
    }
}

impl Object for SharedObject {
    type Call = ObjectCall;

    type Reply = ObjectReply;

    ghost meaning = { GatedMoves };

    ghost counted = { gated_counts };

    ghost accepts = { Accepts };

    #[inline(always)]
    fn apply(&mut self, call: ObjectCall) -> ObjectReply {
        match &mut self.object {
            Gated::Slot(slot) => {
                let ObjectCall::Slot(call) = call else {
                    unreachable!()
                };
                ObjectReply::Slot(call.make(slot))
            }
            Gated::Registry(registry) => {
                let ObjectCall::Registry(call) = call else {
                    unreachable!()
                };
                ObjectReply::Registry(call.make(registry))
            }
            Gated::Pool(pool) => {
                let ObjectCall::Pool(call) = call else {
                    unreachable!()
                };
                ObjectReply::Pool(call.make(pool))
            }
        }
    }

    fn counts(&self) -> (u64, u64) {
        match &self.object {
            Gated::Slot(slot) => slot.counts(),
            Gated::Registry(registry) => (registry.settled(), 0),
            Gated::Pool(pool) => (pool.released(), 0),
        }
    }
}
