//! A turn at any of the objects.

ghost use Rattle.std.specs.Prelude.{◌≡◌, IfOk, IfErr, OnErr};
ghost use Rattle.sysv_model.specs.Turn.{Ask, Op};
ghost use Rattle.sysv_objects.specs.Turns.{chain_asked, ask_of_call, IsOfSomeSlot, Takes};

use crate::pool::{PoolCall, PoolReply};
use crate::registry::{RegistryCall, RegistryReply};
use crate::slot::{SlotCall, SlotReply};
use sysv_pool::Chain;

/// The request of one step of a call, and the kind of object that it goes to.
pub enum ObjectCall {
    Slot(SlotCall),
    Registry(RegistryCall),
    Pool(PoolCall),
}

/// The reply of an object of the same kind.
pub enum ObjectReply {
    Slot(SlotReply),
    Registry(RegistryReply),
    Pool(PoolReply),
}

impl ObjectCall {
    /// Returns the chain that the request hands over, or an empty chain if it hands over none.
    pub fn into_chain(self) -> Chain
        ensures { result ≡ chain_asked self }
    {
        match self {
            ObjectCall::Slot(call) => call.into_chain(),
            ObjectCall::Registry(_) => Chain::empty(),
            ObjectCall::Pool(PoolCall::Release(chain)) => chain,
            ObjectCall::Pool(PoolCall::Reserve(_)) => Chain::empty(),
        }
    }
}

/// A way to make the turns of calls: at the objects themselves, or with a seat at their gates.
pub trait Turns {
    /// What a turn changes.
    type At;

    /// When a turn may be requested.
    ghost ready: { Self → Self.At → Type 0 };

    /// What holds after each turn.
    ghost stays: { Self → Self.At → Type 0 };

    /// Which turns are made.
    ghost takes: { Self.At → Op → Self.At → Type 0 };

    /// What holds if no turn was made because a gate is worn out.
    ghost misses: { Self.At → Ask → Self.At → Type 0 };

    /// Makes one turn.
    ///
    /// # Errors
    ///
    /// - The request, unchanged, if a gate is worn out. A turn may be requested again.
    ///
    /// # Conditions
    ///
    /// - A turn may be requested (`ready`).
    /// - A request for a row goes to a slot that exists.
    fn make(&self, at: &mut Self::At, call: ObjectCall) -> Result<ObjectReply, ObjectCall>
        requires ready { ready self.now at.old }
        requires there { IsOfSomeSlot call }
        ensures stays { stays self.now at.new }
        ensures again { OnErr result (ready self.now at.new) }
        ensures ok { IfOk result (λ reply. Takes takes at.old call reply at.new) }
        ensures missed { IfErr result (λ back. (back ≡ call)
            × misses at.old (ask_of_call call) at.new) };
}
