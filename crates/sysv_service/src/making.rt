//! The turns at the gates.

ghost use Rattle.std.specs.Prelude.{◌≡◌, ◌<◌, ◌+◌, IfOk, IfErr};
ghost use Rattle.sysv_keys.specs.declared.identifier.TheConstants.{SLOTS};
ghost use Rattle.sysv_objects.specs.Turns.{ask_of_call, IsOfSomeSlot, Takes};
ghost use Rattle.sysv_service.specs.Gated.{place_of as the_place_of};
ghost use Rattle.sysv_service.specs.Seats.{AreOf, MakesTurnAt, FindsWorn};

use crate::gates::{FIRST_SLOT, Gates, POOL, REGISTRY};
use crate::seats::{Seats, handed_by};
use std::sync::Wait;
use sysv_gate::Worn;
use sysv_objects::{ObjectCall, ObjectReply, Turns};

impl Gates {
    /// Makes the turn of `call` at its object, and returns the object's reply.
    ///
    /// # Errors
    ///
    /// - The call is handed back only if the gate of its object is worn out, that is, its tickets
    ///   have reached 2^62. No turn is made.
    ///
    /// # Conditions
    ///
    /// - `seats` are seats of these gates.
    /// - If `call` reads the row of a slot, the number of that slot is below 256.
    #[inline(always)]
    pub fn make(
        &self,
        rt: &impl Wait,
        seats: &mut Seats,
        call: ObjectCall,
    ) -> Result<ObjectReply, ObjectCall>
        requires seats { AreOf self.now seats.old }
        requires there { IsOfSomeSlot call }
        ensures seats { AreOf self.now seats.new }
        ensures ok { IfOk result (λ reply. Takes MakesTurnAt seats.old call reply seats.new) }
        ensures worn { IfErr result (λ back. (back ≡ call)
            × FindsWorn seats.old (ask_of_call call) seats.new) }
    {
        let place = place_of(&call);
        match self.bank.call(rt, place, &mut seats.seat, call) {
            Ok(reply) => Ok(reply),
            Err(Worn { call }) => Err(call),
        }
    }
}

/// Returns the place in the bank of the object that is called.
fn place_of(call: &ObjectCall) -> usize
    requires { IsOfSomeSlot call.now }
    ensures place { result ≡ the_place_of call.now }
    ensures within { result < SLOTS + 2 }
{
    match call {
        ObjectCall::Slot(call) => call.slot() + FIRST_SLOT,
        ObjectCall::Registry(_) => REGISTRY,
        ObjectCall::Pool(_) => POOL,
    }
}

/// The gates, for a caller that may wait. They make turns with the caller's seats, which count the
/// blocks that are reserved and released.
#[derive(Clone, Copy)]
pub struct AtGates<'a, R: Wait> {
    rt: &'a R,
    gates: &'a Gates,
}

impl<'a, R: Wait> AtGates<'a, R> {
    /// Returns a handle for these gates.
    pub fn of(rt: &'a R, gates: &'a Gates) -> AtGates<'a, R>
        ensures { result.gates.now ≡ gates.now }
    {
        AtGates { rt, gates }
    }
}

impl<'a, R: Wait> Turns for AtGates<'a, R> {
    type At = Seats;

    ghost ready = { λ by seats. AreOf by.gates.now seats };

    ghost stays = { λ by seats. AreOf by.gates.now seats };

    ghost takes = { MakesTurnAt };

    ghost misses = { FindsWorn };

    #[inline(always)]
    fn make(&self, seats: &mut Seats, call: ObjectCall) -> Result<ObjectReply, ObjectCall> {
        if !matches!(&call, ObjectCall::Pool(_)) {
            return self.gates.make(self.rt, seats, call);
        }
        let handed = handed_by(&call);
        let made = self.gates.make(self.rt, seats, call);
        seats.count_blocks(handed, &made);
        made
    }
}
