//! Sharing the gates among threads: splitting and joining seats, and closing the gates.

ghost use Rattle.std.specs.Prelude.{◌≡◌, length, IfSome, option_map, Some};
ghost use Rattle.sysv_keys.specs.declared.identifier.TheConstants.{SLOTS};
ghost use Rattle.sysv_service.specs.declared.kinds.Gated.{Gated as Seen};
ghost use Rattle.sysv_service.specs.ObjectKinds.{IsClosingBy};
ghost use Rattle.sysv_service.specs.Gated.{IsSlot, IsRegistry, IsPool, slot_in, registry_in, pool_in};
ghost use Rattle.sysv_service.specs.Seats.{AreOf};
ghost use Rattle.sysv_service.specs.Sharing.{AreSplit, AreJoined, AllClose};

use crate::gates::Gates;
use crate::kinds::Gated;
use crate::object::SharedObject;
use crate::opening::GatesClosed;
use crate::seats::Seats;
use sysv_gate::Closing;
use sysv_keys::{Registry, SLOTS};
use sysv_pool::Pool;
use sysv_queue::QueueSlot;

impl Gates {
    /// Returns new seats, which may move to another thread. Each has seen what the seat at the same
    /// object has seen, and has made none of these turns.
    ///
    /// # Conditions
    ///
    /// - `seats` are seats of these gates.
    pub fn split(&self, seats: &mut Seats) -> Seats
        requires { AreOf self.now seats.old }
        ensures seats { AreOf self.now seats.new }
        ensures other { AreOf self.now result × AreSplit seats.old seats.new result }
    {
        let seat = self.bank.split_off(&mut seats.seat);
        Seats { seat, in_use: 0 }
    }

    /// Merges `other` into `seats`, object by object: what both have seen, and the turns of both.
    ///
    /// # Conditions
    ///
    /// - `seats` and `other` are seats of these gates.
    pub fn join(&self, seats: &mut Seats, other: Seats)
        requires seats { AreOf self.now seats.old }
        requires other { AreOf self.now other }
        ensures seats { AreOf self.now seats.new }
        ensures joined { AreJoined seats.old other seats.new }
    {
        let Seats { seat, in_use } = other;
        self.bank.join(&mut seats.seat, seat);
        seats.in_use = seats.in_use.wrapping_add(in_use);
    }

    /// Closes the gates. Returns, for each slot in the order of the numbers, for the registry and
    /// for the pool, the object and the number of turns at its gate. An object is missing if its
    /// gate is held by a turn that did not end; none is missing if `seats` have the whole service.
    /// It allocates nothing.
    ///
    /// # Conditions
    ///
    /// - `seats` are seats of these gates.
    pub fn close(self, seats: Seats) -> GatesClosed
        requires { AreOf self seats }
        ensures closed { AllClose seats result }
        ensures count { length result.slots.items ≡ SLOTS }
    {
        let Gates {
            bank,
            closings: mut slots,
        } = self;
        let Seats { seat, in_use: _ } = seats;
        let mut closings = bank.close(seat);
        for _ in 0..SLOTS {
            let Some(closing) = closings.pop() else {
                unreachable!()
            };
            slots.push_reserved(closing_of(closing));
        }
        slots.reverse();
        let Some(pool) = closings.pop() else {
            unreachable!()
        };
        let Some(registry) = closings.pop() else {
            unreachable!()
        };
        closings.destroy_empty();
        GatesClosed {
            slots,
            registry: closing_of(registry),
            pool: closing_of(pool),
        }
    }
}

/// An object of one kind, which a gate of the service holds.
trait OfKind: Sized {
    /// Whether an object is of this kind.
    ghost is: { Seen → Type 0 };

    /// An object of this kind, as one of it.
    ghost seen_as: { Seen → Self };

    /// Returns the object if it is of this kind. Any other object is freed.
    fn of(object: SharedObject) -> Option<Self>
        ensures { is object → result ≡ Some (seen_as object) };
}

impl OfKind for QueueSlot {
    ghost is = { IsSlot };

    ghost seen_as = { slot_in };

    fn of(object: SharedObject) -> Option<QueueSlot> {
        match object.into_kind() {
            Gated::Slot(slot) => Some(slot),
            other => {
                other.end();
                None
            }
        }
    }
}

impl OfKind for Registry {
    ghost is = { IsRegistry };

    ghost seen_as = { registry_in };

    fn of(object: SharedObject) -> Option<Registry> {
        match object.into_kind() {
            Gated::Registry(registry) => Some(registry),
            other => {
                other.end();
                None
            }
        }
    }
}

impl OfKind for Pool {
    ghost is = { IsPool };

    ghost seen_as = { pool_in };

    fn of(object: SharedObject) -> Option<Pool> {
        match object.into_kind() {
            Gated::Pool(pool) => Some(pool),
            other => {
                other.end();
                None
            }
        }
    }
}

/// Returns what a closed gate holds, as an object of its kind.
fn closing_of<O: OfKind>(closing: Closing<SharedObject>) -> Closing<O>
    ensures { IfSome closing.object O.is → IsClosingBy O.seen_as closing result }
{
    let Closing {
        object,
        rest,
        turns,
        next_ticket,
    } = closing;
    Closing {
        object: kept(object),
        rest: kept(rest),
        turns,
        next_ticket,
    }
}

/// Returns the object, if there is one and it is of this kind. Any other object is freed.
fn kept<O: OfKind>(object: Option<SharedObject>) -> Option<O>
    ensures { IfSome object O.is → result ≡ option_map O.seen_as object }
{
    O::of(object?)
}
