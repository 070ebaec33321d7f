//! Gates.
ghost use Rattle.std.specs.Prelude.{◌≡◌, ◌^◌, ◌≤◌, false, IfOk, IfErr, OnOk};
ghost use Rattle.sysv_gate.specs.History.{Moves, IsAccepted, AreUpTo};
ghost use Rattle.sysv_gate.specs.Gates.{opened, marked, parted, Answers, IsSplit, Joins};
ghost use Rattle.sysv_gate.specs.Refusals.{HandsBack, Refuses};
ghost use Rattle.sysv_gate.specs.Closings.{Closes};
ghost use Rattle.sysv_gate.specs.declared.refusals.OpenRefused.TheVariants.{NoMemory};

pub(crate) mod closing;
pub(crate) mod counts;
pub(crate) mod seat;

use crate::gate::closing::Closing;
use crate::gate::seat::{Key, Seat};
use crate::lock::PlaceLock;
use crate::object::Object;
use crate::refusals::{OpenRefused, TryRefused, Worn};
use crate::table::PlaceTable;
use crate::table::close::close_place;
use crate::table::laying::lay_one;
use crate::table::passes::{join_pass, split_pass};
use crate::table::words::LIMIT;
use std::alloc::Global;
use std::marker::Model;
use std::snapshot::Snapshot;
use std::sync::Wait;

/// An object that threads call one turn at a time. Threads share the gate by reference, and each
/// thread takes turns with a seat of its own.
pub struct Gate<O: Object> {
    /// The table, which has one place.
    pub(crate) table: PlaceTable<O>,
    key: Key<O>,
    pub(crate) lock: PlaceLock<O>,
}

impl<O: Object> Model for Gate<O> {
    ghost use Rattle.sysv_gate.specs.Gates.{Gateway};
    ghost use Rattle.sysv_gate.specs.Opened.{gateway, IsOpen};

    ghost Value = { Gateway O };

    ghost view = { gateway };

    ghost invariant = { IsOpen };
}

impl<O: Object> Gate<O> {
    /// Opens a gate around `object`, with tickets from 0 on. Returns it with its first seat.
    ///
    /// # Errors
    ///
    /// - `NoMemory` if memory is refused. The error holds the object.
    ///
    /// # Conditions
    ///
    /// - Both counts of `object` are at most 2^61.
    pub fn open(alloc: Global, object: O) -> Result<(Gate<O>, Seat<O>), OpenRefused<O>>
        requires { AreUpTo (2 ^ 61) (O.counted object) }
        ensures ok { IfOk result (λ o. (o.0.opening ≡ object) × (o.0.first ≡ 0)
            × (o.1 ≡ opened o.0)) }
        ensures err { IfErr result (λ e. e ≡ NoMemory object) }
    {
        Gate::starting_at(alloc, object, 0)
    }

    /// Opens a gate around `object`, with tickets from `first` on. Returns it with its first seat.
    ///
    /// # Errors
    ///
    /// The error holds the object.
    ///
    /// - `BadStart` if and only if `first` is above 2^62.
    /// - `NoMemory` if memory is refused.
    ///
    /// # Conditions
    ///
    /// - Both counts of `object` are at most 2^61.
    pub fn starting_at(
        alloc: Global,
        object: O,
        first: u64,
    ) -> Result<(Gate<O>, Seat<O>), OpenRefused<O>>
        requires { AreUpTo (2 ^ 61) (O.counted object) }
        ensures ok { IfOk result (λ o. (o.0.opening ≡ object) × (o.0.first ≡ first)
            × (o.1 ≡ opened o.0) × (first ≤ 2 ^ 62)) }
        ensures err { IfErr result (λ e. HandsBack first object e) }
    {
        if first > LIMIT {
            return Err(OpenRefused::BadStart(object));
        }
        let key = Key {
            opening: Snapshot::of(&object),
            first,
        };
        match lay_one(alloc, object, first) {
            Ok((table, token, lock)) => {
                let seat = Seat {
                    token,
                    key: Snapshot::of(&key),
                };
                Ok((Gate { table, key, lock }, seat))
            }
            Err(object) => Err(OpenRefused::NoMemory(object)),
        }
    }

    /// Makes the call in a turn of the seat's own, and returns the object's reply. It waits until
    /// the seat's ticket is served: it spins first, and then sleeps. Afterwards the turn is the
    /// last one in the history that the seat has seen.
    ///
    /// # Errors
    ///
    /// - `Worn` only if the tickets have reached 2^62. This call does not touch the object, the
    ///   error holds the call, and every later call with this seat fails with `Worn` too.
    ///
    /// # Conditions
    ///
    /// - `seat` is a seat of this gate.
    /// - Every object to which legal turns lead from the first one accepts the call
    ///   (`Object::accepts`).
    pub fn call(
        &self,
        rt: &impl Wait,
        seat: &mut Seat<O>,
        call: O::Call,
    ) -> Result<O::Reply, Worn<O::Call>>
        requires gate { seat.old.gate ≡ self.now }
        requires fits { IsAccepted (Moves O.meaning O.counted) O.accepts self.now.opening call }
        ensures gate { seat.new.gate ≡ self.now }
        ensures ok { IfOk result (λ r. Answers (Moves O.meaning O.counted) O.counted seat.old call r
            seat.new) }
        ensures not_worn { OnOk result (seat.old.worn ≡ false) }
        ensures worn { IfErr result (λ w. (w.call ≡ call) × (seat.new ≡ marked seat.old)) }
    {
        self.lock.call(rt, &self.table, &mut seat.token, call)
    }

    /// Makes the call if no other seat holds a ticket, and returns the object's reply. It never
    /// waits and wakes no thread: call `wake` afterwards if threads may be waiting.
    ///
    /// # Errors
    ///
    /// This call does not touch the object, and the error holds the call.
    ///
    /// - `Busy` if another seat holds a ticket or draws one first.
    /// - `Worn` only if the tickets have reached 2^62. Every later call with this seat fails with
    ///   `Worn` too.
    ///
    /// # Conditions
    ///
    /// - `seat` is a seat of this gate.
    /// - Every object to which legal turns lead from the first one accepts the call
    ///   (`Object::accepts`).
    pub fn try_call(
        &self,
        seat: &mut Seat<O>,
        call: O::Call,
    ) -> Result<O::Reply, TryRefused<O::Call>>
        requires gate { seat.old.gate ≡ self.now }
        requires fits { IsAccepted (Moves O.meaning O.counted) O.accepts self.now.opening call }
        ensures gate { seat.new.gate ≡ self.now }
        ensures ok { IfOk result (λ r. Answers (Moves O.meaning O.counted) O.counted seat.old call r
            seat.new) }
        ensures not_worn { OnOk result (seat.old.worn ≡ false) }
        ensures err { IfErr result (λ e. Refuses (Moves O.meaning O.counted) seat.old call e
            seat.new) }
    {
        self.lock.try_call(&self.table, &mut seat.token, call)
    }

    /// Wakes every thread that waits for its turn or for a count. A thread whose ticket is not
    /// served, or whose goal is not reached, sleeps again.
    pub fn wake(&self, rt: &impl Wait) {
        self.lock.wake(rt);
    }

    /// Returns a new seat, which may move to another thread. It has a number of its own, has seen
    /// what `seat` has seen, and has made none of the turns in that history. Afterwards neither of
    /// the two seats is alone.
    ///
    /// # Conditions
    ///
    /// - `seat` is a seat of this gate.
    pub fn split(&self, seat: &mut Seat<O>) -> Seat<O>
        requires { seat.old.gate ≡ self.now }
        ensures gate { result.gate ≡ self.now }
        ensures same { seat.new ≡ parted seat.old }
        ensures new { IsSplit seat.old result }
    {
        let token = split_pass(&self.table, &mut seat.token);
        Seat {
            token,
            key: Snapshot::of(&self.key),
        }
    }

    /// Merges `other` into `seat`. Afterwards `seat` has seen a history that begins with what
    /// either seat had seen, and has the turns of both.
    ///
    /// # Conditions
    ///
    /// - `seat` and `other` are seats of this gate.
    pub fn join(&self, seat: &mut Seat<O>, other: Seat<O>)
        requires seat { seat.old.gate ≡ self.now }
        requires other { other.gate ≡ self.now }
        ensures gate { seat.new.gate ≡ self.now }
        ensures joined { Joins (Moves O.meaning O.counted) seat.old other seat.new }
    {
        join_pass(&self.table, &mut seat.token, other.into_token());
    }

    /// Closes the gate. Returns the object and the number of all turns.
    ///
    /// The object is missing if a thread stopped between the draw of its ticket and the end of its
    /// turn. If no other seat was ever split off from `seat`, the object is always returned.
    ///
    /// # Conditions
    ///
    /// - `seat` is a seat of this gate.
    pub fn close(self, seat: Seat<O>) -> Closing<O>
        requires { seat.gate ≡ self }
        ensures { Closes (Moves O.meaning O.counted) seat result }
    {
        let Gate {
            table,
            key,
            lock: _,
        } = self;
        let mut closed = table.close_with(seat.into_token());
        let closing = close_place(&mut closed, 0, key.first);
        closed.free();
        closing
    }
}
