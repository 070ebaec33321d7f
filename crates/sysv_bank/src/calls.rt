//! The calls at the places of a bank.
ghost use Rattle.std.specs.Prelude.{◌≡◌, ◌<◌, length, IfOk, IfErr, OnOk, OnErr, false};
ghost use Rattle.sysv_gate.specs.History.{Moves};
ghost use Rattle.sysv_gate.specs.Gates.{Answers, Learns, read_to, marked};
ghost use Rattle.sysv_gate.specs.Refusals.{Refuses};
ghost use Rattle.sysv_gate.specs.Waits.{Waited};
ghost use Rattle.sysv_bank.specs.Banks.{gates_of, ChangesAt, AcceptsAt};
ghost use Rattle.sysv_bank.specs.Passes.{GoesOn, AddsToOrder, KnowsItsReads};

use crate::bank::Bank;
use crate::seat::BankSeat;
use std::sync::Wait;
use sysv_gate::{Awaited, Count, Object, TryRefused, Worn};

impl<O: Object> Bank<O> {
    /// Makes the call at `place` in a turn of the seat's own, like `Gate::call`. Afterwards the
    /// turn is the last one in the order that the seat has seen, and the seat has read at most one
    /// more of any count at any place than that count has after this order.
    ///
    /// # Errors
    ///
    /// - `Worn` only if the tickets of the place have reached 2^62. The error holds the call, and
    ///   every later call at this place with this seat fails with `Worn` too.
    ///
    /// # Conditions
    ///
    /// - `seat` is a seat of this bank, and `place` is below the number of its objects.
    /// - Every object to which legal turns lead from the first one at the place accepts the call.
    #[inline(always)]
    pub fn call(
        &self,
        rt: &impl Wait,
        place: usize,
        seat: &mut BankSeat<O>,
        call: O::Call,
    ) -> Result<O::Reply, Worn<O::Call>>
        requires seat { gates_of seat.old.seats ≡ self.now }
        requires place { place < length self.now }
        requires fits { AcceptsAt (Moves O.meaning O.counted) O.accepts place self.now call }
        ensures gates { gates_of seat.new.seats ≡ self.now }
        ensures order { OnOk result (AddsToOrder place seat.old seat.new) }
        ensures reads { OnOk result (KnowsItsReads (Moves O.meaning O.counted) O.counted seat.new) }
        ensures longer { OnErr result (GoesOn seat.old seat.new) }
        ensures ok { IfOk result (λ r. ChangesAt place seat.old.seats seat.new.seats
            (λ before after. Answers (Moves O.meaning O.counted) O.counted before call r after
            × (before.worn ≡ false))) }
        ensures worn { IfErr result (λ w. (w.call ≡ call)
            × ChangesAt place seat.old.seats seat.new.seats
            (λ before after. after ≡ marked before)) }
    {
        self.locks[place].call(rt, &self.table, &mut seat.token, call)
    }

    /// Makes the call at `place` if no other seat holds a ticket there, like `Gate::try_call`. It
    /// never waits and wakes no thread.
    ///
    /// # Errors
    ///
    /// The error holds the call, and no turn is made.
    ///
    /// - `Busy` if another seat holds a ticket of the place or draws one first.
    /// - `Worn` only if the tickets of the place have reached 2^62.
    ///
    /// # Conditions
    ///
    /// - `seat` is a seat of this bank, and `place` is below the number of its objects.
    /// - Every object to which legal turns lead from the first one at the place accepts the call.
    pub fn try_call(
        &self,
        place: usize,
        seat: &mut BankSeat<O>,
        call: O::Call,
    ) -> Result<O::Reply, TryRefused<O::Call>>
        requires seat { gates_of seat.old.seats ≡ self.now }
        requires place { place < length self.now }
        requires fits { AcceptsAt (Moves O.meaning O.counted) O.accepts place self.now call }
        ensures gates { gates_of seat.new.seats ≡ self.now }
        ensures order { OnOk result (AddsToOrder place seat.old seat.new) }
        ensures reads { OnOk result (KnowsItsReads (Moves O.meaning O.counted) O.counted seat.new) }
        ensures longer { OnErr result (GoesOn seat.old seat.new) }
        ensures ok { IfOk result (λ r. ChangesAt place seat.old.seats seat.new.seats
            (λ before after. Answers (Moves O.meaning O.counted) O.counted before call r after
            × (before.worn ≡ false))) }
        ensures err { IfErr result (λ e. ChangesAt place seat.old.seats seat.new.seats
            (λ before after. Refuses (Moves O.meaning O.counted) before call e after)) }
    {
        self.locks[place].try_call(&self.table, &mut seat.token, call)
    }

    /// Wakes every thread that waits at `place`, like `Gate::wake`.
    ///
    /// # Conditions
    ///
    /// - `place` is below the number of the bank's objects.
    pub fn wake(&self, rt: &impl Wait, place: usize)
        requires { place < length self.now }
    {
        self.locks[place].wake(rt);
    }

    /// Returns a count of the object at `place`, like `Gate::arrived` for the first count and
    /// `Gate::freed` for the second.
    ///
    /// # Conditions
    ///
    /// - `seat` is a seat of this bank, and `place` is below the number of its objects.
    pub fn count(&self, place: usize, seat: &mut BankSeat<O>, count: Count) -> u64
        requires seat { gates_of seat.old.seats ≡ self.now }
        requires place { place < length self.now }
        ensures gates { gates_of seat.new.seats ≡ self.now }
        ensures longer { GoesOn seat.old seat.new }
        ensures read { ChangesAt place seat.old.seats seat.new.seats
            (λ before after. (after ≡ read_to count result before)
            × Learns O.counted count before result) }
    {
        self.locks[place].count(&self.table, &mut seat.token, count)
    }

    /// Waits until a count at `place` is at least `goal`, like `Gate::await_arrived` for the first
    /// count and `Gate::await_freed` for the second.
    ///
    /// # Conditions
    ///
    /// - `seat` is a seat of this bank, and `place` is below the number of its objects.
    pub fn await_count(
        &self,
        rt: &impl Wait,
        place: usize,
        seat: &mut BankSeat<O>,
        count: Count,
        goal: u64,
    ) -> Awaited
        requires seat { gates_of seat.old.seats ≡ self.now }
        requires place { place < length self.now }
        ensures gates { gates_of seat.new.seats ≡ self.now }
        ensures longer { GoesOn seat.old seat.new }
        ensures waited { ChangesAt place seat.old.seats seat.new.seats
            (λ before after. Waited O.counted count goal before result after) }
    {
        self.locks[place].await_count(rt, &self.table, &mut seat.token, count, goal)
    }
}
