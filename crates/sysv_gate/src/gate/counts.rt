//! Reading the counts of a gate's object, and waiting for them.
ghost use Rattle.std.specs.Prelude.{◌≡◌};
ghost use Rattle.sysv_gate.specs.Gates.{read_to, Learns};
ghost use Rattle.sysv_gate.specs.Waits.{Waited};
ghost use Rattle.sysv_gate.specs.declared.count.Count.TheVariants.{Arrived, Freed};

use crate::awaited::Awaited;
use crate::count::Count;
use crate::gate::Gate;
use crate::gate::seat::Seat;
use crate::object::Object;
use std::sync::Wait;

impl<O: Object> Gate<O> {
    /// Returns the first count of the object, as announced now. It is at least what the seat has
    /// read before, and at least the count after all turns that the seat has seen. The call takes
    /// no turn and never waits.
    ///
    /// # Conditions
    ///
    /// - `seat` is a seat of this gate.
    pub fn arrived(&self, seat: &mut Seat<O>) -> u64
        requires { seat.old.gate ≡ self.now }
        ensures gate { seat.new.gate ≡ self.now }
        ensures seat { seat.new ≡ read_to Arrived result seat.old }
        ensures learned { Learns O.counted Arrived seat.old result }
    {
        self.count(seat, Count::Arrived)
    }

    /// Returns the second count of the object, like `arrived` for the first count.
    ///
    /// # Conditions
    ///
    /// - `seat` is a seat of this gate.
    pub fn freed(&self, seat: &mut Seat<O>) -> u64
        requires { seat.old.gate ≡ self.now }
        ensures gate { seat.new.gate ≡ self.now }
        ensures seat { seat.new ≡ read_to Freed result seat.old }
        ensures learned { Learns O.counted Freed seat.old result }
    {
        self.count(seat, Count::Freed)
    }

    /// Waits until the first count is at least `goal`, and returns `Reached` with the count. It
    /// spins first, and then sleeps.
    ///
    /// Returns `Worn` only if the count that was read last is below `goal` and the tickets have
    /// reached 2^62. The seat is then marked as worn. Turns that hold a ticket at that time can
    /// still raise the count.
    ///
    /// # Conditions
    ///
    /// - `seat` is a seat of this gate.
    pub fn await_arrived(&self, rt: &impl Wait, seat: &mut Seat<O>, goal: u64) -> Awaited
        requires { seat.old.gate ≡ self.now }
        ensures gate { seat.new.gate ≡ self.now }
        ensures waited { Waited O.counted Arrived goal seat.old result seat.new }
    {
        self.await_count(rt, seat, Count::Arrived, goal)
    }

    /// Waits until the second count is at least `goal`, like `await_arrived` for the first count.
    ///
    /// # Conditions
    ///
    /// - `seat` is a seat of this gate.
    pub fn await_freed(&self, rt: &impl Wait, seat: &mut Seat<O>, goal: u64) -> Awaited
        requires { seat.old.gate ≡ self.now }
        ensures gate { seat.new.gate ≡ self.now }
        ensures waited { Waited O.counted Freed goal seat.old result seat.new }
    {
        self.await_count(rt, seat, Count::Freed, goal)
    }

    /// Reads the count.
    fn count(&self, seat: &mut Seat<O>, count: Count) -> u64
        requires { seat.old.gate ≡ self.now }
        ensures gate { seat.new.gate ≡ self.now }
        ensures seat { seat.new ≡ read_to count result seat.old }
        ensures learned { Learns O.counted count seat.old result }
    {
        self.lock.count(&self.table, &mut seat.token, count)
    }

    /// Waits until the count is at least the goal.
    fn await_count(&self, rt: &impl Wait, seat: &mut Seat<O>, count: Count, goal: u64) -> Awaited
        requires { seat.old.gate ≡ self.now }
        ensures gate { seat.new.gate ≡ self.now }
        ensures waited { Waited O.counted count goal seat.old result seat.new }
    {
        self.lock
            .await_count(rt, &self.table, &mut seat.token, count, goal)
    }
}
