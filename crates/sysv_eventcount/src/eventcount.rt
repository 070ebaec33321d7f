//! Eventcounts.
ghost use Rattle.std.specs.Prelude.{◌≡◌, ◌-◌, ◌^◌, ◌<◌, ◌≤◌, IfOk, OnOk, OnErr};
ghost use Rattle.sysv_eventcount.specs.Counter.{saw, added, Learns, MeetsWear};
ghost use Rattle.sysv_eventcount.specs.Waits.{value_of, Tells};

use crate::awaited::Awaited;
use crate::refusals::Worn;
use crate::seat::Seat;
use crate::word::Word;
use std::sync::Wait;
use std::{hint, thread};

/// The number of looks before a wait sleeps, and the number of looks of a bounded wait that spin
/// before it yields to other threads. They take some microseconds, in which another running thread
/// can advance the count.
const SPINS: u64 = 256;

/// The kind of a word that is advanced, read and waited for.
pub struct Advances;

/// A number that only rises. Threads share it by reference, and each thread uses a seat of its own.
pub type Eventcount = Word<Advances>;

impl Word<Advances> {
    /// Returns the current value. The value is at least the greatest value that the seat has seen,
    /// and it counts every addition made with the seat. An addition of another seat that is in
    /// progress may or may not be counted.
    ///
    /// # Conditions
    ///
    /// - `seat` is a seat of this eventcount.
    pub fn read(&self, seat: &mut Seat) -> u64
        requires { seat.old.counter ≡ self.now }
        ensures seat { seat.new ≡ saw result seat.old }
        ensures learned { Learns seat.old result }
    {
        self.look(seat)
    }

    /// Adds one and returns the value that this addition made. It wakes no thread: call `wake`
    /// afterwards if threads may sleep on the count.
    ///
    /// # Errors
    ///
    /// - `Worn` only if the value has reached 2^62. Nothing is added, and every later advance with
    ///   this seat fails too.
    ///
    /// # Conditions
    ///
    /// - `seat` is a seat of this eventcount.
    pub fn advance(&self, seat: &mut Seat) -> Result<u64, Worn>
        requires { seat.old.counter ≡ self.now }
        ensures ok { IfOk result (λ n. (seat.old.seen < n) × (seat.new ≡ added (n - 1) seat.old)) }
        ensures learned { IfOk result (λ n. Learns seat.new n) }
        ensures not_worn { OnOk result (seat.old.seen < 2 ^ 62) }
        ensures worn { OnErr result (MeetsWear seat.old seat.new) }
        ensures same { seat.new.counter ≡ seat.old.counter }
    {
        let before = self.add(seat)?;
        Ok(before + 1)
    }

    /// Looks at the value until it is at least `goal`, at least once and at most `turns` times. It
    /// never sleeps. The result holds the last value seen and reports whether it reached the goal.
    ///
    /// # Conditions
    ///
    /// - `seat` is a seat of this eventcount.
    pub fn await_turns(&self, seat: &mut Seat, goal: u64, turns: u64) -> Awaited
        requires { seat.old.counter ≡ self.now }
        ensures goal { Tells goal result }
        ensures seat { seat.new ≡ saw (value_of result) seat.old }
        ensures learned { Learns seat.old (value_of result) }
    {
        let mut value = self.read(seat);
        for turn in 1..turns {
            if value >= goal {
                break;
            }
            pause(turn);
            value = self.read(seat);
        }
        if value < goal {
            return Awaited::Short(value);
        }
        Awaited::Reached(value)
    }

    /// Waits until the value is at least `goal`, and returns that value. After a short spin the
    /// thread sleeps until a `wake`, and looks again after each one.
    ///
    /// # Conditions
    ///
    /// - `seat` is a seat of this eventcount.
    pub fn await_at_least(&self, rt: &impl Wait, seat: &mut Seat, goal: u64) -> u64
        requires { seat.old.counter ≡ self.now }
        ensures goal { goal ≤ result }
        ensures seat { seat.new ≡ saw result seat.old }
        ensures learned { Learns seat.old result }
    {
        for _ in rt.forever() {
            match self.await_turns(seat, goal, SPINS) {
                Awaited::Reached(value) => return value,
                Awaited::Short(value) => self.park(rt, seat, goal, value),
            }
        }
        unreachable!()
    }

    /// Wakes every thread that sleeps on this eventcount. A thread whose goal has not been reached
    /// sleeps again.
    pub fn wake(&self, rt: &impl Wait) {
        self.wake_all(rt);
    }
}

/// Spends the time until the next look: spins at first, then yields.
fn pause(turn: u64) {
    if turn < SPINS {
        hint::spin_loop();
    } else {
        thread::yield_now();
    }
}
