//! Waiting for the counts of the object at a place.
ghost use Rattle.std.specs.Prelude.{◌≡◌, IfSome, IfNone, IsTrue, true, false, []};
ghost use Rattle.sysv_gate.specs.Turns.{Waits, HasWorn, HasRead, HasReadBelow, ReadMore, HasWaited};
ghost use Rattle.sysv_gate.specs.Tables.{me_at};
ghost use Rattle.sysv_gate.specs.Locks.{IsLockIn, IsPassAt, IsSame};

use crate::awaited::Awaited;
use crate::count::Count;
use crate::lock::PlaceLock;
use crate::lock::doorbell::of_count;
use crate::object::Object;
use crate::table::words::LIMIT;
use crate::table::{PlaceTable, TableToken};
use std::hint;
use std::sync::Wait;

/// The number of looks at a count before the thread sleeps.
pub(crate) const LOOKS: u64 = 256;

impl<O: Object> PlaceLock<O> {
    /// Reads the count a number of times, until it is at least the goal. Returns the value that it
    /// read last.
    fn count_to(
        &self,
        table: &PlaceTable<O>,
        token: &mut TableToken<O>,
        count: Count,
        goal: u64,
    ) -> u64
        requires lock { IsLockIn table.now.shared self.now }
        requires at { IsPassAt table.now.shared self.now token.old }
        requires idle { Waits [] (me_at self.now.place token.old.me) }
        ensures same { IsSame self.now.place token.old token.new }
        ensures read { HasRead O.counted self.now.opening count (me_at self.now.place token.old.me)
            result (me_at self.now.place token.new.me) }
    {
        let mut value = self.count(table, token, count);
        for _ in 1..LOOKS {
            if value >= goal {
                break;
            }
            hint::spin_loop();
            value = self.count(table, token, count);
        }
        value
    }

    /// Returns whether the tickets have reached 2^62.
    fn is_worn(&self, table: &PlaceTable<O>, token: &mut TableToken<O>) -> bool
        requires lock { IsLockIn table.now.shared self.now }
        requires at { IsPassAt table.now.shared self.now token.old }
        requires idle { Waits [] (me_at self.now.place token.old.me) }
        ensures same { IsSame self.now.place token.old token.new }
        ensures worn { IsTrue result → HasWorn (me_at self.now.place token.old.me)
            (me_at self.now.place token.new.me) }
        ensures not_worn { result ≡ false → (me_at self.now.place token.new.me)
            ≡ (me_at self.now.place token.old.me) }
    {
        self.weigh(table, token) >= LIMIT
    }

    /// Looks whether the wait is over. Returns `None` only if the count is below the goal.
    fn judge(
        &self,
        table: &PlaceTable<O>,
        token: &mut TableToken<O>,
        count: Count,
        goal: u64,
    ) -> Option<Awaited>
        requires lock { IsLockIn table.now.shared self.now }
        requires at { IsPassAt table.now.shared self.now token.old }
        requires idle { Waits [] (me_at self.now.place token.old.me) }
        ensures same { IsSame self.now.place token.old token.new }
        ensures over { IfSome result (λ a. HasWaited O.counted self.now.opening count goal
            (me_at self.now.place token.old.me) a (me_at self.now.place token.new.me)) }
        ensures goes_on { IfNone result
            (HasReadBelow O.counted self.now.opening count goal (me_at self.now.place token.old.me)
            (me_at self.now.place token.new.me)) }
    {
        let value = self.count(table, token, count);
        if value >= goal {
            return Some(Awaited::Reached(value));
        }
        if self.is_worn(table, token) {
            return Some(Awaited::Worn);
        }
        None
    }

    /// Sleeps until the count may have risen, unless the wait is over already.
    fn doze(
        &self,
        rt: &impl Wait,
        table: &PlaceTable<O>,
        token: &mut TableToken<O>,
        count: Count,
        goal: u64,
    ) -> Option<Awaited>
        requires lock { IsLockIn table.now.shared self.now }
        requires at { IsPassAt table.now.shared self.now token.old }
        requires idle { Waits [] (me_at self.now.place token.old.me) }
        ensures same { IsSame self.now.place token.old token.new }
        ensures over { IfSome result (λ a. HasWaited O.counted self.now.opening count goal
            (me_at self.now.place token.old.me) a (me_at self.now.place token.new.me)) }
        ensures goes_on { IfNone result
            (ReadMore count (me_at self.now.place token.old.me)
            (me_at self.now.place token.new.me)) }
    {
        let sleeper = self.doorbells.enter(of_count(count));
        let found = self.judge(table, token, count, goal);
        if found.is_none() {
            self.doorbells.sleep(rt, &sleeper);
        }
        self.doorbells.leave(sleeper);
        found
    }

    /// Waits until the count is at least `goal`, like `Gate::await_arrived`.
    ///
    /// # Conditions
    ///
    /// - The lock belongs to the table, and so does the pass, which is at rest at the place.
    pub fn await_count(
        &self,
        rt: &impl Wait,
        table: &PlaceTable<O>,
        token: &mut TableToken<O>,
        count: Count,
        goal: u64,
    ) -> Awaited
        requires lock { IsLockIn table.now.shared self.now }
        requires at { IsPassAt table.now.shared self.now token.old }
        requires idle { Waits [] (me_at self.now.place token.old.me) }
        ensures same { IsSame self.now.place token.old token.new }
        ensures waited { HasWaited O.counted self.now.opening count goal
            (me_at self.now.place token.old.me) result (me_at self.now.place token.new.me) }
    {
        for _ in rt.forever() {
            let value = self.count_to(table, token, count, goal);
            if value >= goal {
                return Awaited::Reached(value);
            }
            if let Some(awaited) = self.doze(rt, table, token, count, goal) {
                return awaited;
            }
        }
        unreachable!()
    }
}
