//! Looks at the count for which a call waits.

ghost use Rattle.std.specs.Prelude.{◌≡◌, ◌+◌, ◌≤◌, IfNone, IfSome};
ghost use Rattle.sysv_service.specs.Seats.{AreOf};
ghost use Rattle.sysv_service.specs.SharedCounts.{count_of};
ghost use Rattle.sysv_service.specs.Reading.{Reads};
ghost use Rattle.sysv_service.specs.Waited.{IsNotAbove};

use crate::pass::Pass;
use crate::service::Service;
use crate::shared_count::SharedCount;

impl Service {
    /// Reads the count once, and never waits. Returns its value if that is above `above`, so that
    /// the wait is over, or `None` if the call still waits.
    pub(crate) fn look(&self, pass: &mut Pass, count: SharedCount, above: u64) -> Option<u64>
        requires { AreOf self.now pass.old.seats }
        ensures pass { AreOf self.now pass.new.seats }
        ensures held { pass.new.held ≡ pass.old.held }
        ensures reached { IfSome result (λ value. (above + 1 ≤ value)
            × Reads (count_of count) value pass.old.seats pass.new.seats) }
        ensures below { IfNone result (IsNotAbove (count_of count) above pass.old pass.new) }
    {
        let value = self.gates.count(&mut pass.seats, count);
        (value > above).then_some(value)
    }
}
