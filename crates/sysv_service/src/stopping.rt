//! Stopping a service.

ghost use Rattle.std.specs.Prelude.{◌<◌, ℕ, Bool};
ghost use Rattle.sysv_keys.specs.declared.identifier.TheConstants.{SLOTS as slot_count};
ghost use Rattle.sysv_service.specs.Seats.{AreOf};
ghost use Rattle.sysv_service.specs.Stopped.{Stops, StopsSlot, StopsSo, TellsStop};

use crate::pass::Pass;
use crate::service::Service;
use std::sync::Wait as MayWait;
use sysv_keys::SLOTS;
use sysv_model::{Cred, Errno};

/// The user who may remove every queue.
const SUPERUSER: Cred = Cred {
    uid: 0,
    gid: 0,
    pid: 0,
};

/// What a stop of a service did.
#[derive(Clone, Copy, PartialEq, Eq, Debug)]
pub struct Stop {
    /// The number of queues removed, or `EOVERFLOW` if the gate of a slot was found worn out.
    pub removed: Result<u32, Errno>,
    /// The number of messages that were in these queues, by the rows that the stop read just before
    /// it removed them.
    pub messages: u64,
}

impl Service {
    /// Removes all queues and returns the number of queues removed (this project's profile). It
    /// goes through the slots in order: it reads the row of each slot, and removes the queue that
    /// it finds there as user 0. A queue that another call creates in the meantime may stay.
    ///
    /// # Errors
    ///
    /// - `EOVERFLOW` if and only if the gate of a slot was found worn out. All slots were tried,
    ///   and the queues that could be removed are removed.
    ///
    /// # Conditions
    ///
    /// - `pass` is a pass of this service.
    pub fn stop(&self, rt: &impl MayWait, pass: &mut Pass) -> Result<u32, Errno>
        requires { AreOf self.now pass.old.seats }
        ensures pass { AreOf self.now pass.new.seats }
        ensures stopped { (removed : ℕ) × (worn : Bool)
            × Stops pass.old slot_count removed worn pass.new × TellsStop removed worn result }
    {
        self.stop_counting(rt, pass).removed
    }

    /// Removes all queues like `stop`, and also returns the number of messages that were in them. A
    /// message that another call sends or takes in the meantime may be counted wrongly.
    ///
    /// # Conditions
    ///
    /// - `pass` is a pass of this service.
    pub fn stop_counting(&self, rt: &impl MayWait, pass: &mut Pass) -> Stop
        requires { AreOf self.now pass.old.seats }
        ensures pass { AreOf self.now pass.new.seats }
        ensures stopped { (removed : ℕ) × (worn : Bool)
            × StopsSo pass.old slot_count removed worn result.messages pass.new
            × TellsStop removed worn result.removed }
    {
        let mut removed = 0;
        let mut messages = 0;
        let mut worn = false;
        for slot in 0..SLOTS {
            match self.stop_slot(rt, pass, slot as u32) {
                Ok(Some(count)) => {
                    removed += 1;
                    messages += u64::from(count);
                }
                Ok(None) => {}
                Err(_) => worn = true,
            }
        }
        Stop {
            removed: told(removed, worn),
            messages,
        }
    }

    /// Removes the queue at this slot, and returns the number of messages that its row states.
    /// Returns `None` if no queue was removed. Fails with `EOVERFLOW` if the slot's gate was found
    /// worn out.
    fn stop_slot(&self, rt: &impl MayWait, pass: &mut Pass, slot: u32) -> Result<Option<u32>, Errno>
        requires pass { AreOf self.now pass.old.seats }
        requires slot { slot < slot_count }
        ensures pass { AreOf self.now pass.new.seats }
        ensures stopped { StopsSlot slot pass.old result pass.new }
    {
        let Some(row) = self.list_row(rt, pass, slot)? else {
            return Ok(None);
        };
        match self.msgctl_rmid(rt, pass, SUPERUSER, row.id) {
            Ok(()) => Ok(Some(row.qnum)),
            Err(why) if why == Errno::EOVERFLOW => Err(why),
            Err(_) => Ok(None),
        }
    }
}

/// Returns what a stop returns that removed this number of queues, and found a gate worn out or not.
fn told(removed: u32, worn: bool) -> Result<u32, Errno>
    ensures { TellsStop removed worn result }
{
    if worn {
        return Err(Errno::EOVERFLOW);
    }
    Ok(removed)
}
