//! The steps of `msgctl` with IPC_STAT.

ghost use Rattle.std.specs.Prelude.{◌≡◌, ℕ, Some};
ghost use Rattle.sysv_queue.specs.Replies.{stat_reply};
ghost use Rattle.sysv_steps.specs.Begin.{begin as begins};
ghost use Rattle.sysv_steps.specs.Call.{MsgctlStat};
ghost use Rattle.sysv_steps.specs.Next.{after_stat as follows_stat};
ghost use Rattle.sysv_steps.specs.Seen.{stat_phase, stat_state};
ghost use Rattle.sysv_steps.specs.Stepping.{StepsOn, no_moment};

use crate::state::{NoWait, State};
use crate::worn::overflow;
use sysv_model::{Cred, Errno, Stat};
use sysv_objects::{ObjectCall, ObjectReply, SlotCall, SlotReply, Turns};

/// The step before which an IPC_STAT is: the attributes of the queue are read.
#[derive(Clone, Copy, PartialEq, Eq, Debug)]
pub struct StatStep {
    /// The caller's credentials.
    pub cred: Cred,
    /// The identifier of the queue. `begin` admits only identifiers from 0.
    pub id: i32,
}

/// The state of an IPC_STAT. Its result is the attributes of the queue.
pub type StatState = State<StatStep, NoWait, Stat>;

impl StatStep {
    /// Returns the state of an IPC_STAT at its start. It fails with EINVAL if `id` is negative
    /// (POSIX.1-2017, `msgctl`, ERRORS). Otherwise it is before the read of the attributes.
    pub fn begin(cred: Cred, id: i32) -> StatState
        ensures { (released : ℕ) → begins cred (MsgctlStat id) released ≡ stat_state result }
    {
        if id < 0 {
            return State::refused(Errno::EINVAL);
        }
        State::Goes(StatStep { cred, id })
    }

    /// Returns the state of an IPC_STAT after the slot replied: over, with the attributes or with
    /// the error that the slot reported (EINVAL or EACCES; POSIX.1-2017, `msgctl`, ERRORS).
    pub fn told(told: Result<Stat, Errno>) -> StatState
        ensures { follows_stat (stat_reply told) ≡ Some (stat_state result) }
    {
        State::Over(told)
    }
}

/// Makes the step of an IPC_STAT and returns the state that follows: the call is over.
///
/// If the gate of the step's turn is worn out, the call is over with EOVERFLOW.
///
/// # Conditions
///
/// - `turns` must be ready for a turn at `at`.
pub fn stat_step<T: Turns>(turns: &T, at: &mut T::At, step: StatStep) -> StatState
    requires { T.ready turns.now at.old }
    ensures stays { T.stays turns.now at.new }
    ensures steps { (kept : ℕ) → StepsOn T.takes T.misses no_moment (stat_phase step)
        at.old kept (stat_state result) at.new kept }
{
    let StatStep { cred, id } = step;
    let call = SlotCall::Stat { id, cred };
    match turns.make(at, ObjectCall::Slot(call)) {
        Ok(ObjectReply::Slot(SlotReply::Told(told))) => StatStep::told(told),
        Err(back) => overflow(back),
        _other => unreachable!(),
    }
}
