//! The steps of `msgctl` with IPC_SET.

ghost use Rattle.std.specs.Prelude.{◌≡◌, ℕ, Some, Result, ⊤};
ghost use Rattle.sysv_pool.specs.Chain.{Chained};
ghost use Rattle.sysv_pool.specs.Replies.{release_reply};
ghost use Rattle.sysv_queue.specs.Replies.{set_reply};
ghost use Rattle.sysv_steps.specs.Begin.{begin as begins};
ghost use Rattle.sysv_steps.specs.Call.{MsgctlSet};
ghost use Rattle.sysv_steps.specs.Next.{after_set as follows_set, after_giveback as follows_giveback};
ghost use Rattle.sysv_steps.specs.Seen.{set_phase, set_state};
ghost use Rattle.sysv_steps.specs.State.{Zero, Over, AtSet};
ghost use Rattle.sysv_steps.specs.Stepping.{StepsOn};

use crate::clock::Clock;
use crate::state::{NoWait, State};
use crate::worn::{give_back, overflow};
use sysv_model::{Cred, Errno, SetTo};
use sysv_objects::{ObjectCall, ObjectReply, SlotCall, SlotReply, Turns};
use sysv_pool::Chain;

/// The step before which an IPC_SET is.
#[derive(Clone, Copy, PartialEq, Eq, Debug)]
pub enum SetStep {
    /// The owner, mode and limit of the queue are changed.
    Set { cred: Cred, id: i32, to: SetTo },
    /// A chain of no blocks is released, so that sends that wait for blocks look again.
    Giveback,
}

/// The state of an IPC_SET. It returns no value.
pub type SetState = State<SetStep, NoWait, ()>;

impl SetStep {
    /// Returns the state of an IPC_SET to the values `to` at its start. It fails with EINVAL if
    /// `id` is negative (POSIX.1-2017, `msgctl`, ERRORS). Otherwise it is before the change of the
    /// queue.
    pub fn begin(cred: Cred, id: i32, to: SetTo) -> SetState
        ensures { (released : ℕ) → begins cred (MsgctlSet id to) released ≡ set_state result }
    {
        if id < 0 {
            return State::refused(Errno::EINVAL);
        }
        State::Goes(SetStep::Set { cred, id, to })
    }

    /// Returns the state of an IPC_SET after the slot replied. If the queue was changed, the call
    /// then releases a chain of no blocks. If the slot refused with EINVAL or EPERM, the call is
    /// over with that error (POSIX.1-2017, `msgctl`, ERRORS).
    pub fn done(done: Result<(), Errno>) -> SetState
        ensures { follows_set (set_reply done) ≡ Some (set_state result) }
    {
        match done {
            Ok(()) => State::Goes(SetStep::Giveback),
            Err(errno) => State::refused(errno),
        }
    }

    /// Returns the state of an IPC_SET after its chain was released, or was refused by the pool as
    /// foreign: over, with success.
    pub fn given_back() -> SetState
        ensures { (done : Result ⊤ Chained) →
            follows_giveback (Over Zero) (release_reply done) ≡ Some (set_state result) }
    {
        State::Over(Ok(()))
    }
}

/// Makes one step of an IPC_SET and returns the state that follows.
///
/// If the gate of the slot is worn out, the call is over with EOVERFLOW; if that of the pool is
/// worn out, the call succeeds.
///
/// # Conditions
///
/// - `turns` must be ready for a turn at `at`.
pub fn set_step<T: Turns, C: Clock>(
    turns: &T,
    at: &mut T::At,
    kept: &mut Chain,
    clock: &C,
    step: SetStep,
) -> SetState
    requires { T.ready turns.now at.old }
    ensures stays { T.stays turns.now at.new }
    ensures steps { StepsOn T.takes T.misses (C.may clock.now) (set_phase step)
        at.old kept.old.blocks (set_state result) at.new kept.new.blocks }
{
    match step {
        SetStep::Set { cred, id, to } => set(turns, at, clock, cred, id, to),
        SetStep::Giveback => {
            give_back(turns, at, kept, Chain::empty());
            SetStep::given_back()
        }
    }
}

/// Makes the step that changes the queue.
fn set<T: Turns, C: Clock>(
    turns: &T,
    at: &mut T::At,
    clock: &C,
    cred: Cred,
    id: i32,
    to: SetTo,
) -> SetState
    requires { T.ready turns.now at.old }
    ensures stays { T.stays turns.now at.new }
    ensures steps { (kept : ℕ) → StepsOn T.takes T.misses (C.may clock.now) (AtSet cred id to)
        at.old kept (set_state result) at.new kept }
{
    let now = clock.now();
    let call = SlotCall::Set { id, cred, to, now };
    match turns.make(at, ObjectCall::Slot(call)) {
        Ok(ObjectReply::Slot(SlotReply::Set(done))) => SetStep::done(done),
        Err(back) => overflow(back),
        _other => unreachable!(),
    }
}
