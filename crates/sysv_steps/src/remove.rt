//! The steps of `msgctl` with IPC_RMID.

ghost use Rattle.std.specs.Prelude.{◌≡◌, ℕ, Bool, List, Some, Result, IfOk, ⊤};
ghost use Rattle.sysv_model.specs.Message.{Message};
ghost use Rattle.sysv_model.specs.Registry.{Changed};
ghost use Rattle.sysv_pool.specs.Chain.{Chained};
ghost use Rattle.sysv_pool.specs.Replies.{release_reply};
ghost use Rattle.sysv_queue.specs.Blocks.{blocks_of};
ghost use Rattle.sysv_queue.specs.Replies.{remove_reply};
ghost use Rattle.sysv_steps.specs.Begin.{begin as begins};
ghost use Rattle.sysv_steps.specs.Call.{MsgctlRmid};
ghost use Rattle.sysv_steps.specs.HeldBlocks.{held};
ghost use Rattle.sysv_steps.specs.Next.{after_remove as follows_remove, after_forget as follows_forget, after_giveback as follows_giveback};
ghost use Rattle.sysv_steps.specs.Seen.{remove_phase, remove_state};
ghost use Rattle.sysv_steps.specs.State.{Zero, Over, AtRemove, Goes};
ghost use Rattle.sysv_steps.specs.Stepping.{StepsOn, no_moment};

use crate::state::{NoWait, State};
use crate::worn::{forget, give_back, overflow};
use sysv_model::{Cred, Errno};
use sysv_objects::{ObjectCall, ObjectReply, SlotCall, SlotReply, Turns};
use sysv_pool::Chain;
use sysv_queue::Discarded;

/// The step before which an IPC_RMID is. The chain holds the blocks of the discarded messages.
pub enum RemoveStep {
    /// The queue is removed.
    Remove { cred: Cred, id: i32 },
    /// The registry forgets the identifier of the queue that was removed.
    Forget { id: i32, chain: Chain },
    /// The pool takes back the chain.
    Giveback { chain: Chain },
}

/// The state of an IPC_RMID. It returns no value.
pub type RemoveState = State<RemoveStep, NoWait, ()>;

impl RemoveStep {
    /// Returns the chain that an IPC_RMID holds before this step, or an empty chain.
    pub fn into_chain(self) -> Chain
        ensures { result.blocks ≡ held (Goes (remove_phase self)) }
    {
        match self {
            RemoveStep::Remove {
                cred: _cred,
                id: _id,
            } => Chain::empty(),
            RemoveStep::Forget { id: _id, chain } => chain,
            RemoveStep::Giveback { chain } => chain,
        }
    }

    /// Returns the state of an IPC_RMID at its start. It fails with EINVAL if `id` is negative
    /// (POSIX.1-2017, `msgctl`, ERRORS). Otherwise it is before the removal.
    pub fn begin(cred: Cred, id: i32) -> RemoveState
        ensures { (released : ℕ) → begins cred (MsgctlRmid id) released ≡ remove_state result }
    {
        if id < 0 {
            return State::refused(Errno::EINVAL);
        }
        State::Goes(RemoveStep::Remove { cred, id })
    }

    /// Returns the state of an IPC_RMID after the slot replied. If the queue of `id` was removed
    /// with its queued messages, the call then forgets the identifier, and holds the blocks of the
    /// discarded messages. If the slot refused with EINVAL or EPERM, the call is over with that
    /// error (POSIX.1-2017, `msgctl`, ERRORS).
    pub fn removed(id: i32, done: Result<Discarded, Errno>) -> RemoveState
        ensures { (messages : List Message) →
            IfOk done (λ discarded. discarded ≡ blocks_of messages) →
            follows_remove id (remove_reply messages done) ≡ Some (remove_state result) }
    {
        match done {
            Ok(discarded) => State::Goes(RemoveStep::Forget {
                id,
                chain: discarded.into_chain(),
            }),
            Err(errno) => State::refused(errno),
        }
    }

    /// Returns the state of an IPC_RMID after its identifier was forgotten: before the release of
    /// the chain of the discarded messages.
    pub fn forgotten(chain: Chain) -> RemoveState
        ensures { (done : Bool) →
            follows_forget chain.blocks (Changed done) ≡ Some (remove_state result) }
    {
        State::Goes(RemoveStep::Giveback { chain })
    }

    /// Returns the state of an IPC_RMID after its chain was released, or was refused by the pool as
    /// foreign: over, with success.
    pub fn given_back() -> RemoveState
        ensures { (done : Result ⊤ Chained) →
            follows_giveback (Over Zero) (release_reply done) ≡ Some (remove_state result) }
    {
        State::Over(Ok(()))
    }
}

/// Makes one step of an IPC_RMID and returns the state that follows.
///
/// A chain that cannot be released is added to `kept`. If the gate of the slot is worn out, the
/// call is over with EOVERFLOW. If that of the registry or of the pool is worn out, the call
/// continues as if the turn had been made.
///
/// # Conditions
///
/// - `turns` must be ready for a turn at `at`.
pub fn remove_step<T: Turns>(
    turns: &T,
    at: &mut T::At,
    kept: &mut Chain,
    step: RemoveStep,
) -> RemoveState
    requires { T.ready turns.now at.old }
    ensures stays { T.stays turns.now at.new }
    ensures steps { StepsOn T.takes T.misses no_moment (remove_phase step)
        at.old kept.old.blocks (remove_state result) at.new kept.new.blocks }
{
    match step {
        RemoveStep::Remove { cred, id } => remove(turns, at, cred, id),
        RemoveStep::Forget { id, chain } => {
            forget(turns, at, id);
            RemoveStep::forgotten(chain)
        }
        RemoveStep::Giveback { chain } => {
            give_back(turns, at, kept, chain);
            RemoveStep::given_back()
        }
    }
}

/// Makes the step that removes the queue.
fn remove<T: Turns>(turns: &T, at: &mut T::At, cred: Cred, id: i32) -> RemoveState
    requires { T.ready turns.now at.old }
    ensures stays { T.stays turns.now at.new }
    ensures steps { (kept : ℕ) → StepsOn T.takes T.misses no_moment (AtRemove cred id)
        at.old kept (remove_state result) at.new kept }
{
    let call = SlotCall::Remove { id, cred };
    match turns.make(at, ObjectCall::Slot(call)) {
        Ok(ObjectReply::Slot(SlotReply::Removed(done))) => RemoveStep::removed(id, done),
        Err(back) => overflow(back),
        _other => unreachable!(),
    }
}
