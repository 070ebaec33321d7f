//! `msgsnd`.

ghost use Rattle.std.specs.Prelude.{◌≡◌, ◌+◌, ℕ, List};
ghost use Rattle.sysv_steps.specs.Call.{Msgsnd};
ghost use Rattle.sysv_steps.specs.Begin.{begin as begins};
ghost use Rattle.sysv_steps.specs.State.{Over, Ending as Ends};
ghost use Rattle.sysv_steps.specs.Resume.{Released, awaited as is_awaited, goal_of};
ghost use Rattle.sysv_steps.specs.Seen.{send_wait};
ghost use Rattle.sysv_service.specs.Seats.{AreOf};
ghost use Rattle.sysv_service.specs.Reading.{Reads};
ghost use Rattle.sysv_service.specs.Ran.{Pass as Seen, Comes};
ghost use Rattle.sysv_service.specs.SharedCounts.{count_of};
ghost use Rattle.sysv_service.specs.Told.{TellsZero};

use crate::pass::Pass;
use crate::running::{Stepper, Waiter};
use crate::service::Service;
use crate::{AtGates, SharedCount};
use std::sync::Wait as MayWait;
use sysv_model::{Body, Cred, Errno, Flags};
use sysv_steps::{Clock, SendState, SendStep, SendWait, Sending, send_step};

impl Service {
    /// Appends a message of type `mtype` with the body `text` to the queue `id` (POSIX.1-2017,
    /// `msgsnd`). `mtype` is at least 1, and the body has at most 8,192 bytes. If the message does
    /// not fit, the call waits, unless `IPC_NOWAIT` is set.
    ///
    /// # Errors
    ///
    /// An error leaves the queue unchanged. The first cause that applies is reported.
    ///
    /// - `EINVAL` if `mtype` is below 1, if the body is too long, or if no queue is live under
    ///   `id`.
    /// - `EACCES` if `cred` has no write permission.
    /// - `EAGAIN` if the message does not fit and `IPC_NOWAIT` is set.
    /// - `EIDRM` if the queue was removed during the call, after the call had found it.
    /// - `EOVERFLOW` only if a gate is worn out.
    ///
    /// # Conditions
    ///
    /// - `pass` is a pass of this service.
    #[allow(clippy::too_many_arguments)]
    pub fn msgsnd<C: Clock>(
        &self,
        rt: &impl MayWait,
        pass: &mut Pass,
        clock: &C,
        cred: Cred,
        id: i32,
        mtype: i64,
        text: &Body,
        flags: Flags,
    ) -> Result<(), Errno>
        requires { AreOf self.now pass.old.seats }
        ensures pass { AreOf self.now pass.new.seats }
        // The call starts with a read of the released count.
        ensures ran { (released : ℕ) × (mid : Seen)
            × Reads Released released pass.old.seats mid.seats × (mid.held ≡ pass.old.held)
            × (ending : Ends) × Comes (C.may clock.now)
            (begins cred (Msgsnd id mtype flags text.now) released) mid (Over ending) pass.new
            × TellsZero ending result }
    {
        let released = self.gates.count(&mut pass.seats, SharedCount::Released);
        let begun = Sending::begin(cred, id, mtype, flags, text.len(), released);
        let stepper = SendStepper { clock, text };
        self.run(rt, pass, &stepper, begun)
    }
}

/// The steps of a `msgsnd`.
#[derive(Drop)]
pub(crate) struct SendStepper<'a, C> {
    pub(crate) clock: &'a C,
    pub(crate) text: &'a Body,
}

impl<'a, C: Clock> Stepper for SendStepper<'a, C> {
    ghost use Rattle.sysv_steps.specs.Call.{Sends};
    ghost use Rattle.sysv_steps.specs.State.{Zero};
    ghost use Rattle.sysv_steps.specs.Seen.{send_phase, send_wait};
    ghost use Rattle.sysv_steps.specs.Bodies.{StillCanSend};

    type Step = SendStep;

    type Wait = SendWait;

    type Done = ();

    ghost kind = { Sends };

    ghost may = { λ s. C.may s.clock.now };

    ghost phase = { λ s step. send_phase step s.text.now };

    ghost wait = { λ s waits. send_wait waits s.text.now };

    ghost ending = { λ _ _. Zero };

    ghost can = { λ s state. StillCanSend state s.text.now };

    ghost is_refused = { λ _ _. tt };

    #[inline(always)]
    fn step(
        &self,
        rt: &impl MayWait,
        service: &Service,
        pass: &mut Pass,
        step: SendStep,
    ) -> SendState {
        let gates = AtGates::of(rt, &service.gates);
        send_step(
            &gates,
            &mut pass.seats,
            &mut pass.held,
            self.clock,
            self.text,
            step,
        )
    }
}

impl<C: Clock> Waiter for SendStepper<'_, C> {
    fn awaited(&self, waits: &SendWait) -> (SharedCount, u64) {
        awaited_by(waits)
    }

    fn resume(&self, waits: SendWait, value: u64) -> SendStep {
        waits.resume(value)
    }
}

/// Returns the count for which a send waits, and the value above which the count must rise.
pub(crate) fn awaited_by(waits: &SendWait) -> (SharedCount, u64)
    ensures count { (text : List ℕ) → count_of result.0 ≡ is_awaited (send_wait waits.now text) }
    ensures above { (text : List ℕ) → goal_of (send_wait waits.now text) ≡ result.1 + 1 }
{
    match *waits {
        SendWait::Room { above, send } => (SharedCount::Freed { id: send.id }, above),
        SendWait::Blocks { above, .. } => (SharedCount::Released, above),
    }
}
