//! `msgsnd` in pieces.

ghost use Rattle.std.specs.Prelude.{◌≡◌, ◌≤◌, ℕ, List, length, IfNone, IfSome};
ghost use Rattle.sysv_model.specs.declared.limits.TheConstants.{MESSAGE_BYTES};
ghost use Rattle.sysv_steps.specs.Call.{Msgsnd};
ghost use Rattle.sysv_steps.specs.Begin.{begin as begins};
ghost use Rattle.sysv_steps.specs.State.{Goes, AtLook};
ghost use Rattle.sysv_steps.specs.Resume.{Released};
ghost use Rattle.sysv_steps.specs.Seen.{sending, send_wait};
ghost use Rattle.sysv_service.specs.Seats.{AreOf};
ghost use Rattle.sysv_service.specs.Reading.{Reads};
ghost use Rattle.sysv_service.specs.Ran.{Pass as Seen};
ghost use Rattle.sysv_service.specs.Pending.{SendsOn, IsReached, StillWaits};

use crate::pass::Pass;
use crate::progress::Progress;
use crate::send::SendStepper;
use crate::service::Service;
use crate::shared_count::SharedCount;
use std::sync::Wait as MayWait;
use sysv_model::{Body, Cred, Errno, Flags};
use sysv_steps::{Clock, SendStep, SendWait, Sending, State};

impl Service {
    /// Begins a `msgsnd`: makes its steps until it waits or is over. It may wait for a turn, but
    /// never for a count. A send that waits continues by `msgsnd_look` and `msgsnd_go_on`.
    ///
    /// # Errors
    ///
    /// `Over` holds the result of the send. The errors are those of `msgsnd`.
    ///
    /// # Conditions
    ///
    /// - `pass` is a pass of this service.
    #[allow(clippy::too_many_arguments)]
    pub fn msgsnd_begin<C: Clock>(
        &self,
        rt: &impl MayWait,
        pass: &mut Pass,
        clock: &C,
        cred: Cred,
        id: i32,
        mtype: i64,
        text: &Body,
        flags: Flags,
    ) -> Progress<SendWait, Result<(), Errno>>
        requires { AreOf self.now pass.old.seats }
        ensures pass { AreOf self.now pass.new.seats }
        // The call starts with a read of the released count.
        ensures ran { (released : ℕ) × (mid : Seen)
            × Reads Released released pass.old.seats mid.seats × (mid.held ≡ pass.old.held)
            × SendsOn (C.may clock.now) (begins cred (Msgsnd id mtype flags text.now) released) mid
            result text.now pass.new }
    {
        let released = self.gates.count(&mut pass.seats, SharedCount::Released);
        let begun = Sending::begin(cred, id, mtype, flags, text.len(), released);
        self.run_on(rt, pass, &SendStepper { clock, text }, begun)
    }

    /// Reads the count for which a send waits once, and never waits. Returns the send if the wait
    /// is over, so that `msgsnd_go_on` can continue it, or `None` if it still waits.
    ///
    /// # Conditions
    ///
    /// - `pass` is a pass of this service.
    pub fn msgsnd_look(&self, pass: &mut Pass, wait: &SendWait) -> Option<Sending>
        requires { AreOf self.now pass.old.seats }
        ensures pass { AreOf self.now pass.new.seats }
        ensures reached { IfSome result (λ send. (text : List ℕ) →
            IsReached (send_wait wait.now text) pass.old (AtLook (sending send text)) pass.new) }
        ensures below { IfNone result ((text : List ℕ) →
            StillWaits (send_wait wait.now text) pass.old pass.new) }
    {
        match *wait {
            SendWait::Room { above, send } => {
                self.look(pass, SharedCount::Freed { id: send.id }, above)?;
                Some(send)
            }
            SendWait::Blocks { above, mut send } => {
                send.released = self.look(pass, SharedCount::Released, above)?;
                Some(send)
            }
        }
    }

    /// Continues a send of the body `text` whose wait is over: makes its steps until it waits again
    /// or is over. It may wait for a turn, but never for a count.
    ///
    /// # Errors
    ///
    /// `Over` holds the result of the send. The errors are those of `msgsnd`.
    ///
    /// # Conditions
    ///
    /// - `pass` is a pass of this service.
    /// - `text` has at most 8,192 bytes, as the body of every send that waits.
    pub fn msgsnd_go_on<C: Clock>(
        &self,
        rt: &impl MayWait,
        pass: &mut Pass,
        clock: &C,
        text: &Body,
        send: Sending,
    ) -> Progress<SendWait, Result<(), Errno>>
        requires pass { AreOf self.now pass.old.seats }
        requires short { length text.now ≤ MESSAGE_BYTES }
        ensures pass { AreOf self.now pass.new.seats }
        ensures ran { SendsOn (C.may clock.now) (Goes (AtLook (sending send text.now))) pass.old
            result text.now pass.new }
    {
        let begun = State::Goes(SendStep::Look(send));
        self.run_on(rt, pass, &SendStepper { clock, text }, begun)
    }
}
