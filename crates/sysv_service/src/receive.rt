//! `msgrcv`.

ghost use Rattle.std.specs.Prelude.{◌≡◌, ℕ, List, IfOk};
ghost use Rattle.sysv_steps.specs.Call.{Msgrcv};
ghost use Rattle.sysv_steps.specs.Begin.{begin as begins};
ghost use Rattle.sysv_steps.specs.State.{Over, Ending as Ends};
ghost use Rattle.sysv_steps.specs.Seen.{receive_wait, receive_state};
ghost use Rattle.sysv_steps.specs.Giving.{GivesNothing};
ghost use Rattle.sysv_service.specs.Seats.{AreOf};
ghost use Rattle.sysv_service.specs.Ran.{Comes};
ghost use Rattle.sysv_steps.specs.Bodies.{IsSized};
ghost use Rattle.sysv_service.specs.Waited.{EndsWait};
ghost use Rattle.sysv_service.specs.Told.{TellsGot};
ghost use Rattle.sysv_service.specs.Delivered.{HasGiven, StepsGiving};

use crate::pass::Pass;
use crate::progress::Progress;
use crate::service::Service;
use crate::waiting::Waited;
use crate::{AtGates, SharedCount};
use std::sync::Wait as MayWait;
use sysv_model::{Body, Cred, Errno, Flags};
use sysv_queue::Delivery;
use sysv_steps::{Clock, ReceiveState, ReceiveStep, ReceiveWait, Receiving, State, receive_step};

impl Service {
    /// Takes a message from the queue `id` and writes its body to `out` (POSIX.1-2017, `msgrcv`).
    /// Returns a `Delivery` with the message's type, length, sender and number. It must be spent by
    /// `written` or `lost`.
    ///
    /// `mtype` selects the message: 0 the first one; a positive number the first one of that type,
    /// or with `MSG_EXCEPT` the first one of any other type; a negative number the first one of the
    /// lowest type up to its absolute value. If no queued message is selected, the call waits,
    /// unless `IPC_NOWAIT` is set. If the body is longer than `size` bytes and `MSG_NOERROR` is
    /// set, only its first `size` bytes are written, and the rest is lost.
    ///
    /// # Errors
    ///
    /// An error leaves the queue unchanged, and `out` is empty. The first cause that applies is
    /// reported.
    ///
    /// - `EINVAL` if no queue is live under `id`.
    /// - `EACCES` if `cred` has no read permission.
    /// - `ENOMSG` if no queued message is selected and `IPC_NOWAIT` is set.
    /// - `E2BIG` if the body is longer than `size` bytes and `MSG_NOERROR` is not set.
    /// - `EIDRM` if the queue was removed during the call, after the call had found it.
    /// - `EOVERFLOW` only if a gate is worn out.
    ///
    /// # Conditions
    ///
    /// - `pass` is a pass of this service.
    #[allow(clippy::too_many_arguments)]
    pub fn msgrcv<C: Clock>(
        &self,
        rt: &impl MayWait,
        pass: &mut Pass,
        clock: &C,
        cred: Cred,
        id: i32,
        out: &mut Body,
        size: u32,
        mtype: i64,
        flags: Flags,
    ) -> Result<Delivery, Errno>
        requires { AreOf self.now pass.old.seats }
        ensures pass { AreOf self.now pass.new.seats }
        ensures ran { (ending : Ends)
            × Comes (C.may clock.now) (begins cred (Msgrcv id size mtype flags) 0) pass.old
            (Over ending) pass.new × TellsGot ending result out.new }
        // The message that the call returns is the one that it took.
        ensures given { IfOk result (λ told.
            HasGiven (C.may clock.now) (begins cred (Msgrcv id size mtype flags) 0) pass.old told
            pass.new) }
    {
        let mut state = Receiving::begin(cred, id, size, mtype, flags);
        for _ in rt.forever() {
            state = match self.receive_on(rt, pass, clock, out, state) {
                Progress::Waits(wait) => self.wait_for_message(rt, pass, wait),
                Progress::Over(told) => return told,
            };
        }
        unreachable!()
    }

    /// Waits until the wait of a receive is over. Returns the state of the receive afterwards: it
    /// continues, or is over because a gate is worn out. It still waits only if no count can be
    /// above the value of its wait.
    fn wait_for_message(
        &self,
        rt: &impl MayWait,
        pass: &mut Pass,
        wait: ReceiveWait,
    ) -> ReceiveState
        requires { AreOf self.now pass.old.seats }
        ensures pass { AreOf self.now pass.new.seats }
        ensures ended { (out : List ℕ) →
            EndsWait (receive_wait wait) pass.old (receive_state result out) pass.new }
        ensures nothing { (out : List ℕ) → GivesNothing (receive_state result out) }
    {
        let id = wait.receive.id;
        match self.wait_above(rt, pass, SharedCount::Arrived { id }, wait.above) {
            Waited::Above(_value) => State::Goes(wait.resume()),
            Waited::Still => State::Waits(wait),
            Waited::Worn => State::Over(Err(Errno::EOVERFLOW)),
        }
    }

    /// Makes one step of a receive that writes to `out`.
    #[inline(always)]
    pub(crate) fn receive_step<C: Clock>(
        &self,
        rt: &impl MayWait,
        pass: &mut Pass,
        clock: &C,
        out: &mut Body,
        step: ReceiveStep,
    ) -> ReceiveState
        requires pass { AreOf self.now pass.old.seats }
        requires sized { IsSized (State.Goes step) out.old }
        ensures pass { AreOf self.now pass.new.seats }
        ensures sized { IsSized result out.new }
        ensures steps { StepsGiving (C.may clock.now) step out.old pass.old result out.new
            pass.new }
    {
        let gates = AtGates::of(rt, &self.gates);
        receive_step(&gates, &mut pass.seats, &mut pass.held, clock, out, step)
    }
}
