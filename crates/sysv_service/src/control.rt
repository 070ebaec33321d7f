//! `msgctl`.

ghost use Rattle.std.specs.Prelude.{◌≡◌};
ghost use Rattle.sysv_steps.specs.Call.{MsgctlStat, MsgctlSet, MsgctlRmid};
ghost use Rattle.sysv_steps.specs.Begin.{begin as begins};
ghost use Rattle.sysv_steps.specs.State.{Over, Ending as Ends};
ghost use Rattle.sysv_service.specs.Seats.{AreOf};
ghost use Rattle.sysv_steps.specs.Stepping.{no_moment};
ghost use Rattle.sysv_service.specs.Ran.{Comes};
ghost use Rattle.sysv_service.specs.Told.{TellsZero, TellsStat, TellsRow};

use crate::AtGates;
use crate::pass::Pass;
use crate::running::Stepper;
use crate::service::Service;
use std::sync::Wait as MayWait;
use sysv_keys::SLOTS;
use sysv_model::{Cred, Errno, Row, SetTo, Stat};
use sysv_objects::{ObjectCall, ObjectReply, SlotCall, SlotReply};
use sysv_steps::{
    Clock, NoWait, RemoveState, RemoveStep, SetState, SetStep, StatState, StatStep, remove_step,
    set_step, stat_step,
};

impl Service {
    /// Returns the attributes of the queue `id`, the number of queued messages and the number of
    /// their bytes (POSIX.1-2017, `msgctl`, IPC_STAT). It never waits for a count.
    ///
    /// # Errors
    ///
    /// The first cause that applies is reported.
    ///
    /// - `EINVAL` if no queue is live under `id`.
    /// - `EACCES` if `cred` has no read permission.
    /// - `EOVERFLOW` only if a gate is worn out.
    ///
    /// # Conditions
    ///
    /// - `pass` is a pass of this service.
    pub fn msgctl_stat(
        &self,
        rt: &impl MayWait,
        pass: &mut Pass,
        cred: Cred,
        id: i32,
    ) -> Result<Stat, Errno>
        requires { AreOf self.now pass.old.seats }
        ensures pass { AreOf self.now pass.new.seats }
        ensures ran { (ending : Ends)
            × Comes no_moment (begins cred (MsgctlStat id) 0) pass.old (Over ending) pass.new
            × TellsStat ending result }
    {
        self.finish(rt, pass, &StatStepper, StatStep::begin(cred, id))
    }

    /// Sets the owner, the mode and the limit `qbytes` of the queue `id`, and its time of change
    /// (POSIX.1-2017, `msgctl`, IPC_SET). It wakes the calls that wait on the queue.
    ///
    /// # Errors
    ///
    /// An error leaves the queue unchanged. The first cause that applies is reported.
    ///
    /// - `EINVAL` if no queue is live under `id`.
    /// - `EPERM` if `cred` is not user 0, the owner or the creator.
    /// - `EINVAL` if the new limit is above 65,536 bytes.
    /// - `EPERM` if the new limit is above the present one and `cred` is not user 0.
    /// - `EOVERFLOW` only if a gate is worn out.
    ///
    /// # Conditions
    ///
    /// - `pass` is a pass of this service.
    pub fn msgctl_set<C: Clock>(
        &self,
        rt: &impl MayWait,
        pass: &mut Pass,
        clock: &C,
        cred: Cred,
        id: i32,
        to: SetTo,
    ) -> Result<(), Errno>
        requires { AreOf self.now pass.old.seats }
        ensures pass { AreOf self.now pass.new.seats }
        ensures ran { (ending : Ends)
            × Comes (C.may clock.now) (begins cred (MsgctlSet id to) 0) pass.old
            (Over ending) pass.new × TellsZero ending result }
    {
        let stepper = SetStepper { clock };
        self.finish(rt, pass, &stepper, SetStep::begin(cred, id, to))
    }

    /// Removes the queue `id` and discards its queued messages (POSIX.1-2017, `msgctl`, IPC_RMID).
    /// Calls that wait on the queue fail with `EIDRM`.
    ///
    /// # Errors
    ///
    /// An error leaves the queue unchanged. The first cause that applies is reported.
    ///
    /// - `EINVAL` if no queue is live under `id`.
    /// - `EPERM` if `cred` is not user 0, the owner or the creator.
    /// - `EOVERFLOW` only if a gate is worn out.
    ///
    /// # Conditions
    ///
    /// - `pass` is a pass of this service.
    pub fn msgctl_rmid(
        &self,
        rt: &impl MayWait,
        pass: &mut Pass,
        cred: Cred,
        id: i32,
    ) -> Result<(), Errno>
        requires { AreOf self.now pass.old.seats }
        ensures pass { AreOf self.now pass.new.seats }
        ensures ran { (ending : Ends)
            × Comes no_moment (begins cred (MsgctlRmid id) 0) pass.old (Over ending) pass.new
            × TellsZero ending result }
    {
        self.finish(rt, pass, &RemoveStepper, RemoveStep::begin(cred, id))
    }

    /// Returns the row of the live queue in this slot, or `None` if no queue is live there (this
    /// project's profile, for `ipcs`). It checks no permission.
    ///
    /// # Errors
    ///
    /// - `EINVAL` if and only if `slot` is not 0 to 255. Nothing was done.
    /// - `EOVERFLOW` only if the gate of the slot is worn out.
    ///
    /// # Conditions
    ///
    /// - `pass` is a pass of this service.
    pub fn list_row(
        &self,
        rt: &impl MayWait,
        pass: &mut Pass,
        slot: u32,
    ) -> Result<Option<Row>, Errno>
        requires { AreOf self.now pass.old.seats }
        ensures pass { AreOf self.now pass.new.seats }
        ensures told { TellsRow slot pass.old result pass.new }
    {
        let slot = slot as usize;
        if slot >= SLOTS {
            return Err(Errno::EINVAL);
        }
        let call = ObjectCall::Slot(SlotCall::Row { slot });
        match self.gates.make(rt, &mut pass.seats, call) {
            Ok(ObjectReply::Slot(SlotReply::Shown(row))) => Ok(row),
            Err(back) => {
                back.into_chain().end();
                Err(Errno::EOVERFLOW)
            }
            _other => unreachable!(),
        }
    }
}

/// The steps of an IPC_STAT.
struct StatStepper;

impl Stepper for StatStepper {
    ghost use Rattle.sysv_steps.specs.Call.{Stats};
    ghost use Rattle.sysv_steps.specs.State.{Told};
    ghost use Rattle.sysv_steps.specs.Seen.{stat_phase, no_wait};

    type Step = StatStep;

    type Wait = NoWait;

    type Done = Stat;

    ghost kind = { Stats };

    ghost phase = { λ _. stat_phase };

    ghost wait = { λ _. no_wait };

    ghost ending = { λ _. Told };

    ghost is_refused = { λ _ _. tt };

    fn step(
        &self,
        rt: &impl MayWait,
        service: &Service,
        pass: &mut Pass,
        step: StatStep,
    ) -> StatState {
        let gates = AtGates::of(rt, &service.gates);
        stat_step(&gates, &mut pass.seats, step)
    }
}

/// The steps of an IPC_SET.
#[derive(Drop)]
struct SetStepper<'a, C> {
    clock: &'a C,
}

impl<'a, C: Clock> Stepper for SetStepper<'a, C> {
    ghost use Rattle.sysv_steps.specs.Call.{Sets};
    ghost use Rattle.sysv_steps.specs.State.{Zero};
    ghost use Rattle.sysv_steps.specs.Seen.{set_phase, no_wait};

    type Step = SetStep;

    type Wait = NoWait;

    type Done = ();

    ghost may = { λ s. C.may s.clock.now };

    ghost kind = { Sets };

    ghost phase = { λ _. set_phase };

    ghost wait = { λ _. no_wait };

    ghost ending = { λ _ _. Zero };

    ghost is_refused = { λ _ _. tt };

    fn step(
        &self,
        rt: &impl MayWait,
        service: &Service,
        pass: &mut Pass,
        step: SetStep,
    ) -> SetState {
        let gates = AtGates::of(rt, &service.gates);
        set_step(&gates, &mut pass.seats, &mut pass.held, self.clock, step)
    }
}

/// The steps of an IPC_RMID.
struct RemoveStepper;

impl Stepper for RemoveStepper {
    ghost use Rattle.sysv_steps.specs.Call.{Removes};
    ghost use Rattle.sysv_steps.specs.State.{Zero};
    ghost use Rattle.sysv_steps.specs.Seen.{remove_phase, no_wait};

    type Step = RemoveStep;

    type Wait = NoWait;

    type Done = ();

    ghost kind = { Removes };

    ghost phase = { λ _. remove_phase };

    ghost wait = { λ _. no_wait };

    ghost ending = { λ _ _. Zero };

    ghost is_refused = { λ _ _. tt };

    fn step(
        &self,
        rt: &impl MayWait,
        service: &Service,
        pass: &mut Pass,
        step: RemoveStep,
    ) -> RemoveState {
        let gates = AtGates::of(rt, &service.gates);
        remove_step(&gates, &mut pass.seats, &mut pass.held, step)
    }
}
