//! Running a call: steps and waits, until it is over.

ghost use Rattle.std.specs.Prelude.{◌≡◌, ℕ, ◌+◌, ⊤, Err};
ghost use Rattle.sysv_model.specs.declared.errno.Errno.{Errno as Why};
ghost use Rattle.sysv_steps.specs.declared.state.State.{State as StateKept};
ghost use Rattle.sysv_steps.specs.declared.state.State.TheVariants.{Over as IsOver};
ghost use Rattle.sysv_steps.specs.Call.{Kind};
ghost use Rattle.sysv_steps.specs.State.{Phase as PhaseSeen, Wait as WaitSeen, Ending as EndingSeen, Over};
ghost use Rattle.sysv_steps.specs.Resume.{awaited as is_awaited, goal_of, resume as resumes};
ghost use Rattle.sysv_steps.specs.Seen.{ending_of, state_of};
ghost use Rattle.sysv_steps.specs.Stepping.{no_moment};
ghost use Rattle.sysv_service.specs.Seats.{AreOf};
ghost use Rattle.sysv_service.specs.SharedCounts.{count_of};
ghost use Rattle.sysv_service.specs.Ran.{StepsOn, Comes};
ghost use Rattle.sysv_service.specs.Pending.{stopped_at, StoppedBy};
ghost use Rattle.sysv_service.specs.Waited.{EndsWait};

use crate::pass::Pass;
use crate::progress::Progress;
use crate::service::Service;
use crate::shared_count::SharedCount;
use crate::waiting::Waited;
use std::sync::Wait as MayWait;
use sysv_model::Errno;
use sysv_steps::{NoWait, State};

/// The steps of one of the calls, with what they use.
pub(crate) trait Stepper {
    /// Its steps.
    type Step;

    /// Its waits.
    type Wait: Drop;

    /// Its result.
    type Done;

    /// The times that its clock may return. It may have no clock.
    ghost may: { Self → ℕ → Type 0 } = { λ _. no_moment };

    /// The kind of its call.
    ghost kind: { Kind };

    /// The meaning of its steps, its waits and its result.
    ghost phase: { Self → Self.Step → PhaseSeen kind };

    ghost wait: { Self → Self.Wait → WaitSeen kind };

    ghost ending: { Self → Self.Done → EndingSeen };

    /// What its steps need of what they use.
    ghost can: { Self → StateKept Self.Step Self.Wait Self.Done → Type 0 } = { λ _ _. ⊤ };

    /// Makes one step.
    fn step(
        &self,
        rt: &impl MayWait,
        service: &Service,
        pass: &mut Pass,
        step: Self::Step,
    ) -> State<Self::Step, Self::Wait, Self::Done>
        requires pass { AreOf service.now pass.old.seats }
        requires can { can self.now (State.Goes step) }
        ensures pass { AreOf service.now pass.new.seats }
        ensures can { can self.now result }
        ensures steps { StepsOn (may self.now) (phase self.now step) pass.old
            (state_of (phase self.now) (wait self.now) (ending self.now) result) pass.new };

    /// It may be refused with any error.
    ghost is_refused: { (s : Self) (why : Why) → can s (IsOver (Err why)) };
}

/// The waits of a call that may wait.
pub(crate) trait Waiter: Stepper {
    /// Returns the count for which it waits, and the value above which the count must rise.
    fn awaited(&self, waits: &Self::Wait) -> (SharedCount, u64)
        ensures count { count_of result.0 ≡ is_awaited (Self.wait self.now waits.now) }
        ensures above { goal_of (Self.wait self.now waits.now) ≡ result.1 + 1 };

    /// Returns the step at which it continues after the value `value` of its count ended the wait.
    fn resume(&self, waits: Self::Wait, value: u64) -> Self::Step
        requires { Self.can self.now (State.Waits waits) }
        ensures next { resumes (Self.wait self.now waits) value ≡ Self.phase self.now result }
        ensures can { Self.can self.now (State.Goes result) };
}

impl Service {
    /// Runs a call that has begun until it is over.
    pub(crate) fn run<S: Waiter>(
        &self,
        rt: &impl MayWait,
        pass: &mut Pass,
        stepper: &S,
        begun: State<S::Step, S::Wait, S::Done>,
    ) -> Result<S::Done, Errno>
        requires pass { AreOf self.now pass.old.seats }
        requires can { S.can stepper.now begun }
        ensures pass { AreOf self.now pass.new.seats }
        ensures ran { Comes (S.may stepper.now)
            (state_of (S.phase stepper.now) (S.wait stepper.now) (S.ending stepper.now) begun)
            pass.old (Over (ending_of (S.ending stepper.now) result)) pass.new }
    {
        let mut state = begun;
        for _ in rt.forever() {
            state = match self.run_on(rt, pass, stepper, state) {
                Progress::Waits(wait) => self.wait_out(rt, pass, stepper, wait),
                Progress::Over(told) => return told,
            };
        }
        unreachable!()
    }

    /// Runs a call that has begun, and that never waits, until it is over.
    pub(crate) fn finish<S: Stepper<Wait = NoWait>>(
        &self,
        rt: &impl MayWait,
        pass: &mut Pass,
        stepper: &S,
        begun: State<S::Step, NoWait, S::Done>,
    ) -> Result<S::Done, Errno>
        requires pass { AreOf self.now pass.old.seats }
        requires can { S.can stepper.now begun }
        ensures pass { AreOf self.now pass.new.seats }
        ensures ran { Comes (S.may stepper.now)
            (state_of (S.phase stepper.now) (S.wait stepper.now) (S.ending stepper.now) begun)
            pass.old (Over (ending_of (S.ending stepper.now) result)) pass.new }
    {
        match self.run_on(rt, pass, stepper, begun) {
            Progress::Waits(never) => match never {},
            Progress::Over(told) => told,
        }
    }

    /// Makes the steps of a call that has begun until it waits or is over.
    pub(crate) fn run_on<S: Stepper>(
        &self,
        rt: &impl MayWait,
        pass: &mut Pass,
        stepper: &S,
        begun: State<S::Step, S::Wait, S::Done>,
    ) -> Progress<S::Wait, Result<S::Done, Errno>>
        requires pass { AreOf self.now pass.old.seats }
        requires can { S.can stepper.now begun }
        ensures pass { AreOf self.now pass.new.seats }
        ensures can { StoppedBy (S.can stepper.now) result }
        ensures ran { Comes (S.may stepper.now)
            (state_of (S.phase stepper.now) (S.wait stepper.now) (S.ending stepper.now) begun)
            pass.old (stopped_at (S.wait stepper.now) (S.ending stepper.now) result) pass.new }
    {
        let mut state = begun;
        for _ in rt.forever() {
            state = match state {
                State::Goes(step) => stepper.step(rt, self, pass, step),
                State::Waits(wait) => return Progress::Waits(wait),
                State::Over(told) => return Progress::Over(told),
            };
        }
        unreachable!()
    }

    /// Waits until the wait of a call is over. Returns the state of the call afterwards: it
    /// continues, or is over because a gate is worn out. It still waits only if no count can be
    /// above the value of its wait.
    fn wait_out<S: Waiter>(
        &self,
        rt: &impl MayWait,
        pass: &mut Pass,
        stepper: &S,
        wait: S::Wait,
    ) -> State<S::Step, S::Wait, S::Done>
        requires pass { AreOf self.now pass.old.seats }
        requires can { S.can stepper.now (State.Waits wait) }
        ensures pass { AreOf self.now pass.new.seats }
        ensures can { S.can stepper.now result }
        ensures ended { EndsWait (S.wait stepper.now wait) pass.old
            (state_of (S.phase stepper.now) (S.wait stepper.now) (S.ending stepper.now) result)
            pass.new }
    {
        let (count, above) = stepper.awaited(&wait);
        match self.wait_above(rt, pass, count, above) {
            Waited::Above(value) => State::Goes(stepper.resume(wait, value)),
            Waited::Still => State::Waits(wait),
            Waited::Worn => State::Over(Err(Errno::EOVERFLOW)),
        }
    }
}
