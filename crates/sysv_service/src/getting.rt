//! `msgget` in pieces.

ghost use Rattle.std.specs.Prelude.{◌≡◌, IfNone, IfSome};
ghost use Rattle.sysv_steps.specs.Call.{Msgget};
ghost use Rattle.sysv_steps.specs.Begin.{begin as begins};
ghost use Rattle.sysv_steps.specs.State.{Goes, AtBegin};
ghost use Rattle.sysv_steps.specs.Seen.{getting, get_wait};
ghost use Rattle.sysv_service.specs.Seats.{AreOf};
ghost use Rattle.sysv_service.specs.Pending.{GetsOn, IsReached, StillWaits};

use crate::get::GetStepper;
use crate::pass::Pass;
use crate::progress::Progress;
use crate::service::Service;
use crate::shared_count::SharedCount;
use std::sync::Wait as MayWait;
use sysv_model::{Cred, Errno, Flags};
use sysv_steps::{Clock, GetStep, GetWait, Getting, State};

impl Service {
    /// Begins a `msgget`: makes its steps until it waits or is over. It may wait for a turn, but
    /// never for a count. A get that waits continues by `msgget_look` and `msgget_go_on`.
    ///
    /// # Errors
    ///
    /// `Over` holds the result of the get. The errors are those of `msgget`.
    ///
    /// # Conditions
    ///
    /// - `pass` is a pass of this service.
    pub fn msgget_begin<C: Clock>(
        &self,
        rt: &impl MayWait,
        pass: &mut Pass,
        clock: &C,
        cred: Cred,
        key: i32,
        flags: Flags,
    ) -> Progress<GetWait, Result<i32, Errno>>
        requires { AreOf self.now pass.old.seats }
        ensures pass { AreOf self.now pass.new.seats }
        ensures ran { GetsOn (C.may clock.now) (begins cred (Msgget key flags) 0) pass.old result
            pass.new }
    {
        self.run_on(
            rt,
            pass,
            &GetStepper { clock },
            Getting::begin(cred, key, flags),
        )
    }

    /// Reads the count for which a get waits once, and never waits. Returns the get if the wait is
    /// over, so that `msgget_go_on` can continue it, or `None` if it still waits.
    ///
    /// # Conditions
    ///
    /// - `pass` is a pass of this service.
    pub fn msgget_look(&self, pass: &mut Pass, wait: &GetWait) -> Option<Getting>
        requires { AreOf self.now pass.old.seats }
        ensures pass { AreOf self.now pass.new.seats }
        ensures reached { IfSome result (λ get. IsReached (get_wait wait.now) pass.old
            (AtBegin (getting get)) pass.new) }
        ensures below { IfNone result (StillWaits (get_wait wait.now) pass.old pass.new) }
    {
        let GetWait { above, get } = *wait;
        self.look(pass, SharedCount::Settled, above)?;
        Some(get)
    }

    /// Continues a get whose wait is over: makes its steps until it waits again or is over. It may
    /// wait for a turn, but never for a count.
    ///
    /// # Errors
    ///
    /// `Over` holds the result of the get. The errors are those of `msgget`.
    ///
    /// # Conditions
    ///
    /// - `pass` is a pass of this service.
    pub fn msgget_go_on<C: Clock>(
        &self,
        rt: &impl MayWait,
        pass: &mut Pass,
        clock: &C,
        get: Getting,
    ) -> Progress<GetWait, Result<i32, Errno>>
        requires { AreOf self.now pass.old.seats }
        ensures pass { AreOf self.now pass.new.seats }
        ensures ran { GetsOn (C.may clock.now) (Goes (AtBegin (getting get))) pass.old result
            pass.new }
    {
        self.run_on(
            rt,
            pass,
            &GetStepper { clock },
            State::Goes(GetStep::Begin(get)),
        )
    }
}
