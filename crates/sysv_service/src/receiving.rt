//! `msgrcv` in pieces.

ghost use Rattle.std.specs.Prelude.{◌≡◌, IfNone, IfSome};
ghost use Rattle.sysv_steps.specs.Call.{Msgrcv};
ghost use Rattle.sysv_steps.specs.Begin.{begin as begins};
ghost use Rattle.sysv_steps.specs.State.{Goes, AtTake, Got};
ghost use Rattle.sysv_steps.specs.Seen.{ending_of, receiving, receive_wait, receive_state};
ghost use Rattle.sysv_steps.specs.Bodies.{IsSized};
ghost use Rattle.sysv_service.specs.Told.{TellsGot};
ghost use Rattle.sysv_service.specs.Seats.{AreOf};
ghost use Rattle.sysv_steps.specs.Giving.{GivesNothing};
ghost use Rattle.sysv_service.specs.Pending.{ReceivesOn, IsReached, StillWaits};

use crate::pass::Pass;
use crate::progress::Progress;
use crate::service::Service;
use crate::shared_count::SharedCount;
use std::sync::Wait as MayWait;
use sysv_model::{Body, Cred, Errno, Flags};
use sysv_queue::Delivery;
use sysv_steps::{Clock, ReceiveState, ReceiveStep, ReceiveWait, Receiving, State};

impl Service {
    /// Begins a `msgrcv`: makes its steps until it waits or is over. It may wait for a turn, but
    /// never for a count. If it waits, `out` is empty. A receive that waits continues by
    /// `msgrcv_look` and `msgrcv_go_on`.
    ///
    /// # Errors
    ///
    /// `Over` holds the result of the receive. The errors are those of `msgrcv`.
    ///
    /// # Conditions
    ///
    /// - `pass` is a pass of this service.
    #[allow(clippy::too_many_arguments)]
    pub fn msgrcv_begin<C: Clock>(
        &self,
        rt: &impl MayWait,
        pass: &mut Pass,
        clock: &C,
        cred: Cred,
        id: i32,
        out: &mut Body,
        size: u32,
        mtype: i64,
        flags: Flags,
    ) -> Progress<ReceiveWait, Result<Delivery, Errno>>
        requires { AreOf self.now pass.old.seats }
        ensures pass { AreOf self.now pass.new.seats }
        ensures ran { ReceivesOn (C.may clock.now) (begins cred (Msgrcv id size mtype flags) 0)
            pass.old result out.new pass.new }
    {
        let begun = Receiving::begin(cred, id, size, mtype, flags);
        self.receive_on(rt, pass, clock, out, begun)
    }

    /// Reads the count for which a receive waits once, and never waits. Returns the receive if the
    /// wait is over, so that `msgrcv_go_on` can continue it, or `None` if it still waits.
    ///
    /// # Conditions
    ///
    /// - `pass` is a pass of this service.
    pub fn msgrcv_look(&self, pass: &mut Pass, wait: &ReceiveWait) -> Option<Receiving>
        requires { AreOf self.now pass.old.seats }
        ensures pass { AreOf self.now pass.new.seats }
        ensures reached { IfSome result (λ receive. IsReached (receive_wait wait.now) pass.old
            (AtTake (receiving receive)) pass.new) }
        ensures below { IfNone result (StillWaits (receive_wait wait.now) pass.old pass.new) }
    {
        let ReceiveWait { above, receive } = *wait;
        self.look(pass, SharedCount::Arrived { id: receive.id }, above)?;
        Some(receive)
    }

    /// Continues a receive whose wait is over: makes its steps until it waits again or is over. It
    /// may wait for a turn, but never for a count. If it waits again, `out` is empty.
    ///
    /// # Errors
    ///
    /// `Over` holds the result of the receive. The errors are those of `msgrcv`.
    ///
    /// # Conditions
    ///
    /// - `pass` is a pass of this service.
    pub fn msgrcv_go_on<C: Clock>(
        &self,
        rt: &impl MayWait,
        pass: &mut Pass,
        clock: &C,
        out: &mut Body,
        receive: Receiving,
    ) -> Progress<ReceiveWait, Result<Delivery, Errno>>
        requires { AreOf self.now pass.old.seats }
        ensures pass { AreOf self.now pass.new.seats }
        ensures ran { ReceivesOn (C.may clock.now) (Goes (AtTake (receiving receive)))
            pass.old result out.new pass.new }
    {
        let begun = State::Goes(ReceiveStep::Take(receive));
        self.receive_on(rt, pass, clock, out, begun)
    }

    /// Makes the steps of a receive that holds no message, until it waits or is over.
    pub(crate) fn receive_on<C: Clock>(
        &self,
        rt: &impl MayWait,
        pass: &mut Pass,
        clock: &C,
        out: &mut Body,
        begun: ReceiveState,
    ) -> Progress<ReceiveWait, Result<Delivery, Errno>>
        requires pass { AreOf self.now pass.old.seats }
        requires nothing { GivesNothing (receive_state begun out.old) }
        ensures pass { AreOf self.now pass.new.seats }
        ensures ran { ReceivesOn (C.may clock.now) (receive_state begun out.old) pass.old result
            out.new pass.new }
    {
        let mut state = begun;
        for _ in rt.forever() {
            state = match state {
                State::Goes(step) => self.receive_step(rt, pass, clock, out, step),
                State::Waits(wait) => {
                    out.clear();
                    return Progress::Waits(wait);
                }
                State::Over(told) => return Progress::Over(given_of(told, out)),
            };
        }
        unreachable!()
    }
}

/// Returns the result of a receive. After an error it empties the body.
fn given_of(told: Result<Delivery, Errno>, out: &mut Body) -> Result<Delivery, Errno>
    requires { IsSized (State.Over told) out.old }
    ensures told { TellsGot (ending_of (λ d. Got d.mtype out.old) told) result out.new }
    ensures same { result ≡ told }
{
    match told {
        Ok(delivery) => Ok(delivery),
        Err(why) => {
            out.clear();
            Err(why)
        }
    }
}
