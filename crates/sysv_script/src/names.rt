//! The names of calls and their steps in a script.
ghost use Rattle.std.specs.Prelude.{◌≡◌, ℕ, List, Some, option_map};
ghost use Rattle.sysv_steps.specs.Seen.{get_phase, send_phase, receive_phase, set_phase, remove_phase};
ghost use Rattle.sysv_steps.specs.Pending.{kind_at, kind_waiting, phase_of};
ghost use Rattle.sysv_core.specs.Standing.{of_state, doing_state};
ghost use Rattle.sysv_script.specs.Names.{operation_as, operation_of, step_in, step_now};
ghost use Rattle.sysv_script.specs.SaidBy.{call_asked};
ghost use Rattle.sysv_script.specs.Heads.{operation_name, step_name};

use crate::call::Text;
use std::fmt;
use sysv_core::Doing;
use sysv_steps::{Call, GetStep, Pending, ReceiveStep, RemoveStep, SendStep, SetStep, Waiting};

/// The kind of a call.
#[derive(Clone, Copy)]
pub enum Operation {
    /// `msgget`.
    Get,
    /// `msgsnd`.
    Send,
    /// `msgrcv`.
    Receive,
    /// `msgctl` with IPC_STAT.
    Stat,
    /// `msgctl` with IPC_SET.
    Set,
    /// `msgctl` with IPC_RMID.
    Remove,
}

impl Operation {
    /// Returns the kind of the call that a line starts.
    pub fn of_call(call: &Call<Text<'_>, ()>) -> Operation
        ensures { result ≡ operation_of (call_asked call.now) }
    {
        match call {
            Call::Get { .. } => Operation::Get,
            Call::Send { .. } => Operation::Send,
            Call::Receive { .. } => Operation::Receive,
            Call::Stat { .. } => Operation::Stat,
            Call::Set { .. } => Operation::Set,
            Call::Remove { .. } => Operation::Remove,
        }
    }

    /// Returns the kind of a pending call.
    pub fn of_doing(doing: &Doing) -> Operation
        ensures { operation_as (doing_state doing.now).kind ≡ result }
    {
        match &doing.pending {
            Pending::At(step) => Operation::of_step(step),
            Pending::Waits(wait) => Operation::of_wait(wait),
        }
    }

    /// Returns the kind of the call that is before this step.
    fn of_step(step: &sysv_steps::Step) -> Operation
        ensures { operation_as (kind_at step.now) ≡ result }
    {
        match step {
            sysv_steps::Step::Get(_) => Operation::Get,
            sysv_steps::Step::Send(_) => Operation::Send,
            sysv_steps::Step::Receive(_) => Operation::Receive,
            sysv_steps::Step::Stat(_) => Operation::Stat,
            sysv_steps::Step::Set(_) => Operation::Set,
            sysv_steps::Step::Remove(_) => Operation::Remove,
        }
    }

    /// Returns the kind of the call that is in this wait.
    fn of_wait(wait: &Waiting) -> Operation
        ensures { operation_as (kind_waiting wait.now) ≡ result }
    {
        match wait {
            Waiting::Get(_) => Operation::Get,
            Waiting::Send(_) => Operation::Send,
            Waiting::Receive(_) => Operation::Receive,
        }
    }
}

impl fmt::Display for Operation {
    ghost output = { λ operation. Some (operation_name operation) };

    fn fmt<W: fmt::Write>(&self, f: &mut fmt::Formatter<W>) -> fmt::Result {
        f.write_str(match self {
            Operation::Get => "get",
            Operation::Send => "snd",
            Operation::Receive => "rcv",
            Operation::Stat => "stat",
            Operation::Set => "set",
            Operation::Remove => "rm",
        })
    }
}

/// The step before which a call is.
#[derive(Clone, Copy)]
pub enum Step {
    /// The registry finds the queue of a key, or makes an identifier.
    Begin,
    /// A new queue is installed.
    Install,
    /// The registry records that the queue was installed.
    Settle,
    /// The slot reports whether the queue that was found is live and may be used.
    Probe,
    /// The registry forgets an identifier.
    Forget,
    /// The slot reports whether the body of a send would fit.
    Look,
    /// The pool reserves blocks for a send.
    Reserve,
    /// The body of a send is put on the queue.
    Place,
    /// A chain of blocks is released at the pool.
    Giveback,
    /// A receive takes a message.
    Take,
    /// The attributes of a queue are read.
    Stat,
    /// The owner, mode and limit of a queue are changed.
    Set,
    /// A queue is removed.
    Remove,
}

impl Step {
    /// Returns the next step of a pending call, or `None` if the call waits.
    pub(crate) fn of_doing(doing: &Doing) -> Option<Step>
        ensures { option_map step_name result ≡ of_state (λ kind state. step_now state) doing.now }
    {
        match &doing.pending {
            Pending::At(step) => Some(Step::of_step(step)),
            Pending::Waits(_) => None,
        }
    }

    /// Returns the name of a step.
    fn of_step(step: &sysv_steps::Step) -> Step
        ensures { (text : List ℕ) → step_name result ≡ step_in (phase_of step.now text) }
    {
        match step {
            sysv_steps::Step::Get(step) => Step::of_get(step),
            sysv_steps::Step::Send(step) => Step::of_send(step),
            sysv_steps::Step::Receive(step) => Step::of_receive(step),
            sysv_steps::Step::Stat(_) => Step::Stat,
            sysv_steps::Step::Set(step) => Step::of_set(step),
            sysv_steps::Step::Remove(step) => Step::of_remove(step),
        }
    }

    /// Returns the name of a step of a get.
    fn of_get(step: &GetStep) -> Step
        ensures { step_name result ≡ step_in (get_phase step.now) }
    {
        match step {
            GetStep::Begin(_) => Step::Begin,
            GetStep::Install { .. } => Step::Install,
            GetStep::Settle { .. } => Step::Settle,
            GetStep::Probe { .. } => Step::Probe,
            GetStep::Unmake { .. } => Step::Forget,
        }
    }

    /// Returns the name of a step of a send.
    fn of_send(step: &SendStep) -> Step
        ensures { (text : List ℕ) → step_name result ≡ step_in (send_phase step.now text) }
    {
        match step {
            SendStep::Look(_) => Step::Look,
            SendStep::Reserve(_) => Step::Reserve,
            SendStep::Place { .. } => Step::Place,
            SendStep::Giveback { .. } => Step::Giveback,
        }
    }

    /// Returns the name of a step of a receive.
    fn of_receive(step: &ReceiveStep) -> Step
        ensures { (text : List ℕ) → step_name result ≡ step_in (receive_phase step.now text) }
    {
        match step {
            ReceiveStep::Take(_) => Step::Take,
            ReceiveStep::Giveback { .. } => Step::Giveback,
        }
    }

    /// Returns the name of a step of an IPC_SET.
    fn of_set(step: &SetStep) -> Step
        ensures { step_name result ≡ step_in (set_phase step.now) }
    {
        match step {
            SetStep::Set { .. } => Step::Set,
            SetStep::Giveback => Step::Giveback,
        }
    }

    /// Returns the name of a step of an IPC_RMID.
    fn of_remove(step: &RemoveStep) -> Step
        ensures { step_name result ≡ step_in (remove_phase step.now) }
    {
        match step {
            RemoveStep::Remove { .. } => Step::Remove,
            RemoveStep::Forget { .. } => Step::Forget,
            RemoveStep::Giveback { .. } => Step::Giveback,
        }
    }
}

impl fmt::Display for Step {
    ghost output = { λ step. Some (step_name step) };

    fn fmt<W: fmt::Write>(&self, f: &mut fmt::Formatter<W>) -> fmt::Result {
        f.write_str(match self {
            Step::Begin => "begin",
            Step::Install => "install",
            Step::Settle => "settle",
            Step::Probe => "probe",
            Step::Forget => "forget",
            Step::Look => "look",
            Step::Reserve => "reserve",
            Step::Place => "place",
            Step::Giveback => "giveback",
            Step::Take => "take",
            Step::Stat => "stat",
            Step::Set => "set",
            Step::Remove => "remove",
        })
    }
}
