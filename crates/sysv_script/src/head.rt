//! The lines that a script prints.
ghost use Rattle.std.specs.Prelude.{◌≡◌, Some};
ghost use Rattle.sysv_core.specs.Standing.{of_state};
ghost use Rattle.sysv_script.specs.Names.{standing_text};
ghost use Rattle.sysv_script.specs.Heads.{head_text};

use crate::names::{Operation, Step};
use crate::printed::Printed;
use std::fmt;
use sysv_core::{Doing, Outcome};

/// A line of the output, without the bytes of a message that may follow.
#[derive(Clone, Copy)]
pub enum Head {
    /// A call of the actor is over.
    Answers {
        actor: u32,
        operation: Operation,
        outcome: Outcome,
    },
    /// A call of the actor is before this step.
    At {
        actor: u32,
        operation: Operation,
        step: Step,
    },
    /// A call of the actor waits for a count.
    Waits {
        actor: u32,
        operation: Operation,
    },
    /// The actor is in a call, and cannot start another one.
    Busy {
        actor: u32,
    },
    /// The actor is in no call.
    Idle {
        actor: u32,
    },
    /// The world is worn out.
    Worn {
        actor: u32,
    },
    /// The line with this number is bad.
    Bad {
        number: u32,
    },
}

impl Head {
    /// Returns the line for an actor that is in this call.
    pub fn of_doing(actor: u32, doing: &Doing) -> Head
        ensures { head_text result ≡ of_state (λ kind state. standing_text actor state) doing.now }
    {
        let operation = Operation::of_doing(doing);
        match Step::of_doing(doing) {
            Some(step) => Head::At {
                actor,
                operation,
                step,
            },
            None => Head::Waits { actor, operation },
        }
    }
}

impl fmt::Display for Head {
    ghost output = { λ head. Some (head_text head) };

    fn fmt<W: fmt::Write>(&self, f: &mut fmt::Formatter<W>) -> fmt::Result {
        match self {
            Head::Answers {
                actor,
                operation,
                outcome,
            } => write!(f, "{actor} {operation} {}", Printed(*outcome)),
            Head::At {
                actor,
                operation,
                step,
            } => write!(f, "{actor} {operation} at {step}"),
            Head::Waits { actor, operation } => write!(f, "{actor} {operation} waits"),
            Head::Busy { actor } => write!(f, "{actor} busy"),
            Head::Idle { actor } => write!(f, "{actor} idle"),
            Head::Worn { actor } => write!(f, "{actor} worn"),
            Head::Bad { number } => write!(f, "line {number}: bad"),
        }
    }
}
