//! The seats: of a thread that sleeps, and of one that has made its call.
use crate::view::View;
use std::marker::Model;

/// The right to make steps on the words.
pub(crate) type Token = atomic_table::Seat<(), View>;

/// The right of a thread to sleep on the doorbell that it has entered, and to leave it. It works
/// only with the `Doorbells` that it came from.
#[derive(Drop)]
pub struct Sleeper {
    pub(crate) token: Token,
    /// The number of the first word of the doorbell.
    pub(crate) at: usize,
    /// The number of strokes that it has read.
    pub(crate) strokes: u64,
}

impl Model for Sleeper {
    ghost use Rattle.sysv_doorbells.specs.Seats.{SleeperEnd};

    ghost Value = { SleeperEnd };

    ghost use Rattle.sysv_doorbells.specs.Held.{sleeper_of, IsSleeper};

    ghost view = { sleeper_of };

    ghost invariant = { IsSleeper };
}

/// What a thread has done in a call, for proofs. It has no further use.
#[derive(Drop)]
pub struct Trace {
    pub(crate) token: Token,
}

impl Model for Trace {
    ghost use Rattle.sysv_doorbells.specs.Seats.{TraceEnd};

    ghost Value = { TraceEnd };

    ghost use Rattle.sysv_doorbells.specs.Held.{trace_of};

    ghost view = { trace_of };
}
