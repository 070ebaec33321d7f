//! The seats of eventcounts and sequencers.
use crate::view::View;
use std::marker::Model;

/// The right of one thread to use an eventcount or a sequencer, and what that thread knows of its
/// value. A seat works only with the object that it came from. It may move to another thread.
#[derive(Drop)]
pub struct Seat {
    pub(crate) token: atomic_table::Seat<(), View>,
    pub(crate) allowance: u64,
}

impl Model for Seat {
    ghost use Rattle.sysv_eventcount.specs.Counter.{Holding};

    ghost Value = { Holding };

    ghost use Rattle.sysv_eventcount.specs.Held.{held, IsAtRest};

    ghost view = { held };

    ghost invariant = { IsAtRest };
}
