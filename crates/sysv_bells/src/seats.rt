//! The seats: of those who tell, and of the one who sleeps.
use crate::view::View;
use std::marker::Model;

/// The right to make steps on the words.
pub(crate) type Token = atomic_table::Seat<(), View>;

/// The right of one thread to tell the sleeper and to ring it. It works only with the `Bells` that
/// it came from, and may move to another thread.
#[derive(Drop)]
pub struct Teller {
    pub(crate) token: Token,
}

impl Model for Teller {
    ghost use Rattle.sysv_bells.specs.Seats.{TellerEnd};

    ghost Value = { TellerEnd };

    ghost use Rattle.sysv_bells.specs.Held.{teller_of, IsTellerAtRest};

    ghost view = { teller_of };

    ghost invariant = { IsTellerAtRest };
}

/// The right of the one thread that sleeps. It works only with the `Bells` that it came from, and
/// may move to another thread.
#[derive(Drop)]
pub struct Sleeper {
    pub(crate) token: Token,
}

impl Model for Sleeper {
    ghost use Rattle.sysv_bells.specs.Seats.{SleeperEnd};

    ghost Value = { SleeperEnd };

    ghost use Rattle.sysv_bells.specs.Held.{sleeper_of, IsSleeper};

    ghost view = { sleeper_of };

    ghost invariant = { IsSleeper };
}
