//! The rule of the word, and the kinds of step that it allows.
use crate::view::View;
use atomic_table::{Join, Play, Split, TableRule};

/// The rule of the word.
pub(crate) struct Counting;

impl TableRule<(), View, u64> for Counting {
    ghost use Rattle.sysv_eventcount.specs.Rule.{OneWord, start};

    ghost holds = { OneWord };

    ghost first = { start };
}

/// A load that sees the word.
pub(crate) struct Looking;

impl Play<(), View> for Looking {
    ghost use Rattle.sysv_eventcount.specs.Steps.{Looks};

    ghost then = { Looks };
}

/// A load that clears the seat for one addition if it finds the word below the limit.
pub(crate) struct Clearing;

impl Play<(), View> for Clearing {
    ghost use Rattle.sysv_eventcount.specs.Steps.{Clears};

    ghost then = { Clears };
}

/// The addition.
pub(crate) struct Adding;

impl Play<(), View> for Adding {
    ghost use Rattle.sysv_eventcount.specs.Steps.{Adds};

    ghost then = { Adds };
}

/// A load that shows that the seat's allowance is at most the whole.
pub(crate) struct Weighing;

impl Play<(), View> for Weighing {
    ghost use Rattle.sysv_eventcount.specs.Steps.{Weighs};

    ghost then = { Weighs };
}

/// A split: a 64th of the allowance moves to a new seat.
pub(crate) struct Share;

impl Split<View> for Share {
    ghost use Rattle.sysv_eventcount.specs.Steps.{left_of, given_of};

    ghost left = { left_of };

    ghost right = { given_of };
}

/// A join: one seat is merged into another.
pub(crate) struct Merge;

impl Join<View> for Merge {
    ghost use Rattle.sysv_eventcount.specs.Steps.{both_of, spent};

    ghost both = { both_of };

    ghost spent = { spent };
}
