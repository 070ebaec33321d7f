//! The rule of the table of a `ManyBuffer`, and the kinds of step that it allows.
use crate::many_view::Sight;
use atomic_table::{Join, Play, Split, TableRule};
use std::marker::PhantomData;

/// The rule of the table.
pub(crate) struct Crowding<T> {
    item: PhantomData<T>,
}

impl<T> TableRule<Option<T>, Sight<T>, ()> for Crowding<T> {
    ghost use Rattle.sysv_buffer.specs.ManyRing.{Crowded, first_sight};

    ghost holds = { λ _. Crowded };

    ghost first = { λ _. first_sight };
}

/// The compare-exchange that draws a ticket for a put.
pub(crate) struct DrawingPut;

impl<T> Play<Option<T>, Sight<T>> for DrawingPut {
    ghost use Rattle.sysv_buffer.specs.ManySteps.{DrawsPut};

    ghost then = { DrawsPut };
}

/// The compare-exchange that draws a ticket for a take.
pub(crate) struct DrawingTake;

impl<T> Play<Option<T>, Sight<T>> for DrawingTake {
    ghost use Rattle.sysv_buffer.specs.ManySteps.{DrawsTake};

    ghost then = { DrawsTake };
}

/// A load of IN, which shows all items that were put.
pub(crate) struct CountingPut;

impl<T> Play<Option<T>, Sight<T>> for CountingPut {
    ghost use Rattle.sysv_buffer.specs.ManySteps.{CountsPut};

    ghost then = { CountsPut };
}

/// A load of OUT.
pub(crate) struct CountingTaken;

impl<T> Play<Option<T>, Sight<T>> for CountingTaken {
    ghost use Rattle.sysv_buffer.specs.ManySteps.{CountsTaken};

    ghost then = { CountsTaken };
}

/// The next producer's load of OUT, which takes the next cell out of the table if a cell is empty.
pub(crate) struct ReachingRoom;

impl<T> Play<Option<T>, Sight<T>> for ReachingRoom {
    ghost use Rattle.sysv_buffer.specs.ManySteps.{ReachesRoom};

    ghost then = { ReachesRoom };
}

/// The next consumer's load of IN, which takes the cell of the next item out of the table if there
/// is an item.
pub(crate) struct ReachingItem;

impl<T> Play<Option<T>, Sight<T>> for ReachingItem {
    ghost use Rattle.sysv_buffer.specs.ManySteps.{ReachesItem};

    ghost then = { ReachesItem };
}

/// The addition to IN, which returns the cell to the table.
pub(crate) struct Placing;

impl<T> Play<Option<T>, Sight<T>> for Placing {
    ghost use Rattle.sysv_buffer.specs.ManySteps.{Places};

    ghost then = { Places };
}

/// The addition to OUT, which returns the empty cell to the table.
pub(crate) struct Removing;

impl<T> Play<Option<T>, Sight<T>> for Removing {
    ghost use Rattle.sysv_buffer.specs.ManySteps.{Removes};

    ghost then = { Removes };
}

/// A split: a new seat is made from another.
pub(crate) struct Sharing;

impl<T> Split<Sight<T>> for Sharing {
    ghost use Rattle.sysv_buffer.specs.ManySteps.{beside};

    ghost left = { λ v. v };

    ghost right = { beside };
}

/// A join: one seat is merged into another.
pub(crate) struct Gathering;

impl<T> Join<Sight<T>> for Gathering {
    ghost use Rattle.sysv_buffer.specs.ManySteps.{both_of};
    ghost use Rattle.sysv_buffer.specs.ManyRing.{first_sight};

    ghost both = { both_of };

    ghost spent = { first_sight };
}
