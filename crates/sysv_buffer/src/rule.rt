//! The rule of the table of a `OneBuffer`, and the kinds of step that it allows.
use crate::view::View;
use atomic_table::{Play, Split, TableRule};
use std::marker::PhantomData;

/// The rule of the table.
pub(crate) struct Buffering<T> {
    item: PhantomData<T>,
}

impl<T> TableRule<Option<T>, View<T>, ()> for Buffering<T> {
    ghost use Rattle.sysv_buffer.specs.Ring.{Kept, start};

    ghost holds = { λ _. Kept };

    ghost first = { λ _. start };
}

/// The producer's load of IN.
pub(crate) struct CountingIn;

impl<T> Play<Option<T>, View<T>> for CountingIn {
    ghost use Rattle.sysv_buffer.specs.Steps.{CountsIn};

    ghost then = { CountsIn };
}

/// The producer's load of OUT, which takes the next cell out of the table if a cell is empty.
pub(crate) struct Reaching;

impl<T> Play<Option<T>, View<T>> for Reaching {
    ghost use Rattle.sysv_buffer.specs.Steps.{Reaches};

    ghost then = { Reaches };
}

/// The producer's addition to IN, which returns the cell to the table.
pub(crate) struct Putting;

impl<T> Play<Option<T>, View<T>> for Putting {
    ghost use Rattle.sysv_buffer.specs.Steps.{Puts};

    ghost then = { Puts };
}

/// The consumer's load of OUT.
pub(crate) struct CountingOut;

impl<T> Play<Option<T>, View<T>> for CountingOut {
    ghost use Rattle.sysv_buffer.specs.Steps.{CountsOut};

    ghost then = { CountsOut };
}

/// The consumer's load of IN, which takes the cell of the next item out of the table if there is an
/// item.
pub(crate) struct Looking;

impl<T> Play<Option<T>, View<T>> for Looking {
    ghost use Rattle.sysv_buffer.specs.Steps.{Looks};

    ghost then = { Looks };
}

/// The consumer's addition to OUT, which returns the empty cell to the table.
pub(crate) struct Taking;

impl<T> Play<Option<T>, View<T>> for Taking {
    ghost use Rattle.sysv_buffer.specs.Steps.{Takes};

    ghost then = { Takes };
}

/// The split of the first seat into the two ends.
pub(crate) struct Parting;

impl<T> Split<View<T>> for Parting {
    ghost use Rattle.sysv_buffer.specs.Steps.{first_producer, first_consumer};

    ghost left = { first_producer };

    ghost right = { first_consumer };
}
