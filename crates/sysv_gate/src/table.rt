//! One table for several places, its rule, and the kinds of step that it allows.
pub(crate) mod close;
pub(crate) mod laying;
pub(crate) mod passes;
pub(crate) mod place;
pub(crate) mod view;
pub(crate) mod words;

use crate::object::Object;
use crate::table::place::Place;
use crate::table::view::Sight;
use atomic_table::{Join, Play, Split, Table, TableRule};
use std::alloc::Global;
use std::marker::PhantomData;
use std::snapshot::Snapshot;

/// A slot of the table.
pub(crate) type Spot<O> = Option<Place<O, <O as Object>::Call, <O as Object>::Reply>>;

/// What a pass knows of the table.
type Knows<O> = Sight<O, <O as Object>::Call, <O as Object>::Reply>;

/// The table of several places.
pub type PlaceTable<O> = Table<Spot<O>, Knows<O>, TableKey<O>, PlaceTableRule<O>, Global>;

/// The right to take turns at each place of a table.
pub type TableToken<O> = atomic_table::Seat<Spot<O>, Knows<O>>;

/// What is fixed when the table is laid: the objects, for proofs only, and the first ticket.
pub struct TableKey<O> {
    /// The objects that were at the places when the table was laid.
    pub openings: Snapshot<Vec<O, Global>>,
    /// The first ticket of each place.
    pub first: u64,
}

impl<O> Drop for TableKey<O> {
    fn drop(self) {
        let TableKey {
            openings: _,
            first: _,
        } = self;
    }
}

/// The rule of the table.
pub struct PlaceTableRule<O> {
    object: PhantomData<O>,
}

impl<O: Object> TableRule<
    Option<Place<O, O::Call, O::Reply>>,
    Sight<O, O::Call, O::Reply>,
    TableKey<O>,
> for PlaceTableRule<O> {
    ghost use Rattle.sysv_gate.specs.History.{Moves};
    ghost use Rattle.sysv_gate.specs.Tables.{InOrder, outset};

    ghost holds = { λ key. InOrder (Moves O.meaning O.counted) O.counted key.openings.value.items
        key.first };

    ghost first = { λ key. outset key.openings.value.items key.first };
}

/// A load of the ticket that is drawn next.
pub(crate) struct Weighing;

impl<O, C, R> Play<Option<Place<O, C, R>>, Sight<O, C, R>> for Weighing {
    ghost use Rattle.sysv_gate.specs.Steps.{Weighs};
    ghost use Rattle.sysv_gate.specs.Plays.{AddsNone};

    ghost then = { AddsNone Weighs };
}

/// The compare-exchange that draws a ticket.
pub(crate) struct Drawing;

impl<O, C, R> Play<Option<Place<O, C, R>>, Sight<O, C, R>> for Drawing {
    ghost use Rattle.sysv_gate.specs.Steps.{Draws};
    ghost use Rattle.sysv_gate.specs.Plays.{AddsNone};

    ghost then = { AddsNone Draws };
}

/// A load of the ticket that is served. It begins the seat's turn if the seat holds that ticket.
pub(crate) struct Looking<O> {
    object: PhantomData<O>,
}

impl<O: Object> Play<Option<Place<O, O::Call, O::Reply>>, Sight<O, O::Call, O::Reply>>
    for Looking<O> {
    ghost use Rattle.sysv_gate.specs.History.{Moves};
    ghost use Rattle.sysv_gate.specs.Steps.{Turns};
    ghost use Rattle.sysv_gate.specs.Plays.{AddsNone};

    ghost then = { AddsNone (Turns (Moves O.meaning O.counted) O.counted) };
}

/// The compare-exchange that draws the ticket that is already served, and begins its turn.
pub(crate) struct Entering<O> {
    object: PhantomData<O>,
}

impl<O: Object> Play<Option<Place<O, O::Call, O::Reply>>, Sight<O, O::Call, O::Reply>>
    for Entering<O> {
    ghost use Rattle.sysv_gate.specs.History.{Moves};
    ghost use Rattle.sysv_gate.specs.Steps.{Enters};
    ghost use Rattle.sysv_gate.specs.Plays.{AddsNone};

    ghost then = { AddsNone (Enters (Moves O.meaning O.counted) O.counted) };
}

/// The addition to the word of a count, in a turn in which that count has risen.
pub(crate) struct Announcing;

impl<O, C, R> Play<Option<Place<O, C, R>>, Sight<O, C, R>> for Announcing {
    ghost use Rattle.sysv_gate.specs.Steps.{Announces};
    ghost use Rattle.sysv_gate.specs.Plays.{AddsNone};

    ghost then = { AddsNone Announces };
}

/// A load of the word of a count.
pub(crate) struct Reading<O> {
    object: PhantomData<O>,
}

impl<O: Object> Play<Option<Place<O, O::Call, O::Reply>>, Sight<O, O::Call, O::Reply>>
    for Reading<O> {
    ghost use Rattle.sysv_gate.specs.Steps.{Reads};
    ghost use Rattle.sysv_gate.specs.Plays.{AddsNone};

    ghost then = { AddsNone (Reads O.counted) };
}

/// The addition that ends a turn. It enters the turn into the history and returns the object to its
/// slot. It shows the whole order, and so bounds what the pass has read of the counts.
pub(crate) struct Ending<O> {
    object: PhantomData<O>,
}

impl<O: Object> Play<Option<Place<O, O::Call, O::Reply>>, Sight<O, O::Call, O::Reply>>
    for Ending<O> {
    ghost use Rattle.sysv_gate.specs.History.{Moves};
    ghost use Rattle.sysv_gate.specs.Plays.{EndsInOrder};

    ghost then = { EndsInOrder (Moves O.meaning O.counted) O.counted };
}

/// A load that assigns a new seat its number.
pub(crate) struct Naming;

impl<O, C, R> Play<Option<Place<O, C, R>>, Sight<O, C, R>> for Naming {
    ghost use Rattle.sysv_gate.specs.Plays.{Names};

    ghost then = { Names };
}

/// A load after a join. It shows a history that begins with what either seat had seen.
pub(crate) struct Merging<O> {
    object: PhantomData<O>,
}

impl<O: Object> Play<Option<Place<O, O::Call, O::Reply>>, Sight<O, O::Call, O::Reply>>
    for Merging<O> {
    ghost use Rattle.sysv_gate.specs.History.{Moves};
    ghost use Rattle.sysv_gate.specs.Plays.{Merges};

    ghost then = { λ st m n m'. Merges (Moves O.meaning O.counted) m m' };
}

/// A split: a new seat is made from another.
pub(crate) struct Sharing;

impl<O, C, R> Split<Sight<O, C, R>> for Sharing {
    ghost use Rattle.sysv_gate.specs.Plays.{halved, newcomer};

    ghost left = { halved };

    ghost right = { newcomer };
}

/// A join: one seat is merged into another.
pub(crate) struct Gathering;

impl<O, C, R> Join<Sight<O, C, R>> for Gathering {
    ghost use Rattle.sysv_gate.specs.Plays.{both_of, spent};

    ghost both = { both_of };

    ghost spent = { spent };
}
