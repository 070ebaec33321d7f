//! The knowledge of a seat. It exists only in proofs: no value of these types is made.
use std::collections::LinkedList;

/// One turn at the object.
pub struct Turn<O, C, R> {
    /// The number of the seat that made the turn.
    pub by: u64,
    /// The call.
    pub call: C,
    /// The reply of the object.
    pub reply: R,
    /// The object after the turn.
    pub after: O,
}

/// What one seat knows of its gate.
pub struct View<O, C, R> {
    /// The object that the gate was opened with, unless the seat was joined into another.
    pub opening: Option<O>,
    /// The gate's first ticket.
    pub first: u64,
    /// The number under which the seat makes its turns.
    pub number: u64,
    /// That number, and those of the seats that were joined into this one.
    pub numbers: LinkedList<u64>,
    /// The history that the seat has seen.
    pub seen: LinkedList<Turn<O, C, R>>,
    /// The history that a seat had seen that was joined into this one, until the next look.
    pub also: LinkedList<Turn<O, C, R>>,
    /// The places in the history of the turns that were made under the seat's numbers.
    pub own: LinkedList<u64>,
    /// The ticket that the seat holds, if it holds one.
    pub tickets: LinkedList<u64>,
    /// Whether it is the seat's turn.
    pub in_turn: bool,
    /// Whether the seat has found that the tickets have reached 2^62.
    pub worn: bool,
    /// The greatest values of the two counts that the seat has read.
    pub read: (u64, u64),
    /// What the seat has added to the two counts in its turn.
    pub announced: (u64, u64),
    /// Whether no other seat was ever split off.
    pub alone: bool,
}

/// One turn at one of several places.
pub struct Placed<O, C, R> {
    /// The place of the turn.
    pub place: u64,
    /// The turn.
    pub turn: Turn<O, C, R>,
}

/// What one pass knows of several places that share a table.
pub struct Sight<O, C, R> {
    /// What the pass knows of each place.
    pub views: LinkedList<View<O, C, R>>,
    /// The order of the turns at all places, as far as the pass has seen it.
    pub seen: LinkedList<Placed<O, C, R>>,
    /// The order that a pass had seen that was joined into this one, until the next look.
    pub also: LinkedList<Placed<O, C, R>>,
    /// The pass's share of the table, as a list of depths. Depth d is the part 2^-d.
    pub shares: LinkedList<u64>,
}
