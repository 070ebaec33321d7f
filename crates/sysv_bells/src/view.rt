//! The knowledge of a seat. It exists only in proofs: no value of these types is made.
use std::collections::LinkedList;

/// Where a seat is in its call.
pub enum Stage {
    /// A teller between two calls.
    Idle,
    /// A teller that has set a bit and not rung yet.
    Told,
    /// A teller that has rung and has not looked yet whether the sleeper sleeps.
    Rung,
    /// The sleeper, awake.
    Awake,
    /// The sleeper has said that it sleeps, and may not sleep.
    Announced,
    /// The sleeper sleeps: it found that nobody had rung after it said so.
    Asleep,
}

/// Bits that a seat set in a word, or saw set in it.
pub struct Telling {
    /// The number of the word in the table.
    pub word: u64,
    /// The bits.
    pub bits: u64,
    /// The number of takings before.
    pub since: u64,
}

/// A word that the sleeper took.
pub struct Taking {
    /// The number of the word in the table.
    pub word: u64,
    /// The word before it became 0.
    pub bits: u64,
}

/// What the rule of the words records of one seat.
pub struct View {
    /// Where the seat is in its call.
    pub stage: Stage,
    /// The number of times that the seat has rung.
    pub rings: u64,
    /// The number of times that the seat has taken the sleeper's word that it sleeps. After each of
    /// them it has to write the doorbell.
    pub bells: u64,
    /// What the seat has told.
    pub told: LinkedList<Telling>,
    /// The words that the sleeper has taken.
    pub taken: LinkedList<Taking>,
    /// The first word that the sleeper has still to read since it last took the rings.
    pub from: u64,
    /// The number of rings, of all seats together, when the sleeper last took them.
    pub heard: u64,
    /// The number of rings, of all seats together, when the sleeper last looked at them.
    pub seen: u64,
    /// The number of `bells`, of all seats together, when the sleeper last said that it sleeps.
    pub since: u64,
}
