//! The knowledge of a seat.
use std::collections::LinkedList;

/// What the rule of the word records of one seat. It exists only in proofs: no value of this type
/// is made.
pub struct View {
    /// The first value of the word.
    pub first: u64,
    /// The greatest value that the seat has seen.
    pub seen: u64,
    /// The numbers that the seat's own additions found.
    pub own: LinkedList<u64>,
    pub allowance: u64,
    /// Whether the seat is cleared for one addition.
    pub cleared: bool,
}
