//! The knowledge of a seat of a `ManyBuffer`. It exists only in proofs: no value of it is made.
use std::collections::LinkedList;

/// What one seat knows of its buffer.
pub struct Sight<T> {
    /// The items put, as far as the seat has seen them.
    pub seen: LinkedList<T>,
    /// The items that the seat that was last joined into it had seen.
    pub told: LinkedList<T>,
    /// The number of items that the seat has seen taken. At least this number were taken.
    pub gone: u64,
    /// The places of the seat's own items in the list of items put.
    pub puts: LinkedList<u64>,
    /// The places of the items that the seat took.
    pub takes: LinkedList<u64>,
    /// The ticket for a put that the seat holds, if it holds one.
    pub put_ticket: LinkedList<u64>,
    /// The ticket for a take that the seat holds, if it holds one.
    pub take_ticket: LinkedList<u64>,
    /// Whether the seat holds an empty cell.
    pub fills: bool,
    /// Whether the seat holds the cell of an item.
    pub empties: bool,
}
