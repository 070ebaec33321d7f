//! The knowledge of an end of a `OneBuffer`. It exists only in proofs: no value of it is made.
use std::collections::LinkedList;

/// The end that a view belongs to.
pub enum Role {
    /// Both ends, until the buffer is opened.
    Both,
    /// The producer's end.
    Producer,
    /// The consumer's end.
    Consumer,
}

/// What one end knows of its buffer.
pub struct View<T> {
    pub role: Role,
    /// The items put: all of them at the producer's end, and those that it has seen at the
    /// consumer's end.
    pub put: LinkedList<T>,
    /// The number of items taken: all of them at the consumer's end, and those that it has seen
    /// taken at the producer's end.
    pub taken: u64,
    /// Whether this end holds a cell.
    pub holds: bool,
}
