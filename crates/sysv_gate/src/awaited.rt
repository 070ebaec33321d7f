//! The result of a wait for a count.

/// The result of a wait for a count.
#[derive(Debug, Clone, Copy, PartialEq, Eq)]
pub enum Awaited {
    /// The count is at least the goal. The number is the count that was read.
    Reached(u64),
    /// The count was below the goal, and the tickets had reached 2^62.
    Worn,
}
