//! The result of a bounded wait.

/// The value that a bounded wait saw last, and whether it reached the goal.
#[derive(Clone, Copy, Debug, PartialEq, Eq)]
pub enum Awaited {
    /// The value is at least the goal.
    Reached(u64),
    /// The value is below the goal.
    Short(u64),
}
