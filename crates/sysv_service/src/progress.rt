//! How far a call has come.

/// How far a call has come after it made all steps that it can make without waiting for a count.
pub enum Progress<W, T> {
    /// The call waits. It holds no blocks and no message, so a caller gives it up by dropping the
    /// wait.
    Waits(W),
    /// The call is over, and this is its result.
    Over(T),
}
