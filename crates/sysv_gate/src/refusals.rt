//! The errors of this crate. Each holds what was handed in.

/// The reasons why a gate was not opened. The error holds the object.
#[derive(Debug, Drop)]
pub enum OpenRefused<O> {
    /// There is no memory for the table of the gate.
    NoMemory(O),
    /// The first ticket is above 2^62.
    BadStart(O),
}

/// The tickets have reached 2^62, so no ticket was drawn. The error holds the call.
#[derive(Debug, Drop)]
pub struct Worn<C> {
    /// The call that was not made.
    pub call: C,
}

/// The reasons why a try made no turn. The error holds the call.
#[derive(Debug, Drop)]
pub enum TryRefused<C> {
    /// Another seat holds a ticket, or drew one first.
    Busy(C),
    /// The tickets have reached 2^62.
    Worn(C),
}
