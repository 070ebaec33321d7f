//! What is left of a gate.

/// What a closed gate returns.
#[derive(Debug, Drop)]
pub struct Closing<O> {
    /// The object after all turns. It is `None` if and only if a drawn ticket was not served: a
    /// seat still holds the ticket whose turn it is.
    pub object: Option<O>,
    /// What the slot held, if there is no such object. Nothing is known of it.
    pub rest: Option<O>,
    /// The number of all turns.
    pub turns: u64,
    /// The ticket that would have been drawn next. It is the first ticket plus the number of all
    /// turns if and only if every drawn ticket was served.
    pub next_ticket: u64,
}
