//! What looks at parked calls find.

/// What a look at a parked call found.
#[derive(Clone, Copy, PartialEq, Eq, Debug)]
pub enum Found {
    /// The call still waits for the same.
    Nothing,
    /// The call waits for something else.
    Else,
    /// The call is over, and took a message of the type for which it was looked at.
    Message,
    /// The call is over otherwise.
    Over,
}

/// What came of a message that has arrived.
#[derive(Clone, Copy, PartialEq, Eq, Debug)]
pub enum LookedFor {
    /// A receive took a message of its type.
    Taken,
    /// A receive that requests messages of its type found none.
    Gone,
    /// No parked receive requests messages of its type.
    Unwanted,
    /// The share of looks was used up before.
    Short,
}
