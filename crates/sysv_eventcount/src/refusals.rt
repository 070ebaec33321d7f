//! The errors of this crate.
use thiserror::Error;

/// The reasons why an eventcount or a sequencer was not opened.
#[derive(Clone, Copy, Debug, PartialEq, Eq, Error)]
pub enum OpenRefused {
    /// The word could not be allocated.
    #[error("out of memory")]
    NoMemory,
    /// The first value is above 2^62.
    #[error("the first value is above 2^62")]
    BadStart,
}

/// The seat's allowance is below 64, so it cannot be split.
#[derive(Clone, Copy, Debug, PartialEq, Eq, Error)]
#[error("the allowance is too small to be split")]
pub struct TooMany;

/// The word has reached 2^62, and nothing was added.
#[derive(Clone, Copy, Debug, PartialEq, Eq, Error)]
#[error("the count is worn out")]
pub struct Worn;
