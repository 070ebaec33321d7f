//! Why a frame is not read.
use thiserror::Error;

/// Why a request or a reply could not be read.
#[derive(Clone, Copy, PartialEq, Eq, Debug, Error)]
pub enum Fault {
    /// The input ends within a frame.
    #[error("the input ends within a frame")]
    Truncated,
    /// The length is above the maximum.
    #[error("a frame is too long")]
    TooLong,
    /// No operation of the version has the number.
    #[error("an operation is not known")]
    BadOp,
    /// A field has no meaning: the version, a length below the minimum or not one that the
    /// operation has, and in a reply the error, the mark of a row, or a mode.
    #[error("a field has no meaning")]
    BadField,
    /// The reader failed.
    #[error("the input cannot be read")]
    Read,
}
