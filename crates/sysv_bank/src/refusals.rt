//! The error of a split, which this implementation never returns.
use thiserror::Error;

/// There is no memory for another seat.
#[derive(Debug, Clone, Copy, PartialEq, Eq, Error)]
#[error("no memory")]
pub struct NoMemory;
