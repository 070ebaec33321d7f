//! The faults of a script.

use thiserror::Error;

/// The maximum number of lines of a script.
pub(crate) const SCRIPT_LINES: u32 = 1_000_000;

/// The reason why a script ends before its end.
#[derive(Clone, Copy, PartialEq, Eq, Debug, Error)]
pub enum ScriptFault {
    /// The line with this number is bad. Lines count from 1. A bad line is not understood, or is
    /// longer than 9,000 bytes, or is a `preset` when slot 0 is in use or was used before, or is a
    /// `pool` after any other line that is not skipped.
    #[error("line {0} is bad")]
    Line(u32),
    /// The reader failed.
    #[error("the script cannot be read")]
    Read,
    /// The writer failed, or took no byte.
    #[error("a result cannot be written")]
    Write,
    /// Memory was refused.
    #[error("no memory")]
    NoMemory,
    /// A line begins after line 1,000,000.
    #[error("more than 1000000 lines")]
    Bound,
}
