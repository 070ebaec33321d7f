//! What a call returns to its caller.

use sysv_model::{Errno, Stat};

/// How a call ended, as its caller is told. The body that a receive brought is beside it.
#[derive(Clone, Copy, PartialEq, Eq, Debug)]
pub enum Outcome {
    /// A get succeeded. The value is the identifier of the queue.
    Id(i32),
    /// The call succeeded and returns no value.
    Zero,
    /// A receive succeeded. `mtype` is the type of the message, and `len` is the number of bytes
    /// that were returned.
    Got { mtype: i64, len: usize },
    /// The attributes of the queue.
    Stat(Stat),
    /// The call failed with this error.
    Refused(Errno),
}
