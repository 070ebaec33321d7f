//! The errors of this crate.
use thiserror::Error;

/// The reasons why the items of a source were not all run.
#[derive(Clone, Copy, PartialEq, Eq, Debug, Error)]
pub enum WorkersFault {
    /// There is no state, or there are more states than the function allows.
    #[error("a number of workers out of range")]
    BadCount,
    /// Memory was refused.
    #[error("no memory")]
    NoMemory,
    /// A thread could not be started, and no item was run.
    #[error("no thread")]
    Thread,
    /// The buffer between the source and the workers was worn out: the items of the source and an
    /// end mark for each worker are at least 2^62.
    #[error("the buffer is worn out")]
    Worn,
    /// The number of items that were run, or the number of items and end marks that were put, is
    /// not what the source requires.
    #[error("items were missed")]
    Missed,
}

/// The states that a failed run hands back, and the cause of the failure.
pub struct WorkersRefused<W> {
    /// The cause of the failure.
    pub why: WorkersFault,
    /// All states, in their order.
    pub states: Vec<W>,
}
