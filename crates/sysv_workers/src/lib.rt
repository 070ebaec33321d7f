//! Worker threads: the items of one source go to several threads. Each thread runs a job over the
//! items that it takes, with a state of its own.
#![tactic(auto)]

mod feed;
mod job;
mod laws;
mod refusals;
mod source;
mod team;
mod worker;
mod workers;

pub use job::Job;
pub use laws::numerals_of_workers;
pub use refusals::{WorkersFault, WorkersRefused};
pub use source::Source;
pub use workers::{MAX_WORKERS, run_workers};
