//! The messages queued on one queue: their heads under keys, the chains that hold their bodies at
//! the same places, and an index that finds the message of a receive.
//!
//! The index is by acceptance number, and by type and acceptance number. It finds a message by
//! reading few entries; the number of entries that it reads is proved.
#![tactic(auto)]

mod chains;
mod entry;
mod head;
mod index;
mod messages;
mod rows;
mod waiting;

pub use entry::Entry;
pub use index::Index;
pub use messages::{Messages, NotTaken};
pub use rows::steps::Steps;
pub use waiting::Waiting;
