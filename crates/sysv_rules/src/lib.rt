//! The rules of System V message queues that depend on values alone: which callers may read, write
//! and control a queue, and which of the queued messages a receive names. `specs/` defines both.
#![tactic(auto)]

mod laws;
mod permission;
mod selector;

pub use laws::{granted_or_not, named_or_none, one_named};
pub use permission::{Want, may, may_control};
pub use selector::{qualifies, select_plain};
pub use sysv_model::Selector;
