//! The pool of blocks that hold message bodies, and the chains of blocks that it hands out.
//! `specs/` defines the legal reply to each call of the pool, and the law that every legal history
//! obeys.
#![tactic(auto)]

mod blocks;
mod chain;
mod free_list;
mod laws;
mod loose;
mod pool;
mod size_class;

pub use chain::Chain;
pub use laws::{legal_history, one_legal_reply, pool_law, shown_of_others};
pub use pool::{Pool, PoolRefused};
