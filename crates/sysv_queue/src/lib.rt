//! One queue slot: the place of a live queue with its attributes, its queued messages in the order
//! of acceptance, and the arrived and freed counts.
//!
//! Each message keeps the chain of blocks that holds its body. The results of a receive and of a
//! removal are receipts, which must be spent once. `specs/` defines the legal reply to each call,
//! and the law that every legal history obeys.
#![tactic(auto)]

mod delivery;
mod discarded;
mod laws;
mod slot;
mod taken;
mod tally;

pub use delivery::Delivery;
pub use discarded::Discarded;
pub use laws::{
    blocks_kept, legal_history, one_legal_reply, queue_law, removed_for_good, shown_of_others,
    stays_right, worked_removal,
};
pub use slot::{Look, PlaceRefused, Probe, QueueSlot, TakeRefused, Unplaced};
pub use sysv_messages::Steps;
pub use taken::Taken;
pub use tally::Tally;
