//! Keys and identifiers: the registry, which binds each key to its identifier and assigns each new
//! queue an identifier that was never used before.
//!
//! `specs/` defines the rows and the generations that a history leaves, the legal reply to each
//! call, and the law that every legal history obeys.
#![tactic(auto)]

mod identifier;
mod laws;
mod registry;

pub use identifier::{GENERATION_LAST, SLOTS, slot_of_id};
pub use laws::{
    legal_history, numerals_of_identifiers, one_legal_reply, registry_law, unused_slots,
};
pub use registry::{Begun, Registry, RegistryRefused};
