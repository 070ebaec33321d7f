//! The objects at which the calls of System V message queues take their turns: the slots, the
//! registry of the keys and the pool of blocks, as one value.
//!
//! The turns are values too: the requests to a slot, the registry and the pool, and their replies.
//! The owner of the objects makes the turns, on the objects themselves or behind gates.
//!
//! `specs/` defines which reply to a turn is legal, and for which lists of turns the objects stand.
#![tactic(auto)]

mod directly;
mod laws;
mod loaded;
mod object;
mod objects;
mod pool;
mod registry;
mod slot;

pub use directly::Directly;
pub use laws::{legal_turns, one_legal_op};
pub use loaded::LoadedChain;
pub use object::{ObjectCall, ObjectReply, Turns};
pub use objects::{Objects, ObjectsRefused};
pub use pool::{PoolCall, PoolReply, TextSize};
pub use registry::{RegistryCall, RegistryReply};
pub use slot::{SlotCall, SlotReply};
