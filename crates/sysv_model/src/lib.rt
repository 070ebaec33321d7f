//! The vocabulary of System V message queues: errors, credentials, flags, message bodies, the
//! attributes of a queue, the arguments of IPC_SET and the results of IPC_STAT, the limits of this
//! profile, and streams that count their failures.
//!
//! `specs/` defines the history of a slot, and which messages a history has accepted, delivered,
//! discarded and still holds.
#![tactic(auto)]

mod attributes;
mod body;
mod cred;
mod errno;
mod flags;
mod instrumented;
mod laws;
mod limits;
mod no_memory;
mod selector;

pub use attributes::{Attributes, Perm, Row, SetTo, Stat};
pub use body::Body;
pub use cred::Cred;
pub use errno::Errno;
pub use flags::Flags;
pub use instrumented::{Instrumented, WriteFault};
pub use laws::{numerals_of_flags, numerals_of_limits, numerals_of_mode_bits};
pub use limits::{
    BLOCK_BYTES, BODY_ROOM, IPC_PRIVATE, MAX_ACTORS, MAX_BLOCKS, MAX_QBYTES, MESSAGE_BYTES,
    MIN_BLOCKS, QBYTES_AT_CREATION, QUEUE_MESSAGES, WORN,
};
pub use no_memory::NoMemory;
pub use selector::Selector;
