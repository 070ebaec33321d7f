//! Clients of a server at a place: they connect through buffers, wait for a limited time, and
//! report faults. `specs/` defines what a client did that succeeds.
#![tactic(auto)]

mod batches;
mod connection;
mod contact;
mod ending;
mod holds;
mod how;
mod input;
mod leaver;
mod link;
mod loads;
mod patience;
mod place;
mod plain;
mod progress;
mod purge;
mod room;
mod saves;
mod screen;
mod sentence;
mod silence;
mod stats;
mod teller;

pub use connection::run_as;
pub use contact::{Contact, Visit};
pub use ending::{FAULT, say};
pub use how::{How, Telling};
pub use link::Link;
pub use loads::{Loading, load_at};
pub use place::{Leave, Place, Socket};
pub use plain::complain;
pub use progress::{Lines, Progress};
pub use saves::{Saving, save_at};
pub use screen::{Screen, put};
pub use stats::{Looking, look_at};
