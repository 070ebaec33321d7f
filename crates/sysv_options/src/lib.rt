//! What a command line requests, as values: the table of commands, the request that the words make,
//! and the credentials that a client states. `specs/` defines what the words mean.
#![tactic(auto)]

mod asked;
mod commands;
mod process;
mod sockets;
mod who;

pub use asked::{Asked, Serving, no_text, read_words};
pub use process::{NoWords, Process, surroundings};
pub use sockets::{Entrance, Entrances, MAX_OTHERS, SocketFile};
pub use who::{Surroundings, Who, credentials, telling};
