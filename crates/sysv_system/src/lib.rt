//! The calls of the system that the standard library of the kit lacks: waits for descriptors,
//! doorbells, clocks, and what the system tells a process about itself.
//!
//! No other crate depends on the C library. So a descriptor is read and written only by the stream
//! that owns it: outside this crate its number is a `Watched`, with which a thread can wait, and do
//! nothing else.
#![tactic(auto)]

mod clock;
mod doorbell;
mod process;
mod waits;
mod watched;

pub use clock::{present_millis, present_seconds};
pub use doorbell::{Doorbell, Ring};
pub use libc::{EAGAIN, ECONNABORTED, EMFILE, ENOMEM, EPERM};
pub use process::{group, number, open_files, sync_output, user};
pub use waits::{Event, MOST_LISTENERS, Several, await_any, await_event, pause};
pub use watched::Watched;
