//! Doorbells: threads sleep on one until another thread rings it, which costs that thread next to
//! nothing while no thread sleeps.
//!
//! A thread that is about to sleep enters a doorbell, looks once more for what it waits for, and
//! only then sleeps. A thread that brings this about rings afterwards:
//!
//! ```rust
//! // A thread that waits:
//! let sleeper = doorbells.enter(bell);
//! if !has_come() {
//!     doorbells.sleep(rt, &sleeper);
//! }
//! doorbells.leave(sleeper);
//! // A thread that brings it about:
//! bring_about();
//! if doorbells.has_sleepers().0 {
//!     doorbells.ring(bell);
//! }
//! ```
//!
//! Doorbell 0 is the entrance: `call_one` wakes one thread there, unless one that an earlier call
//! woke is still on its way. The law `no_wake_up_is_lost` states what holds of a thread from the
//! time that it has entered until it leaves.
#![tactic(auto)]

mod doorbells;
mod laws;
mod rule;
mod seats;
mod view;

pub use doorbells::Doorbells;
pub use laws::no_wake_up_is_lost;
pub use seats::{Sleeper, Trace};
pub use view::{Stage, View};
