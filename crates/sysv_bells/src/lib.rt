//! The words by which one thread, the sleeper, learns that others have something for it, and by
//! which they learn whether they have to wake it.
//!
//! A teller sets the bit of what it tells, says that it has rung, and takes the sleeper's word that
//! it sleeps. If that word was there, the teller writes the sleeper's doorbell, which lies outside
//! of this crate. The sleeper says that it sleeps, and sleeps only if nobody has rung:
//!
//! ```rust
//! // A teller:
//! if bells.tell(&mut teller, number) {
//!     doorbell.write();
//! }
//! // The sleeper:
//! if bells.fall_asleep(&mut sleeper) {
//!     doorbell.wait();
//! }
//! if bells.wake_up(&mut sleeper) {
//!     bells.take_changes(&mut sleeper, &mut changes);
//! }
//! ```
//!
//! The law `no_wake_up_is_lost` states what holds while the sleeper sleeps.
#![tactic(auto)]

mod bells;
mod laws;
mod rule;
mod seats;
mod view;

pub use bells::Bells;
pub use laws::no_wake_up_is_lost;
pub use seats::{Sleeper, Teller};
pub use view::{Stage, Taking, Telling};
