//! Eventcounts and sequencers, after Reed and Kanodia, "Synchronization with Eventcounts and
//! Sequencers".
//!
//! An eventcount is a number that only rises: threads advance it, read it, and wait until it has
//! reached a goal. A sequencer issues the numbers from its first value on, each once. Together they
//! let threads do something one at a time, in the order of the tickets:
//!
//! ```rust
//! let turn = turns.ticket(&mut drawing)?;
//! served.await_at_least(&rt, &mut serving, turn);
//! // One thread at a time is here.
//! let number = served.advance(&mut serving)?;
//! served.wake(&rt);
//! ```
#![tactic(auto)]

mod awaited;
mod eventcount;
mod laws;
mod refusals;
mod rule;
mod seat;
mod sequencer;
mod view;
mod word;

pub use awaited::Awaited;
pub use eventcount::{Advances, Eventcount};
pub use laws::{no_number_in_two_seats, no_value_is_invented};
pub use refusals::{OpenRefused, TooMany, Worn};
pub use seat::Seat;
pub use sequencer::{Sequencer, Tickets};
pub use word::Word;
