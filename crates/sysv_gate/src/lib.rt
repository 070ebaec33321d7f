//! Gates, after Reed and Kanodia's mutual exclusion by a sequencer and an eventcount. Threads call
//! the object behind a gate one turn at a time, in the order of their tickets, and all turns make
//! one history.
//!
//! ```rust
//! let mut other = gate.split(&mut seat);
//! // In one thread:
//! let before = gate.call(&rt, &mut seat, 5).ok();
//! // In another:
//! let after = gate.call(&rt, &mut other, 7).ok();
//! gate.join(&mut seat, other);
//! let closing = gate.close(seat);
//! ```
#![tactic(auto)]

mod awaited;
mod count;
mod gate;
mod laws;
mod lock;
mod object;
mod refusals;
mod table;

pub use awaited::Awaited;
pub use count::Count;
pub use gate::Gate;
pub use gate::closing::Closing;
pub use gate::seat::Seat;
pub use laws::{
    counts_outside_a_turn, each_seat_knows_its_own, marked_only_when_worn, no_turn_of_two_seats,
    one_history, one_turn_at_a_time,
};
pub use lock::PlaceLock;
pub use object::Object;
pub use refusals::{OpenRefused, TryRefused, Worn};
pub use table::close::close_place;
pub use table::laying::lay_table;
pub use table::passes::{join_pass, split_pass};
pub use table::place::{Done, Place};
pub use table::view::{Placed, Sight, Turn, View};
pub use table::{PlaceTable, PlaceTableRule, TableKey, TableToken};
