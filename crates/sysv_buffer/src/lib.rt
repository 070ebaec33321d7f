//! Bounded buffers, after Reed and Kanodia, "Synchronization with Eventcounts and Sequencers".
//!
//! Items go from one thread to another through a row of cells, in order, each once. A `OneBuffer`
//! has one producer and one consumer; a `ManyBuffer` has any number of both.
//!
//! ```rust
//! let (buffer, mut puts, mut takes) = OneBuffer::open(rt.alloc(), 64)?;
//! // In one thread:
//! let put = buffer.put(&rt, &mut puts, 7);
//! // In another:
//! let item = buffer.take(&rt, &mut takes)?;
//! ```
#![tactic(auto)]

mod board;
mod buffer;
mod ends;
mod laws;
mod many;
mod many_board;
mod many_rule;
mod many_turns;
mod many_view;
mod many_waits;
mod refusals;
mod rule;
mod seat;
mod turns;
mod view;

pub use buffer::OneBuffer;
pub use ends::{Consumer, Producer};
pub use laws::{no_place_twice, numeral_of_cells, one_list_of_many, taken_is_a_beginning};
pub use many::ManyBuffer;
pub use refusals::{
    ManyPutRefused, ManyTakeRefused, OpenRefused, PutRefused, PutWorn, TakeRefused, TakeWorn,
};
pub use seat::Seat;
