//! Helpers that several test crates use: readers and writers with different behavior, a session
//! whose frames were worked out by hand, bodies and pools that open although memory is refused
//! once, and a mark from which growths are counted.
#![tactic(auto)]

mod marks;
mod opened;
mod page;
mod pieces;
mod users;
pub mod worked;

pub use marks::mark;
pub use opened::{open_body, open_pool};
pub use page::Page;
pub use pieces::Pieces;
pub use users::{OTHER, ROOT, USER, creating, flags};
