//! The words of a line of a script, separated by one space, and their values. `specs/` has their
//! grammar.
#![tactic(auto)]

mod flags;
mod laws;
mod octal;
mod reads;
mod word;

pub use laws::{one_split, words_are_read};
pub use octal::Octal;
pub use reads::{Reads, first};
pub use word::split_at_mark;
