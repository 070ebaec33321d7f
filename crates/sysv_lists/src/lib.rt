//! Definitions and lemmas about lists that other crates share: prefixes, how often a number is in a
//! list, elements by their place, and sums. This crate has no code.
#![tactic(auto)]
