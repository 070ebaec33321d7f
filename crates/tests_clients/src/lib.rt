//! Tests of clients, over bytes and at a place in memory.
#![tactic(auto)]

#[cfg(test)]
mod clients;
#[cfg(test)]
mod parts;
