//! Tests of the engine of a server, over connections in memory, and of its clients and handlers
//! over a service, with frames worked out by hand.
#![tactic(auto)]

#[cfg(test)]
mod frames;
#[cfg(test)]
mod memory;
#[cfg(test)]
mod parts;
#[cfg(test)]
mod worked;
