//! Tests of a server on a real socket and in memory, with frames worked out by hand and with
//! clients.
#![tactic(auto)]

#[cfg(test)]
mod commands;
#[cfg(test)]
mod parts;
#[cfg(test)]
mod server;
