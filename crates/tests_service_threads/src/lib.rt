//! Tests of a service with several threads, each of which has a pass of its own.
#![tactic(auto)]

#[cfg(test)]
mod ask;
#[cfg(test)]
mod board;
#[cfg(test)]
mod crowd;
#[cfg(test)]
mod part;
#[cfg(test)]
mod parts;
#[cfg(test)]
mod stops;
#[cfg(test)]
mod team;
#[cfg(test)]
mod turns;
#[cfg(test)]
mod waits;
