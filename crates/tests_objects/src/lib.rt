//! Tests of the pool, of the registry, of messages with their index, and of queues.
#![tactic(auto)]

#[cfg(test)]
mod growths;
#[cfg(test)]
mod index;
#[cfg(test)]
mod keys;
#[cfg(test)]
mod messages;
#[cfg(test)]
mod no_growths;
#[cfg(test)]
mod parts;
#[cfg(test)]
mod pool;
#[cfg(test)]
mod queue;
