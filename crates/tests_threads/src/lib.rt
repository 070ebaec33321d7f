//! Tests of buffers, of workers, of doorbells, and of the words that wake a sleeper and tell it of
//! changes, by one thread and by several.
#![tactic(auto)]

#[cfg(test)]
mod bells;
#[cfg(test)]
mod buffer;
#[cfg(test)]
mod doorbells;
#[cfg(test)]
mod examples;
#[cfg(test)]
mod growths;
#[cfg(test)]
mod parts;
#[cfg(test)]
mod told;
#[cfg(test)]
mod workers;
