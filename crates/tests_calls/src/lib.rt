//! Tests of a world of queues and actors, and of the script language from its words to whole
//! scripts.
#![tactic(auto)]

#[cfg(test)]
mod examples;
#[cfg(test)]
mod growths;
#[cfg(test)]
mod lines;
#[cfg(test)]
mod parts;
#[cfg(test)]
mod script;
#[cfg(test)]
mod stage;
#[cfg(test)]
mod streams;
#[cfg(test)]
mod words;
#[cfg(test)]
mod world;
