//! Tests of eventcounts, by one thread and by several.
#![tactic(auto)]

#[cfg(test)]
mod eventcount;
#[cfg(test)]
mod examples;
#[cfg(test)]
mod growths;
#[cfg(test)]
mod parts;
