//! Tests of the objects of a service behind their gates, and of the service with one pass.
#![tactic(auto)]

#[cfg(test)]
mod asking;
#[cfg(test)]
mod example;
#[cfg(test)]
mod gated;
#[cfg(test)]
mod growths;
#[cfg(test)]
mod no_growths;
#[cfg(test)]
mod one_pass;
#[cfg(test)]
mod parts;
#[cfg(test)]
mod pieces;
