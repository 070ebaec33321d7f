//! Tests of the words of all calls, of the rules, of instrumented streams and of frames.
#![tactic(auto)]

#[cfg(test)]
mod examples;
#[cfg(test)]
mod instrumented;
#[cfg(test)]
mod model;
#[cfg(test)]
mod parts;
#[cfg(test)]
mod rules;
#[cfg(test)]
mod wire;
