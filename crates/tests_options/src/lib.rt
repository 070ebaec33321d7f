//! Tests of what command lines request.
#![tactic(auto)]

#[cfg(test)]
mod options;
#[cfg(test)]
mod parts;
