//! Tests of gates and banks, by one thread and by several.
#![tactic(auto)]

#[cfg(test)]
mod bank;
#[cfg(test)]
mod examples;
#[cfg(test)]
mod gate;
#[cfg(test)]
mod growths;
#[cfg(test)]
mod no_growths;
#[cfg(test)]
mod parts;
#[cfg(test)]
mod sum;
