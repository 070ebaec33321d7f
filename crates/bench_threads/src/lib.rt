//! Measures the layers that stand on threads alone: eventcounts, buffers and gates.
//!
//! Each measurement is a module whose `measure` prints figures, and whose `once` is the same with
//! the smallest sizes. A time is taken by a function that returns the nanoseconds, or `None` if a
//! step failed: it opens what it measures, starts a `Watch`, and passes what it opened by reference
//! to a function that takes the steps. Several threads are one `for_each_mut` over what each of
//! them does. The check of this crate stays short by that: its cost grows with the ways out of each
//! function and with what each of them has to drop, and with the closures. Only `figures` formats
//! numbers.
#![tactic(auto)]

pub mod buffer;
pub mod eventcount;
pub mod figures;
pub mod gate;
pub mod watch;
