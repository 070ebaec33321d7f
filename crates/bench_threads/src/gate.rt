//! A gate beside std's `Mutex` around the same object, the places of a bank beside one another, and
//! two threads that wait for each other's counts.
mod calls;
mod figures;
mod locked;
mod places;
mod sum;

pub use figures::{measure, measure_alone, once, try_wakes};
