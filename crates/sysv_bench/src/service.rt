//! The service: pairs of a msgsnd and a msgrcv by one thread, by two and by four, a ping-pong of
//! two threads, and random calls of eight threads, whose messages are counted.
mod calls;
mod figures;
mod pairs;
mod part;
mod rounds;
mod soak;
mod tallies;
mod team;

pub(crate) use figures::{measure, measure_pairs, measure_rounds, once, time_of_pairs};
pub(crate) use soak::soak;
