//! Frames, with readers and writers of different behavior.

mod arrived;
mod faults;
mod fields;
mod frames;
mod streams;
mod third;
