//! Whole scripts.

mod calls;
mod ends;
mod failing;
mod growths;
mod language;
mod rules;
mod whole;
