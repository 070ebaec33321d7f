//! Messages of the system in plain words.
use std::alloc::Global;
use std::io::Eprint;
use std::{fmt, io};

/// What follows a message of the system, before the number of its error.
const NUMBER: &str = " (os error ";

/// Reports on standard error what went wrong, and why, without the number of the error. `hint` ends
/// the line.
pub fn complain(rt: &(impl Eprint + AllocGlobal), what: &str, why: &io::Error, hint: &str) {
    let reason = Reason::of(rt.alloc(), why);
    let _ = eprintln!(rt; "sysvmsg: {what}{reason}{hint}");
}

/// What the system says of an error, without the error's number. It is shown after a colon. Nothing
/// is shown if there was no memory for it.
#[derive(Drop)]
pub(crate) struct Reason {
    text: Option<String>,
}

impl Reason {
    /// Returns what the system says of an error.
    pub(crate) fn of(alloc: Global, why: &io::Error) -> Reason {
        Reason {
            text: format!(in alloc; "{why}").ok(),
        }
    }
}

impl fmt::Display for Reason {
    fn fmt<W: fmt::Write>(&self, f: &mut fmt::Formatter<W>) -> fmt::Result {
        match &self.text {
            Some(text) => write!(f, ": {}", without_number(text.as_str())),
            None => Ok(()),
        }
    }
}

/// Returns the message of a system's error without its number.
fn without_number(text: &str) -> &str {
    match text.split_once(NUMBER) {
        Some((message, _)) => message,
        None => text,
    }
}
