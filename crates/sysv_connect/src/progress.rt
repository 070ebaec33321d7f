//! Inputs that report how many of their lines were sent.
ghost use Rattle.std.specs.Prelude.{◌≡◌};
ghost use Rattle.sysv_connect.specs.Progress.{Knows, lines_in};

use std::io::{Eprint, Read};
use std::{fmt, io};

/// The byte that ends a line.
const LF: u8 = 10;

/// Lines of an input that is sent line by line.
#[derive(Clone, Copy, PartialEq, Eq, Debug)]
pub struct Lines {
    /// The number of lines that were sent.
    pub sent: usize,
    /// The number of later lines that may have been sent.
    pub unknown: usize,
    /// Whether a line has begun, and its end was not read.
    pub is_open: bool,
}

/// No line.
const NO_LINES: Lines = Lines {
    sent: 0,
    unknown: 0,
    is_open: false,
};

impl Lines {
    /// Returns the lines after a read that returned these bytes, or no bytes at the end of the
    /// input. The lines of earlier reads were all sent. Those that end in these bytes may be sent
    /// from now on, and so may the last line at the end of the input, even if it has no LF.
    pub(crate) fn after(self, bytes: &[u8]) -> Lines
        ensures { Knows self bytes.now result }
    {
        let sent = self.sent.saturating_add(self.unknown);
        if bytes.is_empty() {
            return Lines {
                sent,
                unknown: if self.is_open { 1 } else { 0 },
                is_open: false,
            };
        }
        Lines {
            sent,
            unknown: lines_in(bytes),
            is_open: bytes[bytes.len() - 1] != LF,
        }
    }
}

impl fmt::Display for Lines {
    fn fmt<W: fmt::Write>(&self, f: &mut fmt::Formatter<W>) -> fmt::Result {
        let Lines { sent, unknown, .. } = *self;
        match unknown {
            0 => write!(f, "lines that were sent: {sent}"),
            _ => write!(
                f,
                "lines that were sent: {sent}; that may have been sent: {unknown}"
            ),
        }
    }
}

/// Returns the number of lines that end in these bytes.
fn lines_in(bytes: &[u8]) -> usize
    ensures { result ≡ lines_in bytes.now }
{
    let mut count = 0;
    for i in 0..bytes.len() {
        if bytes[i] == LF {
            count += 1;
        }
    }
    count
}

/// An input whose lines are sent before it is read again, as `sysv_clients::send_lines` does. It
/// can report after each read how many lines were sent, and how many may be sent from now on.
///
/// Reads pass the input's own bytes and errors on unchanged.
#[derive(Drop)]
pub struct Progress<'a, E, I> {
    /// What is read.
    pub input: I,
    /// Where the lines are reported.
    pub rt: &'a E,
    /// Whether they are reported.
    pub is_reported: bool,
    /// The lines that are known.
    pub lines: Lines,
}

impl<'a, E, I> Progress<'a, E, I> {
    /// Returns an input of which nothing was read. `is_reported` is whether it reports its lines.
    pub fn new(rt: &'a E, input: I, is_reported: bool) -> Progress<'a, E, I>
        ensures { result.input ≡ input }
    {
        Progress {
            input,
            rt,
            is_reported,
            lines: NO_LINES,
        }
    }
}

impl<E: Eprint, I: Read> Read for Progress<'_, E, I> {
    ghost use Rattle.std.specs.Prelude.{IfOk, take};
    ghost use Rattle.std.specs.Io.{ReadsAtMost};
    ghost use Rattle.std.specs.Io.KnownBytes.{ReadConsumes};

    ghost remaining = { λ progress. I.remaining progress.input };

    fn read(&mut self, buf: &mut [u8]) -> io::Result<usize>
        ensures bound { ReadsAtMost result buf.new }
        ensures bytes { ReadConsumes (I.remaining self.old.input) (I.remaining self.new.input)
            result buf.new }
        ensures lines { IfOk result (λ count.
            Knows self.old.lines (take count buf.new) self.new.lines) }
    {
        let outcome = self.input.read(buf);
        if let Ok(count) = outcome {
            self.lines = self.lines.after(&buf[..count]);
            if self.is_reported {
                let lines = self.lines;
                let _ = eprintln!(self.rt; "sysvmsg: {lines}");
            }
        }
        outcome
    }
}
