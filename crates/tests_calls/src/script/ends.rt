//! A reader that never ends, and a reader and a writer that hold a conversation.
use std::cell::Cell;
use std::io;
use std::io::{Read, Write};

/// A reader that returns the same byte forever, and counts the bytes.
#[derive(Drop)]
pub(super) struct Endless {
    pub(super) byte: u8,
    pub(super) given: usize,
}

impl Read for Endless {
    fn read(&mut self, buf: &mut [u8]) -> io::Result<usize> {
        for place in buf.iter_mut() {
            *place = self.byte;
        }
        self.given = self.given.saturating_add(buf.len());
        Ok(buf.len())
    }
}

/// A reader that returns some lines at a time, and counts how often an answer is missing when more
/// is read. The first line has no answer, and each other line has one.
#[derive(Drop)]
pub(super) struct Asker<'a> {
    pub(super) rest: &'a [u8],
    /// The number of lines that a read gives.
    pub(super) at_once: u32,
    /// The number of lines that were given.
    pub(super) lines: u32,
    pub(super) answers: &'a Cell<u32>,
    pub(super) missing: u32,
}

impl Read for Asker<'_> {
    fn read(&mut self, buf: &mut [u8]) -> io::Result<usize> {
        if self.answers.get() != self.lines.saturating_sub(1) {
            self.missing = self.missing.saturating_add(1);
        }
        let ends = Cell::new(0u32);
        let end = self.rest.iter().position(|byte| {
            if *byte == b'\n' {
                ends.set(ends.get().saturating_add(1));
            }
            ends.get() == self.at_once
        });
        let count = match end {
            Some(end) => end.saturating_add(1),
            None => self.rest.len(),
        };
        let count = count.min(buf.len()).min(self.rest.len());
        let (front, rest) = self.rest.split_at(count);
        buf[..count].copy_from_slice(front);
        self.rest = rest;
        self.lines = self.lines.saturating_add(ends.get());
        Ok(count)
    }
}

/// A writer that counts the lines that it takes.
#[derive(Drop)]
pub(super) struct Counter<'a> {
    pub(super) answers: &'a Cell<u32>,
}

impl Write for Counter<'_> {
    fn write(&mut self, buf: &[u8]) -> io::Result<usize> {
        for byte in buf {
            if *byte == b'\n' {
                self.answers.set(self.answers.get().saturating_add(1));
            }
        }
        Ok(buf.len())
    }

    fn flush(&mut self) -> io::Result<()> {
        Ok(())
    }
}
