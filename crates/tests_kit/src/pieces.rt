//! A reader that returns its bytes piece by piece, or fails.
use std::io;
use std::io::{ErrorKind, Read};

/// A reader that returns the bytes of `front` and then those of `rest`, at most `piece` bytes at
/// once, and fails after it has returned `good` bytes.
#[derive(Drop)]
pub struct Pieces<'a> {
    pub front: &'a [u8],
    pub rest: &'a [u8],
    pub piece: usize,
    pub good: usize,
}

impl<'a> Pieces<'a> {
    /// Creates a reader that returns all bytes of `text`, and then is at its end.
    pub fn new(text: &'a [u8], piece: usize) -> Pieces<'a> {
        Pieces {
            front: text,
            rest: &[],
            piece,
            good: usize::MAX,
        }
    }

    /// Creates a reader that returns `front` and `rest`, each in one piece, and then is at its end.
    pub fn both(front: &'a [u8], rest: &'a [u8]) -> Pieces<'a> {
        Pieces {
            front,
            rest,
            piece: usize::MAX,
            good: usize::MAX,
        }
    }
}

impl Read for Pieces<'_> {
    fn read(&mut self, buf: &mut [u8]) -> io::Result<usize> {
        if self.front.is_empty() {
            self.front = self.rest;
            self.rest = &[];
        }
        if self.good == 0 {
            return Err(io::Error::from(ErrorKind::TimedOut));
        }
        let count = self
            .piece
            .min(self.good)
            .min(self.front.len())
            .min(buf.len());
        let (given, left) = self.front.split_at(count);
        buf[..count].copy_from_slice(given);
        self.front = left;
        self.good -= count;
        Ok(count)
    }
}
