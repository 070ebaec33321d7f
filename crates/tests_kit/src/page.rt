//! A writer that takes few bytes at once, fails or stalls, and records its flushes.
use std::io;
use std::io::{ErrorKind, Write};

/// The number of bytes that a page can hold.
const ROOM: usize = 512;

/// The number of flushes whose byte counts are recorded.
const FLUSHES: usize = 8;

/// A writer that takes at most `piece` bytes at once and `room` bytes in all. After that it fails,
/// or takes nothing if `stalls` is true. It can be flushed `flushes` times; later flushes fail. It
/// allocates nothing.
#[derive(Drop)]
pub struct Page {
    bytes: [u8; 512],
    len: usize,
    pub piece: usize,
    pub room: usize,
    pub stalls: bool,
    pub flushes: usize,
    flushed: [usize; 8],
    flush_count: usize,
}

impl Page {
    /// Creates a page that takes all bytes that it can hold.
    pub fn new() -> Page {
        Page {
            bytes: [0; 512],
            len: 0,
            piece: usize::MAX,
            room: usize::MAX,
            stalls: false,
            flushes: usize::MAX,
            flushed: [0; 8],
            flush_count: 0,
        }
    }

    /// Creates a page that takes at most `piece` bytes at once and `room` bytes in all.
    pub fn taking(piece: usize, room: usize, stalls: bool) -> Page {
        Page {
            piece,
            room,
            stalls,
            ..Page::new()
        }
    }

    pub fn written(&self) -> &[u8] {
        let all = &self.bytes[..];
        &all[..self.len.min(all.len())]
    }

    /// Returns the number of bytes that had been written at each of the first eight flushes.
    pub fn flushed(&self) -> &[usize] {
        let all = &self.flushed[..];
        &all[..self.flush_count.min(all.len())]
    }
}

impl Write for Page {
    fn write(&mut self, buf: &[u8]) -> io::Result<usize> {
        let left = self.room.min(ROOM).saturating_sub(self.len);
        if left == 0 && !self.stalls {
            return Err(io::Error::from(ErrorKind::BrokenPipe));
        }
        let count = self.piece.min(left).min(buf.len());
        for byte in &buf[..count] {
            if self.len < ROOM {
                self.bytes[self.len] = *byte;
                self.len += 1;
            }
        }
        Ok(count)
    }

    fn flush(&mut self) -> io::Result<()> {
        if self.flush_count >= self.flushes {
            return Err(io::Error::from(ErrorKind::BrokenPipe));
        }
        if self.flush_count < FLUSHES {
            self.flushed[self.flush_count] = self.len;
            self.flush_count += 1;
        }
        Ok(())
    }
}
