//! The requests of a session, and a sink for its replies.
use std::io;
use std::io::{Read, Write};

/// A hello of user and group 1000, process 101, and a get of key 7 with IPC_CREAT and mode 0600.
const BEGINNING: &[u8] =
    b"\0\0\0\x0e\x01\0\0\0\x03\xe8\0\0\x03\xe8\0\0\0\x65\0\0\0\x0a\x01\x01\0\0\0\x07\0\0\x03\x80";

/// A send of 64 bytes, of type 1, to queue 0, and a receive of at most 64 of any type.
const PAIR: &[u8] = b"\0\0\0\x52\x01\x02\0\0\0\0\0\0\0\0\0\0\0\x01\0\0\0\0\
      xxxxxxxxxxxxxxxxxxxxxxxxxxxxxxxxxxxxxxxxxxxxxxxxxxxxxxxxxxxxxxxx\
      \0\0\0\x16\x01\x03\0\0\0\0\0\0\0\x40\0\0\0\0\0\0\0\0\0\0\0\0";

/// A reader that returns a hello and a get, and then pairs of a send and a receive.
#[derive(Drop)]
pub(crate) struct Requests {
    left: &'static [u8],
    pairs: u32,
}

impl Requests {
    pub(crate) fn new(pairs: u32) -> Requests {
        Requests {
            left: BEGINNING,
            pairs,
        }
    }
}

impl Read for Requests {
    fn read(&mut self, buf: &mut [u8]) -> io::Result<usize> {
        if self.left.is_empty() && self.pairs > 0 {
            self.left = PAIR;
            self.pairs -= 1;
        }
        let count = self.left.len().min(buf.len());
        let (given, left) = self.left.split_at(count);
        buf[..count].copy_from_slice(given);
        self.left = left;
        Ok(count)
    }
}

/// A writer that accepts all bytes, and counts them.
#[derive(Default, Drop)]
pub(crate) struct Replies {
    bytes: u64,
}

impl Write for Replies {
    fn write(&mut self, buf: &[u8]) -> io::Result<usize> {
        self.bytes = self.bytes.saturating_add(buf.len() as u64);
        Ok(buf.len())
    }

    fn flush(&mut self) -> io::Result<()> {
        Ok(())
    }
}
