//! Readers that have read ahead.
ghost use Rattle.std.specs.Prelude.{◌≡◌, true};
ghost use Rattle.std.specs.Io.Buffered.{reader_buffer};
ghost use Rattle.sysv_clients.specs.ReadAhead.{begins_with_frame};

use std::alloc::Global;
use std::io::{BufReader, Read};

/// The number of bytes in the length field of a frame.
const LENGTH_BYTES: usize = 4;

/// A reader that knows what it has read ahead.
pub trait ReadAhead: Read {
    ghost use Rattle.std.specs.Prelude.{List, ℕ};

    /// The bytes that it has read ahead.
    ghost ahead: { Self → List ℕ };

    /// Returns whether it has read a whole frame ahead. Then the next reply is there.
    fn has_frame(&self) -> bool
        ensures { result ≡ begins_with_frame (ahead self.now) };
}

impl<R: Read> ReadAhead for BufReader<R, Global> {
    ghost ahead = { λ reader. reader_buffer reader };

    fn has_frame(&self) -> bool
        ensures { result ≡ begins_with_frame (reader_buffer self.now) }
    {
        begins_with_frame(self.buffer())
    }
}

/// Returns whether these bytes begin with a whole frame: the length of what follows, and all that
/// follows.
fn begins_with_frame(bytes: &[u8]) -> bool
    ensures { result ≡ begins_with_frame bytes.now }
{
    if bytes.len() < LENGTH_BYTES {
        return false;
    }
    let length = u32::from_be_bytes([bytes[0], bytes[1], bytes[2], bytes[3]]);
    length as usize <= bytes.len() - LENGTH_BYTES
}
