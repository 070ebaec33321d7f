//! The body of a message, read from a stream.
ghost use Rattle.std.specs.Prelude.{◌≡◌, ◌≤◌, ◌<◌, IfOk, length, take, vec_len};
ghost use Rattle.std.specs.Io.{ReadsAtMost};
ghost use Rattle.std.specs.Io.KnownBytes.{Consumes, IsAtEnd, ReadConsumes};

use std::alloc::Global;
use std::io;
use std::io::{ErrorKind, Read};
use sysv_model::BODY_ROOM;

/// The reason why a body was not read.
#[derive(Drop)]
pub(crate) enum Unread {
    /// Memory was refused. Nothing was read.
    NoMemory,
    /// A read failed.
    Failed(io::Error),
}

/// Reads a body: all bytes that `input` has left, but at most `BODY_ROOM`.
///
/// # Errors
///
/// - `NoMemory` if memory is refused. Nothing was read.
/// - `Failed` if a read fails, except that an interrupted read is made again.
pub(crate) fn read_body<R: Read>(alloc: Global, input: &mut R) -> Result<Vec<u8>, Unread>
    ensures most { IfOk result (λ body. vec_len body ≤ BODY_ROOM) }
    ensures bytes { IfOk result (λ body.
        Consumes (R.remaining input.old) (R.remaining input.new) body.items) }
    ensures whole { IfOk result (λ body.
        vec_len body < BODY_ROOM → IsAtEnd (R.remaining input.new)) }
    ensures refused { result ≡ Err Unread.NoMemory → input.new ≡ input.old }
{
    let Ok(mut body) = vec![in alloc; 0; BODY_ROOM] else {
        return Err(Unread::NoMemory);
    };
    match fill(input, &mut body) {
        Ok(len) => {
            body.truncate(len);
            Ok(body)
        }
        Err(why) => Err(Unread::Failed(why)),
    }
}

/// Reads until the buffer is full or the reader is at its end, and returns the number of bytes.
fn fill<R: Read>(input: &mut R, buffer: &mut [u8]) -> io::Result<usize>
    ensures most { IfOk result (λ len. len ≤ length buffer.new) }
    ensures bytes { IfOk result (λ len.
        Consumes (R.remaining input.old) (R.remaining input.new) (take len buffer.new)) }
    ensures whole { IfOk result (λ len.
        len < length buffer.new → IsAtEnd (R.remaining input.new)) }
{
    let mut len = 0;
    while len < buffer.len() {
        let count = read_some(input, &mut buffer[len..])?;
        if count == 0 {
            return Ok(len);
        }
        len += count;
    }
    Ok(len)
}

/// Reads once, like `Read::read`. An interrupted read is made again.
pub(crate) fn read_some<R: Read>(input: &mut R, buffer: &mut [u8]) -> io::Result<usize>
    ensures bound { ReadsAtMost result buffer.new }
    ensures bytes { ReadConsumes (R.remaining input.old) (R.remaining input.new)
        result buffer.new }
{
    for _ in 0..u64::MAX {
        match input.read(buffer) {
            Err(why) if why.kind() == ErrorKind::Interrupted => {}
            outcome => return outcome,
        }
    }
    Err(io::Error::from(ErrorKind::Interrupted))
}
