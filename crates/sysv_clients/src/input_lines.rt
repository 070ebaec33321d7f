//! Lines of an input.
ghost use Rattle.std.specs.Prelude.{◌≡◌, ◌<◌, ◌≤◌, ◌==◌, [], drop, length, Some, IfOk, IfErr};
ghost use Rattle.std.specs.Io.{ReadsAtMost};
ghost use Rattle.std.specs.List.{list_any};
ghost use Rattle.std.specs.Io.KnownBytes.{Consumes, IsAtEnd, ReadConsumes, prepend_known};
ghost use Rattle.std.specs.IoError.{error_kind};
ghost use Rattle.sysv_clients.specs.Feed.{failure_of, feed_name, feed_stream};
ghost use Rattle.sysv_clients.specs.Lines.{Ends, FailsBy, Fetches, Gives, is_line, is_nothing};
ghost use Rattle.sysv_clients.specs.declared.line_text.TheConstants.{LINE_ROOM};

use crate::feed::Feed;
use crate::line_text::LineText;
use crate::sending::Unsent;
use memchr::memchr;
use std::alloc::Global;
use std::io;
use std::io::{ErrorKind, Read};
use std::marker::Model;
use sysv_model::NoMemory;

/// The byte that ends a line.
const LF: u8 = 10;

/// What was read of an input.
#[derive(Clone, Copy)]
pub(crate) enum Fetched {
    /// A line that ended with an LF.
    Line,
    /// The last line, which has no LF.
    Last,
    /// Nothing: the input is at its end.
    Nothing,
}

impl Fetched {
    /// Returns whether the input is at its end, and nothing was read.
    pub(crate) fn is_nothing(self) -> bool
        ensures { result ≡ is_nothing self }
    {
        match self {
            Fetched::Nothing => true,
            Fetched::Line | Fetched::Last => false,
        }
    }

    /// Returns whether it is a line that ended with an LF.
    pub(crate) fn is_line(self) -> bool
        ensures { result ≡ is_line self }
    {
        match self {
            Fetched::Line => true,
            Fetched::Last | Fetched::Nothing => false,
        }
    }
}

/// The number of bytes that one read of an input takes at most.
const CHUNK_BYTES: usize = 65_536;

/// Bytes of an input that were read and are not part of a line yet.
#[derive(Drop)]
pub(crate) struct Chunk {
    bytes: Vec<u8>,
    start: usize,
    end: usize,
}

impl Model for Chunk {
    ghost use Rattle.std.specs.Prelude.{List, ℕ, ◌≡◌, ◌≤◌, drop, take, vec_len};
    ghost use Rattle.sysv_clients.specs.declared.input_lines.TheConstants.{CHUNK_BYTES};

    ghost Value = { List ℕ };

    ghost view = { λ chunk. drop chunk.start (take chunk.end chunk.bytes.items) };

    ghost invariant = { λ chunk. (chunk.start ≤ chunk.end) × (chunk.end ≤ CHUNK_BYTES)
        × (vec_len chunk.bytes ≡ CHUNK_BYTES) };
}

impl Chunk {
    /// Creates an empty chunk. Fails with `NoMemory` if allocation fails.
    pub(crate) fn open(alloc: Global) -> Result<Chunk, NoMemory>
        ensures { IfOk result (λ chunk. chunk ≡ []) }
    {
        match vec![in alloc; 0; CHUNK_BYTES] {
            Ok(bytes) => Ok(Chunk {
                bytes,
                start: 0,
                end: 0,
            }),
            Err(_) => Err(NoMemory),
        }
    }

    /// Returns the bytes.
    fn bytes(&self) -> &[u8]
        ensures { result.now ≡ self.now }
    {
        &self.bytes[self.start..self.end]
    }

    /// Returns whether the bytes have an LF.
    pub(crate) fn has_line(&self) -> bool
        ensures { result ≡ list_any (λ byte. byte == 10) self.now }
    {
        self.bytes().contains(&LF)
    }

    /// Removes the first `count` bytes.
    fn skip(&mut self, count: usize)
        requires { count ≤ length self.old }
        ensures { self.new ≡ drop count self.old }
    {
        self.start += count;
    }

    /// Reads once to fill an empty chunk. It stays empty at the end of the input.
    fn fill<I: Read>(&mut self, input: &mut Feed<'_, I>) -> io::Result<()>
        requires { self.old ≡ [] }
        ensures bytes { IfOk result (λ _. Consumes (I.remaining (feed_stream input.old))
            (I.remaining (feed_stream input.new)) self.new) }
        ensures end { IfOk result (λ _. self.new ≡ [] →
            IsAtEnd (I.remaining (feed_stream input.new))) }
        ensures same { feed_name input.new ≡ feed_name input.old }
        ensures failed { IfErr result (λ why. failure_of input.new ≡ Some (error_kind why)) }
    {
        self.start = 0;
        self.end = 0;
        self.end = read_some(input, &mut self.bytes)?;
        Ok(())
    }

    /// Moves bytes to the end of a line that has none, up to the next LF, which is removed, or to
    /// as many as a line has that is longer than `most` bytes. Returns whether there was an LF.
    fn give(&mut self, line: &mut LineText, most: usize) -> bool
        requires some { 0 < length self.old }
        requires fits { length line.old ≤ most }
        requires room { most < LINE_ROOM }
        ensures { Gives most result self.old self.new line.old line.new }
    {
        let room = most + 1 - line.len();
        let bytes = self.bytes();
        let piece = &bytes[..room.min(bytes.len())];
        match memchr(LF, piece) {
            Some(count) => {
                line.put(&piece[..count]);
                self.skip(count + 1);
                true
            }
            None => {
                let count = piece.len();
                line.put(piece);
                self.skip(count);
                false
            }
        }
    }
}

/// Reads a line of at most `most` bytes, without its LF, after this number of lines. The input is
/// read only if the chunk has no whole line.
///
/// # Errors
///
/// - `Long` if the line has more than `most` bytes. It states the number of lines before.
/// - `Input` if a read fails, except that an interrupted read is made again.
pub(crate) fn fetch<I: Read>(
    input: &mut Feed<'_, I>,
    chunk: &mut Chunk,
    line: &mut LineText,
    most: usize,
    lines: u64,
) -> Result<Fetched, Unsent>
    requires { most < LINE_ROOM }
    ensures fetches { Fetches most lines result
        (prepend_known chunk.old (I.remaining (feed_stream input.old)))
        (prepend_known chunk.new (I.remaining (feed_stream input.new))) line.new }
    ensures same { feed_name input.new ≡ feed_name input.old }
    ensures failed { FailsBy result (failure_of input.new) }
{
    line.clear();
    while line.len() <= most {
        if chunk.bytes().is_empty() {
            if let Err(why) = chunk.fill(input) {
                return Err(Unsent::Input(why));
            }
            if chunk.bytes().is_empty() {
                return Ok(last_of(line));
            }
        }
        if chunk.give(line, most) {
            return Ok(Fetched::Line);
        }
    }
    Err(Unsent::Long { before: lines })
}

/// Returns what was read of an input that is at its end: a last line, or nothing.
fn last_of(line: &LineText) -> Fetched
    ensures { Ends result line.now }
{
    if line.len() == 0 {
        Fetched::Nothing
    } else {
        Fetched::Last
    }
}

/// Reads once, like `Read::read`. An interrupted read is made again.
fn read_some<I: Read>(input: &mut Feed<'_, I>, buffer: &mut [u8]) -> io::Result<usize>
    ensures bound { ReadsAtMost result buffer.new }
    ensures bytes { ReadConsumes (I.remaining (feed_stream input.old))
        (I.remaining (feed_stream input.new)) result buffer.new }
    ensures len { length buffer.new ≡ length buffer.old }
    ensures same { feed_name input.new ≡ feed_name input.old }
    ensures failed { IfErr result (λ why. failure_of input.new ≡ Some (error_kind why)) }
{
    for _ in 0..u64::MAX {
        match input.read(buffer) {
            Err(why) if why.kind() == ErrorKind::Interrupted => {}
            outcome => return outcome,
        }
    }
    input.read(buffer)
}
