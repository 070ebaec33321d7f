//! Streams that count their failures.
ghost use Rattle.std.specs.Prelude.{◌≡◌, true, is_err, OnErr, OnOk};
ghost use Rattle.std.specs.Io.{ReadsAtMost, WritesAtMost};
ghost use Rattle.std.specs.Io.KnownBytes.{Appends, Keeps, ReadConsumes, WriteAppends};

use std::io;
use std::io::{Read, Write};
use thiserror::Error;

/// The error of `Instrumented::write_out`: a write failed, or took none of the bytes it was given.
/// The writer took a prefix of the bytes.
#[derive(Clone, Copy, PartialEq, Eq, Debug, Error)]
#[error("the bytes cannot be written")]
pub struct WriteFault;

/// A borrowed reader or writer that counts its failed reads, writes and flushes.
///
/// Reads and writes pass the stream's own bytes and errors on unchanged.
#[derive(Drop)]
pub struct Instrumented<'a, S> {
    stream: &'a mut S,
    failures: u64,
}

impl<'a, S> Instrumented<'a, S> {
    ghost use Rattle.sysv_model.specs.Instrumented.{failures_of, failures_after, stream_name, stream_of};

    /// Borrows `stream` with a failure count of 0.
    pub fn new(stream: &'a mut S) -> Instrumented<'a, S>
        ensures stream { stream_of result ≡ stream.old }
        ensures same { stream_name result ≡ stream.entry.ghost_name }
        ensures failed { failures_of result ≡ 0 }
    {
        Instrumented {
            stream,
            failures: 0,
        }
    }

    /// Returns the number of reads, writes and flushes that have failed, modulo 2^64.
    ///
    /// A write that is given some bytes and takes none of them counts as failed. Each failure
    /// changes the count: after the largest number it continues at 0.
    pub fn failures(&self) -> u64
        ensures { result ≡ failures_of self.now }
    {
        self.failures
    }

    /// Counts one more failure.
    fn fail(&mut self)
        ensures stream { stream_of self.new ≡ stream_of self.old }
        ensures same { stream_name self.new ≡ stream_name self.old }
        ensures failed { failures_of self.new ≡ failures_after true (failures_of self.old) }
    {
        self.failures = self.failures.wrapping_add(1);
    }
}

impl<S: Read> Read for Instrumented<'_, S> {
    ghost use Rattle.sysv_model.specs.Instrumented.{failures_of, failures_after, stream_name, stream_of};

    ghost remaining = { λ instrumented. S.remaining (stream_of instrumented) };

    fn read(&mut self, buf: &mut [u8]) -> io::Result<usize>
        ensures bound { ReadsAtMost result buf.new }
        ensures bytes { ReadConsumes (S.remaining (stream_of self.old))
            (S.remaining (stream_of self.new)) result buf.new }
        ensures same { stream_name self.new ≡ stream_name self.old }
        ensures failed { failures_of self.new
            ≡ failures_after (is_err result) (failures_of self.old) }
    {
        let result = self.stream.read(buf);
        if result.is_err() {
            self.fail();
        }
        result
    }
}

impl<S: Write> Write for Instrumented<'_, S> {
    ghost use Rattle.sysv_model.specs.Instrumented.{failures_of, failures_after, stream_name, stream_of, write_failed};

    ghost contents = { λ instrumented. S.contents (stream_of instrumented) };

    fn write(&mut self, buf: &[u8]) -> io::Result<usize>
        ensures bound { WritesAtMost result buf.now }
        ensures bytes { WriteAppends (S.contents (stream_of self.old))
            (S.contents (stream_of self.new)) result buf.now }
        ensures same { stream_name self.new ≡ stream_name self.old }
        ensures failed { failures_of self.new
            ≡ failures_after (write_failed result buf.now) (failures_of self.old) }
    {
        match self.stream.write(buf) {
            Ok(0) if !buf.is_empty() => {
                self.fail();
                Ok(0)
            }
            Ok(count) => Ok(count),
            Err(error) => {
                self.fail();
                Err(error)
            }
        }
    }

    fn flush(&mut self) -> io::Result<()>
        ensures bytes { Keeps (S.contents (stream_of self.old)) (S.contents (stream_of self.new)) }
        ensures same { stream_name self.new ≡ stream_name self.old }
        ensures failed { failures_of self.new
            ≡ failures_after (is_err result) (failures_of self.old) }
    {
        let result = self.stream.flush();
        if result.is_err() {
            self.fail();
        }
        result
    }
}

impl<S: Write> Instrumented<'_, S> {
    ghost use Rattle.sysv_model.specs.Instrumented.{failures_of, failures_after, stream_name, stream_of};
    ghost use Rattle.sysv_model.specs.Writing.{AppendsPrefix};

    /// Writes all the bytes, in any number of writes.
    ///
    /// # Errors
    ///
    /// - `WriteFault` if a write fails or takes none of the bytes it is given. The writer has then
    ///   taken a prefix of `bytes`, possibly all of them.
    pub fn write_out(&mut self, bytes: &[u8]) -> Result<(), WriteFault>
        ensures ok { OnOk result (Appends (S.contents (stream_of self.old))
            (S.contents (stream_of self.new)) bytes.now) }
        ensures err { OnErr result (AppendsPrefix (S.contents (stream_of self.old))
            (S.contents (stream_of self.new)) bytes.now) }
        ensures same { stream_name self.new ≡ stream_name self.old }
        ensures failed { failures_of self.new
            ≡ failures_after (is_err result) (failures_of self.old) }
    {
        let mut written = 0;
        while written < bytes.len() {
            match self.write(&bytes[written..]) {
                Ok(0) => return Err(WriteFault),
                Ok(count) => written += count,
                Err(_) => return Err(WriteFault),
            }
        }
        Ok(())
    }
}
