//! Inputs that remember how their last read ended.
ghost use Rattle.std.specs.Prelude.{◌≡◌};
ghost use Rattle.std.specs.Io.{ReadsAtMost};
ghost use Rattle.std.specs.Io.KnownBytes.{ReadConsumes};

use std::io;
use std::io::{ErrorKind, Read};

/// A borrowed reader that remembers whether its last read failed, and with which kind of error.
///
/// Reads pass the stream's own bytes and errors on unchanged.
#[derive(Drop)]
pub struct Feed<'a, I> {
    stream: &'a mut I,
    failure: Option<ErrorKind>,
}

impl<'a, I> Feed<'a, I> {
    ghost use Rattle.std.specs.Prelude.{None};
    ghost use Rattle.sysv_clients.specs.Feed.{failure_of, feed_name, feed_stream};

    /// Borrows `stream`, of which no read has failed.
    pub fn new(stream: &'a mut I) -> Feed<'a, I>
        ensures stream { feed_stream result ≡ stream.old }
        ensures same { feed_name result ≡ stream.entry.ghost_name }
        ensures failure { failure_of result ≡ None }
    {
        Feed {
            stream,
            failure: None,
        }
    }

    /// Returns the kind of the error of the last read, or `None` if that did not fail.
    pub fn failure(&self) -> Option<ErrorKind>
        ensures { result ≡ failure_of self.now }
    {
        self.failure
    }
}

impl<I: Read> Read for Feed<'_, I> {
    ghost use Rattle.sysv_clients.specs.Feed.{failure_in, failure_of, feed_name, feed_stream};

    ghost remaining = { λ feed. I.remaining (feed_stream feed) };

    fn read(&mut self, buf: &mut [u8]) -> io::Result<usize>
        ensures bound { ReadsAtMost result buf.new }
        ensures bytes { ReadConsumes (I.remaining (feed_stream self.old))
            (I.remaining (feed_stream self.new)) result buf.new }
        ensures same { feed_name self.new ≡ feed_name self.old }
        ensures failure { failure_of self.new ≡ failure_in result }
    {
        let result = self.stream.read(buf);
        self.failure = match &result {
            Ok(_) => None,
            Err(why) => Some(why.kind()),
        };
        result
    }
}
