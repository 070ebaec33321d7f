//! Screens that remember how they failed.
ghost use Rattle.std.specs.Prelude.{◌≡◌, None, false, true};
ghost use Rattle.std.specs.Io.KnownBytes.{Appends};
ghost use Rattle.sysv_model.specs.Writing.{AppendsPrefix};

use std::io;
use std::io::Write;
use sysv_clients::Durable;
use sysv_model::Instrumented;

/// A writer that remembers why it failed last.
///
/// Writes, flushes and syncs pass on unchanged.
#[derive(Drop)]
pub struct Screen<S> {
    /// What is written to.
    pub writer: S,
    /// Why it failed last, if it has failed.
    pub failure: Option<io::Error>,
}

impl<S> Screen<S> {
    /// Returns a screen that writes to `writer` and has not failed.
    pub fn new(writer: S) -> Screen<S>
        ensures writer { result.writer ≡ writer }
        ensures failure { result.failure ≡ None }
    {
        Screen {
            writer,
            failure: None,
        }
    }
}

impl<S: Write> Write for Screen<S> {
    ghost contents = { λ screen. S.contents screen.writer };

    fn write(&mut self, buf: &[u8]) -> io::Result<usize> {
        let outcome = self.writer.write(buf);
        if let Err(why) = &outcome {
            self.failure = Some(*why);
        }
        outcome
    }

    fn flush(&mut self) -> io::Result<()> {
        let outcome = self.writer.flush();
        if let Err(why) = &outcome {
            self.failure = Some(*why);
        }
        outcome
    }
}

impl<S: Durable> Durable for Screen<S> {
    ghost synced = { λ screen. S.synced screen.writer };

    fn sync(&mut self) -> io::Result<()> {
        let outcome = self.writer.sync();
        if let Err(why) = &outcome {
            self.failure = Some(*why);
        }
        outcome
    }
}

/// Writes the bytes and flushes them. Returns whether that succeeded. If it did not, a prefix of
/// the bytes was written.
pub fn put<S: Write>(stream: &mut S, bytes: &[u8]) -> bool
    ensures whole { result ≡ true → Appends (S.contents stream.old) (S.contents stream.new)
        bytes.now }
    ensures part { AppendsPrefix (S.contents stream.old) (S.contents stream.new) bytes.now }
{
    let mut instrumented = Instrumented::new(stream);
    instrumented.write_out(bytes).is_ok() && instrumented.flush().is_ok()
}
