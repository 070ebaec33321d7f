//! Standard output.
ghost use Rattle.std.specs.Prelude.{◌≡◌};

use std::io::Write;
use std::rt::Files;
use std::{fs, io};
use sysv_clients::Durable;
use sysv_system::sync_output;

/// The name of the file on standard output.
const OWN_OUTPUT: &str = "/proc/self/fd/1";

/// A writer to standard output, which is synced if it is a regular file. A pipe or a terminal
/// cannot be synced.
#[derive(Drop)]
pub(crate) struct Output<W> {
    writer: W,
    is_file: bool,
}

impl<W> Output<W> {
    /// Returns the writer to standard output that `writer` writes to.
    pub(crate) fn new(files: &impl Files, writer: W) -> Output<W>
        ensures { result.writer ≡ writer }
    {
        let is_file = match fs::metadata(files, OWN_OUTPUT) {
            Ok(found) => found.is_file(),
            Err(_) => false,
        };
        Output { writer, is_file }
    }
}

impl<W: Write> Write for Output<W> {
    ghost contents = { λ output. W.contents output.writer };

    fn write(&mut self, buf: &[u8]) -> io::Result<usize> {
        self.writer.write(buf)
    }

    fn flush(&mut self) -> io::Result<()> {
        self.writer.flush()
    }
}

/// What a device has is outside every contract: it is taken to be what was written.
impl<W: Write> Durable for Output<W> {
    ghost synced = { λ output. W.contents output.writer };

    fn sync(&mut self) -> io::Result<()> {
        if !self.is_file || sync_output() {
            Ok(())
        } else {
            Err(io::Error::other("it cannot be synced"))
        }
    }
}
