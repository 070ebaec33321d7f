//! Screens whose lines are made durable.
ghost use Rattle.std.specs.Prelude.{◌≡◌, ℕ, List, Option, true, is_err, OnOk, OnErr};
ghost use Rattle.std.specs.Io.KnownBytes.{Appends, Keeps};
ghost use Rattle.sysv_clients.specs.Journal.{KeepsJournal, journal_name, journal_stream};
ghost use Rattle.sysv_model.specs.Writing.{AppendsPrefix};

use crate::screen::print;
use std::io;
use std::io::Write;
use sysv_model::WriteFault;

/// A writer that can wait until what it has taken has reached its device.
pub trait Durable: Write {
    /// The bytes that have reached the device, if they are known.
    ghost synced: { Self → Option (List ℕ) };

    /// Waits until all bytes that it has taken have reached the device, if it has one.
    fn sync(&mut self) -> io::Result<()>
        ensures bytes { Keeps (Self.contents self.old) (Self.contents self.new) }
        ensures ok { OnOk result (synced self.new ≡ Self.contents self.new) };
}

/// A borrowed screen that counts how often it has failed.
#[derive(Drop)]
pub struct Journal<'a, S> {
    stream: &'a mut S,
    failures: u64,
}

impl<'a, S> Journal<'a, S> {
    ghost use Rattle.sysv_clients.specs.Journal.{journal_failures};

    /// Borrows `stream` with a failure count of 0.
    pub fn new(stream: &'a mut S) -> Journal<'a, S>
        ensures stream { journal_stream result ≡ stream.old }
        ensures same { journal_name result ≡ stream.entry.ghost_name }
        ensures failed { journal_failures result ≡ 0 }
    {
        Journal {
            stream,
            failures: 0,
        }
    }

    /// Returns the number of lines at which the screen has failed, modulo 2^64.
    pub fn failures(&self) -> u64
        ensures { result ≡ journal_failures self.now }
    {
        self.failures
    }
}

impl<S: Durable> Journal<'_, S> {
    /// Writes a line and flushes it, and syncs it if `syncs` says so. It fails exactly if the screen
    /// does, and that is counted.
    ///
    /// # Errors
    ///
    /// - `WriteFault` if a write, the flush or the sync fails. The screen has taken a prefix of the
    ///   line, possibly all of it.
    pub(crate) fn append(&mut self, line: &[u8], syncs: bool) -> Result<(), WriteFault>
        ensures ok { OnOk result (Appends (S.contents (journal_stream self.old))
            (S.contents (journal_stream self.new)) line.now) }
        ensures synced { OnOk result (syncs ≡ true → S.synced (journal_stream self.new)
            ≡ S.contents (journal_stream self.new)) }
        ensures err { OnErr result (AppendsPrefix (S.contents (journal_stream self.old))
            (S.contents (journal_stream self.new)) line.now) }
        ensures kept { KeepsJournal self.old self.new (is_err result) }
    {
        match put(self.stream, line, syncs) {
            Ok(()) => Ok(()),
            Err(WriteFault) => {
                self.failures = self.failures.wrapping_add(1);
                Err(WriteFault)
            }
        }
    }
}

/// Writes a line to the screen and flushes it, and syncs it if `syncs` says so.
fn put<S: Durable>(screen: &mut S, line: &[u8], syncs: bool) -> Result<(), WriteFault>
    ensures ok { OnOk result (Appends (S.contents screen.old) (S.contents screen.new) line.now) }
    ensures synced { OnOk result (syncs ≡ true → S.synced screen.new ≡ S.contents screen.new) }
    ensures err { OnErr result (AppendsPrefix (S.contents screen.old)
        (S.contents screen.new) line.now) }
{
    print(screen, line)?;
    if !syncs {
        return Ok(());
    }
    match screen.sync() {
        Ok(()) => Ok(()),
        Err(_) => Err(WriteFault),
    }
}
