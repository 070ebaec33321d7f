//! Calls that are left after some time.
ghost use Rattle.std.specs.Prelude.{◌≡◌, None, Some, option_and_then};
ghost use Rattle.std.specs.Io.{ReadsAtMost};
ghost use Rattle.std.specs.Io.KnownBytes.{ReadConsumes};

use crate::place::Leave;
use crate::silence::{LastRead, Silence};
use std::io;
use std::io::{ErrorKind, Read, Write};
use std::time::Duration;

/// The number of seconds that a server has to end a session that was left.
const TO_END: u64 = 60;

/// The reader of a connection. A read that waits too long leaves the call that waits: it shuts down
/// the writing half of the connection, and then reads what the server still sends. If the server
/// has sent nothing at all, no call was made, and the read fails at once: there is no reply.
#[derive(Drop)]
pub(crate) struct Leaver<R> {
    /// The connection's own reader, once there is a connection.
    reader: Option<R>,
    /// How the last read ended.
    last: LastRead,
    /// Whether the server has sent anything.
    is_served: bool,
    /// Whether a call may be left.
    may_leave: bool,
    /// Whether the call was left.
    is_leaving: bool,
    /// Whether the session ended after that.
    has_left: bool,
    /// Whether the session ended after that, perhaps after further replies.
    has_ended: bool,
}

impl<R: Leave> Leaver<R> {
    /// Returns the reader of a connection that is not made yet. It leaves a call only if
    /// `may_leave` is true. If it leaves none, a read that waits too long fails.
    pub(crate) fn unconnected(may_leave: bool) -> Leaver<R>
        ensures { result.reader ≡ None }
    {
        Leaver {
            reader: None,
            last: LastRead::None,
            is_served: false,
            may_leave,
            is_leaving: false,
            has_left: false,
            has_ended: false,
        }
    }

    /// Reads from this connection from now on. A read waits at most this number of milliseconds,
    /// or without end if there is none.
    pub(crate) fn connect(&mut self, reader: R, time: Option<u64>)
    where
        R: Drop,
        ensures { self.new.reader ≡ Some reader }
    {
        bound(&reader, time);
        self.reader = Some(reader);
    }

    /// Reads once, like `Read::read` of the connection's own reader.
    fn read_once(&mut self, buf: &mut [u8]) -> io::Result<usize>
        ensures bound { ReadsAtMost result buf.new }
        ensures bytes { ReadConsumes (option_and_then R.remaining self.old.reader)
            (option_and_then R.remaining self.new.reader) result buf.new }
    {
        match &mut self.reader {
            Some(reader) => reader.read(buf),
            None => Err(io::Error::from(ErrorKind::NotConnected)),
        }
    }

    /// Leaves the call that waits, and gives the server some time to end the session.
    fn shut(&self) {
        if let Some(reader) = &self.reader {
            reader.limit(Duration::from_secs(TO_END));
            reader.leave();
        }
    }

    /// Returns whether the call was left and the session then ended without a reply.
    pub(crate) fn has_left(&self) -> bool {
        self.has_left
    }

    /// Returns whether the call was left, and the session then ended, perhaps after further
    /// replies. No call without a reply had an effect then.
    pub(crate) fn has_ended(&self) -> bool {
        self.has_ended
    }

    /// Returns why there is no reply, after a read or a write of the connection that brought none.
    pub(crate) fn silence<W: Write>(&self, writer: &Outgoing<W>) -> Silence {
        if self.is_leaving && self.is_served {
            return Silence::Late;
        }
        Silence::after(self.last, self.is_served, writer.has_failed)
    }

    /// Returns whether the time was over and the last call had no effect: it was left and the
    /// session then ended without a reply, or a reply came after all and a later request could not
    /// be written.
    pub(crate) fn is_over<W: Write>(&self, writer: &Outgoing<W>) -> bool {
        self.has_left || (self.is_leaving && self.is_served && writer.has_failed)
    }
}

/// Lets each read of a connection wait at most this number of milliseconds, or without end if there
/// is none.
fn bound<R: Leave>(reader: &R, time: Option<u64>) {
    if let Some(time) = time {
        reader.limit(limit(time));
    }
}

/// Returns the time of this number of milliseconds, or a tenth of a second for 0: a server may need
/// some time for each reply.
fn limit(time: u64) -> Duration {
    match time {
        0 => Duration::from_millis(100),
        _ => Duration::from_millis(time),
    }
}

impl<R: Leave> Read for Leaver<R> {
    ghost remaining = { λ leaver. option_and_then R.remaining leaver.reader };

    fn read(&mut self, buf: &mut [u8]) -> io::Result<usize> {
        let why = match self.read_once(buf) {
            Err(why) if why.kind() == ErrorKind::WouldBlock && self.may_leave && !self.is_leaving =>
                why,
            outcome => {
                self.last = LastRead::of(&outcome);
                self.is_served |= self.last == LastRead::Bytes;
                self.has_ended |= self.is_leaving && matches!(outcome, Ok(0));
                return outcome;
            }
        };
        self.last = LastRead::Late;
        self.is_leaving = true;
        self.shut();
        if !self.is_served {
            return Err(why);
        }
        let outcome = self.read_once(buf);
        self.last = LastRead::of(&outcome);
        self.has_left = matches!(outcome, Ok(0));
        self.has_ended = self.has_left;
        outcome
    }
}

/// The writer of a connection, which records whether a write failed.
#[derive(Drop)]
pub(crate) struct Outgoing<W> {
    /// The connection's own writer, once there is a connection.
    writer: Option<W>,
    has_failed: bool,
}

impl<W: Write> Outgoing<W> {
    /// Returns the writer of a connection that is not made yet.
    pub(crate) fn unconnected() -> Outgoing<W>
        ensures { result.writer ≡ None }
    {
        Outgoing {
            writer: None,
            has_failed: false,
        }
    }

    /// Writes to this connection from now on.
    pub(crate) fn connect(&mut self, writer: W)
    where
        W: Drop,
        ensures { self.new.writer ≡ Some writer }
    {
        self.writer = Some(writer);
    }
}

impl<W: Write> Write for Outgoing<W> {
    ghost contents = { λ outgoing. option_and_then W.contents outgoing.writer };

    fn write(&mut self, buf: &[u8]) -> io::Result<usize> {
        let outcome = match &mut self.writer {
            Some(writer) => writer.write(buf),
            None => Err(io::Error::from(ErrorKind::NotConnected)),
        };
        self.has_failed |= outcome.is_err();
        outcome
    }

    fn flush(&mut self) -> io::Result<()> {
        match &mut self.writer {
            Some(writer) => writer.flush(),
            None => Err(io::Error::from(ErrorKind::NotConnected)),
        }
    }
}
