//! Connections on Unix sockets that never wait. No contract says what a socket reads and writes, so
//! they tell no bytes and leave nothing in a book.
ghost use Rattle.std.specs.Prelude.{◌≡◌, None, false, IfOk};
ghost use Rattle.std.specs.Io.{ReadsAtMost, WritesAtMost};
ghost use Rattle.std.specs.Net.Unix.{unix_stream_raw_fd};
ghost use Rattle.sysv_seats.specs.Sockets.{drained_of, filled_of};

use crate::attendance::Attendance;
use crate::callers::Callers;
use crate::limits::{Limit, Limits};
use crate::non_blocking::{Drained, Filled, NonBlocking, Over};
use std::io;
use std::io::{ErrorKind, Read, Write};
use std::os::unix::net::UnixStream;
use sysv_system::Watched;

/// A connection on a Unix socket.
///
/// The system reports a reset once, and an end after it. So the connection keeps the first reason
/// why nothing more can be read, and whether a write has failed.
#[derive(Drop)]
pub struct SocketStream {
    stream: UnixStream,
    over: Option<Over>,
    refuses: bool,
    limits: Limits,
    callers: Callers,
    /// Its share of the attendance of the socket that it came in at, if that is counted.
    share: Option<Attendance>,
}

impl SocketStream {
    /// Creates the connection of this stream, whose calls do not wait from now on. The server may
    /// cut its client off under these limits, and lets in these callers. Until it is closed, it has a
    /// share of an attendance, if one is given.
    ///
    /// # Errors
    ///
    /// - The system's error if the stream cannot be made non-blocking. The stream is closed.
    pub fn new(
        stream: UnixStream,
        limits: Limits,
        callers: Callers,
        share: Option<Attendance>,
    ) -> io::Result<SocketStream>
        ensures { IfOk result (λ socket. socket ≡ record {
          stream = stream;
          over = None;
          refuses = false;
          limits = limits;
          callers = callers;
          share = share;
        }) }
    {
        stream.set_nonblocking(true)?;
        Ok(SocketStream {
            stream,
            over: None,
            refuses: false,
            limits,
            callers,
            share,
        })
    }

    /// Returns the descriptor, by which an event loop watches the connection.
    pub fn watched(&self) -> Watched
        ensures { result.number ≡ unix_stream_raw_fd self.now.stream }
    {
        Watched::of(&self.stream)
    }

    /// Reads from the stream, again while a signal interrupts the call.
    fn read_now(&self, buf: &mut [u8]) -> io::Result<usize>
        ensures { ReadsAtMost result buf.new }
    {
        let mut stream: &UnixStream = &self.stream;
        for _ in 0..u64::MAX {
            match stream.read(buf) {
                Err(why) if why.kind() == ErrorKind::Interrupted => {}
                outcome => return outcome,
            }
        }
        stream.read(buf)
    }

    /// Writes to the stream, again while a signal interrupts the call.
    fn write_now(&self, bytes: &[u8]) -> io::Result<usize>
        ensures { WritesAtMost result bytes.now }
    {
        let mut stream: &UnixStream = &self.stream;
        for _ in 0..u64::MAX {
            match stream.write(bytes) {
                Err(why) if why.kind() == ErrorKind::Interrupted => {}
                outcome => return outcome,
            }
        }
        stream.write(bytes)
    }
}

impl NonBlocking for SocketStream {
    ghost use Rattle.std.specs.Prelude.{◌≡◌, true};
    ghost use Rattle.sysv_seats.specs.Untold.{closing_sockets, untold};

    type Book = ();

    ghost incoming = { untold };

    ghost outgoing = { untold };

    ghost over = { λ socket. socket.over };

    ghost refuses = { λ socket. socket.refuses ≡ true };

    ghost closes = { closing_sockets };

    fn fill(&mut self, buf: &mut [u8]) -> Filled {
        if let Some(why) = self.over {
            return Filled::Over(why);
        }
        if buf.is_empty() {
            return Filled::NothingNow;
        }
        let outcome = self.read_now(buf);
        let filled = filled_by(&outcome);
        if let Filled::Over(why) = filled {
            self.over = Some(why);
        }
        filled
    }

    fn drain(&mut self, bytes: &[u8]) -> Drained {
        if self.refuses {
            return Drained::Failed;
        }
        if bytes.is_empty() {
            return Drained::NothingNow;
        }
        let outcome = self.write_now(bytes);
        let drained = drained_by(&outcome);
        if let Drained::Failed = drained {
            self.refuses = true;
        }
        drained
    }

    fn may_leave(&self) -> bool {
        true
    }

    fn may_be_cut(&self, limit: Limit) -> bool {
        self.limits.has(limit)
    }

    fn callers(&self) -> Callers {
        self.callers
    }

    fn close(self, _book: &mut ()) {}
}

/// Returns what a read of a stream into a buffer that is not empty means, which returned this.
fn filled_by(outcome: &io::Result<usize>) -> Filled
    ensures { result ≡ filled_of outcome.now }
{
    match outcome {
        Ok(0) => Filled::Over(Over::End),
        Ok(count) => Filled::Bytes(*count),
        Err(why) => match why.kind() {
            ErrorKind::WouldBlock => Filled::NothingNow,
            ErrorKind::ConnectionReset => Filled::Over(Over::Reset),
            _ => Filled::Over(Over::Failed),
        },
    }
}

/// Returns what a write of some bytes to a stream means, which returned this.
fn drained_by(outcome: &io::Result<usize>) -> Drained
    ensures { result ≡ drained_of outcome.now }
{
    match outcome {
        Ok(0) => Drained::Failed,
        Ok(count) => Drained::Took(*count),
        Err(why) => match why.kind() {
            ErrorKind::WouldBlock => Drained::NothingNow,
            _ => Drained::Failed,
        },
    }
}
