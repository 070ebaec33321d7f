//! Sockets that connections are accepted from, and inputs whose end ends a server.
ghost use Rattle.std.specs.Prelude.{◌≡◌, ◌⊎◌, ℕ, Bool, true, false, is_some, List, ◌∷◌, [], Option, None, Some, IfErr, IfOk, MatchResult, OnOk, OnErr, Result, length};
ghost use Rattle.std.specs.declared.io.Error.{Error};
ghost use Rattle.sysv_seats.specs.declared.socket_stream.SocketStream.{SocketStream};
ghost use Rattle.sysv_seats.specs.Untold.{callers_of, limits_of};
ghost use Rattle.sysv_server.specs.Listening.{added, has_opened, read_from};

use crate::host::Host;
use std::io;
use std::io::{ErrorKind, Read};
use std::os::fd::AsRawFd;
use std::os::unix::net::UnixListener;
use sysv_seats::{Attendance, Callers, Limits, SocketStream};
use sysv_system::{Several, Watched};

/// What the state of a server shows of one of several sockets.
#[derive(Clone, Copy, PartialEq, Eq, Debug)]
pub struct Shown<'s> {
    /// The path of the socket.
    pub path: &'s str,
    /// The number of its connections that are open.
    pub clients: u64,
}

/// A socket that connections are accepted from.
pub trait Listens {
    /// The connections that were accepted so far, in order, if it tells them.
    ghost accepted: { Self → Option (List SocketStream) };

    /// Whether clients can connect.
    ghost listens: { Self → Bool };

    /// With which error an accept may fail, and what socket it leaves.
    ghost fails: { Self → Error → Self → Type 0 };

    /// What one step leaves of the socket, in which it accepted this connection or none. So it states
    /// the callers that a connection lets in.
    ghost steps: { Self → Option SocketStream → Self → Type 0 };

    /// Returns whether clients can connect.
    fn is_open(&self) -> bool
        ensures { result ≡ listens self.now };

    /// Opens the socket. The server calls it before the first accept, when it has its memory and
    /// its threads, if the socket is not open.
    ///
    /// # Errors
    ///
    /// - The system's error if the socket cannot be opened. It stays closed.
    fn open(&mut self) -> io::Result<()>
        ensures ok { OnOk result (listens self.new ≡ true) }
        ensures err { OnErr result (listens self.new ≡ listens self.old) }
        ensures same { accepted self.new ≡ accepted self.old }
        ensures step { steps self.old None self.new };

    /// Opens the part of the socket at which sessions are served alone. If its terms have `alone`, the
    /// server calls it before the first accept, before it calls `open`, and after the others, each time
    /// when the socket is not open.
    ///
    /// # Errors
    ///
    /// - The system's error if that part cannot be opened, and an error if there is none. It stays
    ///   closed.
    fn open_alone(&mut self) -> io::Result<()>
        ensures ok { OnOk result (listens self.new ≡ true) }
        ensures err { OnErr result (listens self.new ≡ listens self.old) }
        ensures same { accepted self.new ≡ accepted self.old }
        ensures step { (self.new ≡ self.old) ⊎ steps self.old None self.new }
    {
        Err(io::Error::from(ErrorKind::Unsupported))
    }

    /// Adds what can be read when a client waits to be accepted that is let in while there is `room` for
    /// so many more. Returns whether no client is kept out: one of several sockets takes no more clients
    /// than it leaves room for.
    fn watch(&self, room: u64, listeners: &mut Several) -> bool;

    /// Adds what is shown of it, if it is one of several sockets and its path is known. Returns `None` if
    /// memory is refused.
    fn show<'s>(&'s self, _shown: &mut Vec<Shown<'s>>) -> Option<()> {
        Some(())
    }

    /// Accepts the next connection while there is `room` for so many more, whose client may be cut off
    /// under these limits.
    ///
    /// # Errors
    ///
    /// - The system's error if the accept fails. No connection was accepted.
    fn accept(&mut self, room: u64, limits: Limits) -> io::Result<SocketStream>
        ensures ok { IfOk result (λ stream.
            accepted self.new ≡ added (accepted self.old) (stream ∷ [])) }
        ensures limits { IfOk result (λ stream. limits_of stream ≡ limits) }
        ensures err { OnErr result (accepted self.new ≡ accepted self.old) }
        ensures failed { IfErr result (λ why. fails self.old why self.new) }
        ensures same { listens self.new ≡ listens self.old }
        ensures step { MatchResult result (λ stream. steps self.old (Some stream) self.new)
            (λ why. steps self.old None self.new) };

    /// Closes the socket. After that, clients are refused.
    fn close(&mut self)
        ensures closed { listens self.new ≡ false }
        ensures same { accepted self.new ≡ accepted self.old }
        ensures step { steps self.old None self.new };
}

/// An input whose end ends a server.
pub trait Input {
    /// What a read of at most this number of bytes may return, and what input it leaves.
    ghost reads: { Self → ℕ → Result ℕ Error → Self → Type 0 };

    /// Returns the descriptor that can be read when there are bytes, or the end.
    fn descriptor(&self) -> Watched;

    /// Reads some bytes. It returns 0 at the end of the input.
    ///
    /// # Errors
    ///
    /// - The system's error if the input cannot be read.
    fn read(&mut self, piece: &mut [u8]) -> io::Result<usize>
        ensures { reads self.old (length piece.old) result self.new };
}

/// An open listener of the caller. It stays open, and no more is accepted from it once this is
/// closed. It does not tell the connections.
#[derive(Drop)]
pub(crate) struct Lent<'a> {
    listener: &'a UnixListener,
    is_open: bool,
}

impl<'a> Lent<'a> {
    /// Lends an open listener.
    pub(crate) fn new(listener: &'a UnixListener) -> Lent<'a>
        ensures { result.is_open ≡ true }
    {
        Lent {
            listener,
            is_open: true,
        }
    }
}

impl Listens for Lent<'_> {
    ghost use Rattle.std.specs.Prelude.{IfSome, None, ⊤};
    ghost use Rattle.sysv_seats.specs.declared.callers.Callers.TheVariants as Callers;
    ghost use Rattle.sysv_seats.specs.Untold.{callers_of};

    ghost accepted = { λ _. None };

    ghost listens = { λ lent. lent.is_open };

    ghost fails = { λ _ _ _. ⊤ };

    ghost steps = { λ _ step _. IfSome step (λ stream. callers_of stream ≡ Callers.Anyone) };

    fn is_open(&self) -> bool {
        self.is_open
    }

    fn open(&mut self) -> io::Result<()> {
        self.is_open = true;
        Ok(())
    }

    fn watch(&self, _room: u64, listeners: &mut Several) -> bool {
        listeners.add(Watched::of(self.listener));
        true
    }

    fn accept(&mut self, _room: u64, limits: Limits) -> io::Result<SocketStream> {
        accept_from(self.listener, limits, Callers::Anyone, None)
    }

    fn close(&mut self) {
        self.is_open = false;
    }
}

/// A socket that a host opens. It does not tell the connections.
#[derive(Drop)]
pub struct Hosted<H> {
    host: H,
    number: usize,
    callers: Callers,
    /// Its clients, if it is one of several sockets.
    attendance: Option<Attendance>,
    listener: Option<UnixListener>,
}

impl<H> Hosted<H> {
    /// Creates the socket of this number, which its host has not opened yet. It lets in these callers.
    /// If it has an attendance, it takes a client only if it has fewer than there is room for.
    pub fn new(
        host: H,
        number: usize,
        callers: Callers,
        attendance: Option<Attendance>,
    ) -> Hosted<H>
        ensures closed { has_opened result ≡ false }
        ensures number { result.number ≡ number }
        ensures callers { result.callers ≡ callers }
    {
        Hosted {
            host,
            number,
            callers,
            attendance,
            listener: None,
        }
    }

    /// Returns whether it takes one more client while there is room for so many.
    fn takes_one(&self, room: u64) -> bool {
        match &self.attendance {
            Some(attendance) => attendance.count() < room,
            None => true,
        }
    }
}

impl<H: Host> Listens for Hosted<H> {
    ghost use Rattle.std.specs.Prelude.{IfSome, None, is_some, ⊤};
    ghost use Rattle.sysv_seats.specs.Untold.{callers_of};

    ghost accepted = { λ _. None };

    ghost listens = { λ hosted. is_some hosted.listener };

    ghost fails = { λ _ _ _. ⊤ };

    ghost steps = { λ old step new. (new.number ≡ old.number) × (new.callers ≡ old.callers)
        × IfSome step (λ stream. callers_of stream ≡ old.callers) };

    fn is_open(&self) -> bool {
        self.listener.is_some()
    }

    fn open(&mut self) -> io::Result<()> {
        self.listener = Some(self.host.listen(self.number)?);
        Ok(())
    }

    fn watch(&self, room: u64, listeners: &mut Several) -> bool {
        let takes_one = self.takes_one(room);
        listeners.add(match &self.listener {
            Some(listener) if takes_one => Watched::of(listener),
            _ => Watched::NONE,
        });
        takes_one || self.listener.is_none()
    }

    fn show<'s>(&'s self, shown: &mut Vec<Shown<'s>>) -> Option<()> {
        if let (Some(attendance), Some(path)) = (&self.attendance, self.host.path(self.number)) {
            let clients = attendance.count();
            shown.push(Shown { path, clients }).ok()?;
        }
        Some(())
    }

    fn accept(&mut self, _room: u64, limits: Limits) -> io::Result<SocketStream> {
        let share = match &self.attendance {
            Some(attendance) => attendance.join(),
            None => None,
        };
        match &self.listener {
            Some(listener) => accept_from(listener, limits, self.callers, share),
            None => Err(io::Error::from(ErrorKind::NotConnected)),
        }
    }

    fn close(&mut self) {
        self.listener = None;
    }
}

/// Accepts a connection from a Unix socket, which lets in these callers and has this share of its
/// attendance. It is closed if it cannot be made non-blocking.
fn accept_from(
    listener: &UnixListener,
    limits: Limits,
    callers: Callers,
    share: Option<Attendance>,
) -> io::Result<SocketStream>
    ensures limits { IfOk result (λ stream. limits_of stream ≡ limits) }
    ensures callers { IfOk result (λ stream. callers_of stream ≡ callers) }
{
    let (stream, _address) = listener.accept()?;
    SocketStream::new(stream, limits, callers, share)
}

/// An input of the standard library.
#[derive(Drop)]
pub struct Reading<I: Drop>(I);

impl<I: Drop> Reading<I> {
    /// Creates the input of a server that reads from this one.
    pub fn new(input: I) -> Reading<I>
        ensures { read_from result ≡ input }
    {
        Reading(input)
    }
}

impl<I: Read + AsRawFd + Drop> Input for Reading<I> {
    ghost use Rattle.std.specs.Prelude.{◌≡◌, ◌<◌, ⊤, MatchResult};
    ghost use Rattle.std.specs.Io.KnownBytes.{IsAtEnd};

    ghost reads = { λ _ room told new. MatchResult told
        (λ count. count ≡ 0 → 0 < room → IsAtEnd (I.remaining new.0)) (λ _. ⊤) };

    fn descriptor(&self) -> Watched {
        Watched::of(&self.0)
    }

    fn read(&mut self, piece: &mut [u8]) -> io::Result<usize> {
        self.0.read(piece)
    }
}

/// Returns the input of a server, if there is one.
pub(crate) fn input_of<I: Drop>(input: Option<I>) -> Option<Reading<I>>
    ensures { is_some result ≡ is_some input }
{
    match input {
        Some(input) => Some(Reading::new(input)),
        None => None,
    }
}
