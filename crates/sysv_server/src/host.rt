//! The program that a server runs in.
ghost use Rattle.std.specs.Prelude.{◌≡◌, ◌≢◌, true, false};

use std::io;
use std::os::unix::net::UnixListener;

/// The program that a server runs in: it opens the sockets, and learns what happens to the server.
pub trait Host {
    /// Opens the socket of this number, from which connections are accepted. The server calls it once
    /// for each of its sockets, in order from 0, when it has its memory and its threads. The socket at
    /// which sessions are served alone has the number after these. It is opened before the others, and
    /// again after them, once for each last session.
    fn listen(&self, number: usize) -> io::Result<UnixListener>;

    /// Opens the socket on which the state of the server is shown, if there is one. The server
    /// calls it once, just before its listeners are opened, if its terms have `stats`.
    fn listen_for_readers(&self) -> io::Result<Option<UnixListener>> {
        Ok(None)
    }

    /// Returns the path of the socket of this number, if it is known. It is shown with the state of a
    /// server that has several sockets.
    fn path(&self, _number: usize) -> Option<&str> {
        None
    }

    /// Learns of something that happened to the server. Like `listen`, the thread that accepts
    /// connections calls it.
    fn note(&self, notice: Notice);
}

/// A host that is lent, for example to each of its sockets.
impl<H: Host> Host for &H {
    fn listen(&self, number: usize) -> io::Result<UnixListener> {
        (**self).listen(number)
    }

    fn listen_for_readers(&self) -> io::Result<Option<UnixListener>> {
        (**self).listen_for_readers()
    }

    fn path(&self, number: usize) -> Option<&str> {
        (**self).path(number)
    }

    fn note(&self, notice: Notice) {
        (**self).note(notice);
    }
}

/// What happened to a server that goes on.
#[derive(Debug, Drop)]
pub enum Notice {
    /// An accept failed for want of something. The server tries again every 100 ms.
    Held(io::Error),
    /// Connections are accepted again.
    Resumed,
    /// An accept at the socket of this number failed, and is not tried again. The server accepts
    /// connections at its other sockets.
    Lost(usize, io::Error),
    /// The memory of a session was refused. It is told of the first such session alone.
    NoMemory,
    /// A client was cut off, since the system refused to report its events. It is told of the first such
    /// client alone.
    Unwatched,
    /// The time for an orderly end is over, and the sessions that are left are cut off.
    Cut,
    /// There is no further last session: its socket could not be opened, or no client has connected
    /// in time.
    NoLast,
}

/// Why a server accepted no more connections.
#[derive(Debug, Drop)]
pub enum Reason {
    /// The number of connections was reached.
    Full,
    /// The input has ended or could not be read.
    InputOver,
    /// The socket could not be opened.
    NoSocket(io::Error),
    /// An accept failed.
    Accept(io::Error),
}

impl Reason {
    /// Returns whether the input has ended or could not be read.
    pub(crate) fn is_input_over(&self) -> bool
        ensures over { result ≡ true → self.now ≡ Reason.InputOver }
        ensures other { result ≡ false → self.now ≢ Reason.InputOver }
    {
        match self {
            Reason::InputOver => true,
            Reason::Full | Reason::NoSocket(_) | Reason::Accept(_) => false,
        }
    }
}

/// The host of a server that has its listener. It drops what it is told.
#[derive(Drop)]
pub(crate) struct Quiet;

impl Host for Quiet {
    fn listen(&self, _number: usize) -> io::Result<UnixListener> {
        Err(io::Error::from(io::ErrorKind::Unsupported))
    }

    fn note(&self, _notice: Notice) {}
}
