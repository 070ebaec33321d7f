//! The place of a server, and connections to it.
ghost use Rattle.std.specs.Prelude.{◌≡◌, ⊤, ℕ, List, Option, None, IfErr, IfOk};
ghost use Rattle.std.specs.declared.io.Error.{Error};

use std::io;
use std::io::{Read, Write};
use std::net::{Net, Shutdown};
use std::os::unix::net::UnixStream;
use std::time::Duration;

/// The reader of a connection, on which a client can leave the call that waits.
pub trait Leave: Read {
    /// Lets each read wait no longer than this time.
    fn limit(&self, time: Duration);

    /// Shuts down the writing half of the connection.
    fn leave(&self);
}

/// Where servers may be, of which each has a path.
pub trait Place: Drop {
    /// What replies are read from.
    type Input: Leave + Drop;
    /// What requests are written to.
    type Output: Write + Drop;

    /// What the reader of a connection to a path has left at first, if that is known.
    ghost incoming: { Self → List ℕ → Option (List ℕ) } = { λ _ _. None };
    /// What the writer of a connection to a path has taken at first, if that is known.
    ghost outgoing: { Self → List ℕ → Option (List ℕ) } = { λ _ _. None };
    /// The errors with which a connection to a path may fail.
    ghost refuses: { Self → List ℕ → Error → Type 0 } = { λ _ _ _. ⊤ };

    /// Connects to the server at `path`.
    fn connect(self, path: &str) -> io::Result<(Self::Input, Self::Output)>
        ensures reader { IfOk result (λ ends.
            Self.Input.remaining ends.0 ≡ incoming self path.now) }
        ensures writer { IfOk result (λ ends.
            Self.Output.contents ends.1 ≡ outgoing self path.now) }
        ensures refused { IfErr result (refuses self path.now) };
}

/// The sockets of servers.
#[derive(Drop)]
pub struct Socket<'a, R> {
    /// The runtime, which opens the connection.
    pub rt: &'a R,
    /// The connection, once there is one.
    pub stream: &'a mut Option<UnixStream>,
}

impl<'a, R: Net> Place for Socket<'a, R> {
    type Input = &'a UnixStream;

    type Output = &'a UnixStream;

    fn connect(self, path: &str) -> io::Result<(&'a UnixStream, &'a UnixStream)> {
        let stream: &UnixStream = self.stream.insert(UnixStream::connect(self.rt, path)?);
        Ok((stream, stream))
    }
}

impl Leave for &UnixStream {
    fn limit(&self, time: Duration) {
        let _ = self.set_read_timeout(Some(time));
    }

    fn leave(&self) {
        let _ = self.shutdown(Shutdown::Write);
    }
}
