//! Descriptors that a thread waits for.
ghost use Rattle.std.specs.Prelude.{◌≡◌, IfSome};

use mio::unix::SourceFd;
use mio::{Interest, Poll, Token};
use std::os::fd::{AsRawFd, RawFd};

/// The number of the last of the three standard streams.
const STANDARD_ERROR: RawFd = 2;

/// The number of a descriptor, with which a thread can wait until it can be read or written. The
/// number itself stays in this crate.
#[derive(Clone, Copy)]
pub struct Watched {
    number: RawFd,
}

impl Watched {
    /// A descriptor that refers to no file. Nothing ever happens to it.
    pub const NONE: Watched = Watched { number: -1 };

    /// The descriptor of standard error.
    pub const STANDARD_ERROR: Watched = Watched {
        number: STANDARD_ERROR,
    };

    /// Returns the descriptor of this stream or listener.
    pub fn of<F: AsRawFd>(file: &F) -> Watched
        ensures { IfSome (F.raw_fd file.now) (λ number. result.number ≡ number) }
    {
        Watched::numbered(file.as_raw_fd())
    }

    /// Returns whether it is that of a standard stream.
    pub fn is_standard(self) -> bool {
        self.number <= STANDARD_ERROR
    }

    /// Returns the descriptor of this number.
    pub(crate) fn numbered(number: RawFd) -> Watched
        ensures { result.number ≡ number }
    {
        Watched { number }
    }

    /// Returns the number.
    pub(crate) fn number(self) -> RawFd
        ensures { result ≡ self.number }
    {
        self.number
    }

    /// Has the poll report under this token that the descriptor has this interest. Returns whether
    /// the system takes that.
    pub fn register(self, poll: &Poll, token: Token, interest: Interest) -> bool {
        poll.registry()
            .register(&mut SourceFd(&self.number), token, interest)
            .is_ok()
    }

    /// Has the poll report another interest of the descriptor, which is registered already. Returns
    /// whether the system takes that.
    pub fn reregister(self, poll: &Poll, token: Token, interest: Interest) -> bool {
        poll.registry()
            .reregister(&mut SourceFd(&self.number), token, interest)
            .is_ok()
    }
}
