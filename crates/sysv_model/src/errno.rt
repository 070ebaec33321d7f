//! The errors of all calls.

ghost use Rattle.std.specs.Prelude.{◌≡◌, Some};
ghost use Rattle.sysv_model.specs.Errors.{number_of, name_of};

use std::fmt;

/// The errors of this profile, with the names of the standard (POSIX.1-2017, `errno.h`).
///
/// The standard does not assign numbers to them; the numbers here are this profile's.
#[derive(Clone, Copy, PartialEq, Eq, Debug)]
pub enum Errno {
    /// The caller is not user 0, the queue's owner or its creator, or a caller other than user 0
    /// requested a larger `qbytes`.
    EPERM,
    /// The key has no queue, and the call does not request a new one.
    ENOENT,
    /// The message body is longer than the size that the call gives.
    E2BIG,
    /// There is no room for the message, and the call must not wait.
    EAGAIN,
    /// The queue's mode does not grant the permission that the call needs.
    EACCES,
    /// The key has a queue, and the call accepts only a new one.
    EEXIST,
    /// An argument or the identifier is not valid.
    EINVAL,
    /// No slot is vacant.
    ENOSPC,
    /// No queued message is named by the receive, and the call must not wait.
    ENOMSG,
    /// The queue was removed during the call.
    EIDRM,
    /// A gate of the service is worn out: its 2^62 turns are made.
    EOVERFLOW,
}

impl Errno {
    /// Returns the error's number in this profile, 1 to 75.
    pub fn number(self) -> u8
        ensures { result ≡ number_of self }
    {
        match self {
            Errno::EPERM => 1,
            Errno::ENOENT => 2,
            Errno::E2BIG => 7,
            Errno::EAGAIN => 11,
            Errno::EACCES => 13,
            Errno::EEXIST => 17,
            Errno::EINVAL => 22,
            Errno::ENOSPC => 28,
            Errno::ENOMSG => 42,
            Errno::EIDRM => 43,
            Errno::EOVERFLOW => 75,
        }
    }
}

/// Writes the standard's name of the error, for example `EACCES`.
impl fmt::Display for Errno {
    ghost output = { λ e. Some (name_of e) };

    fn fmt<W: fmt::Write>(&self, f: &mut fmt::Formatter<W>) -> fmt::Result {
        let name = match self {
            Errno::EPERM => "EPERM",
            Errno::ENOENT => "ENOENT",
            Errno::E2BIG => "E2BIG",
            Errno::EAGAIN => "EAGAIN",
            Errno::EACCES => "EACCES",
            Errno::EEXIST => "EEXIST",
            Errno::EINVAL => "EINVAL",
            Errno::ENOSPC => "ENOSPC",
            Errno::ENOMSG => "ENOMSG",
            Errno::EIDRM => "EIDRM",
            Errno::EOVERFLOW => "EOVERFLOW",
        };
        f.write_str(name)
    }
}
