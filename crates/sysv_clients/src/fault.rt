//! Why a client's dialogue with a server ends early.
ghost use Rattle.std.specs.Prelude.{◌≡◌};
ghost use Rattle.sysv_clients.specs.Faults.{fault_line};

use sysv_model::{Errno, NoMemory};
use thiserror::Error;

/// Why a client does not complete its task.
#[derive(Clone, Copy, PartialEq, Eq, Debug, Error)]
pub enum ClientFault {
    /// The server refused a request with this error.
    #[error("{0}")]
    Refused(Errno),
    /// A request could not be written, or no reply to it could be read.
    #[error("no reply")]
    NoReply,
    /// Memory was refused: before anything was written or read, or for the line of a row that an
    /// `ipcs` had just read.
    #[error("no memory")]
    NoMemory,
}

impl From<NoMemory> for ClientFault {
    ghost use Rattle.sysv_clients.specs.declared.fault.ClientFault.TheVariants as faults;

    ghost from_gives = { λ _ given. given ≡ faults.NoMemory };

    fn from(_: NoMemory) -> ClientFault {
        ClientFault::NoMemory
    }
}

impl ClientFault {
    /// Returns the line that reports the fault to a user.
    pub fn line(self) -> &'static str
        ensures { result.now ≡ fault_line self }
    {
        match self {
            ClientFault::Refused(error) => refusal_line(error),
            ClientFault::NoReply => "sysvmsg: no reply\n",
            ClientFault::NoMemory => "sysvmsg: no memory\n",
        }
    }
}

/// Returns the line that reports an error of the server to a user.
fn refusal_line(error: Errno) -> &'static str
    ensures { result.now ≡ fault_line (ClientFault.Refused error) }
{
    match error {
        Errno::EPERM => "sysvmsg: EPERM\n",
        Errno::ENOENT => "sysvmsg: ENOENT\n",
        Errno::E2BIG => "sysvmsg: E2BIG\n",
        Errno::EAGAIN => "sysvmsg: EAGAIN\n",
        Errno::EACCES => "sysvmsg: EACCES\n",
        Errno::EEXIST => "sysvmsg: EEXIST\n",
        Errno::EINVAL => "sysvmsg: EINVAL\n",
        Errno::ENOSPC => "sysvmsg: ENOSPC\n",
        Errno::ENOMSG => "sysvmsg: ENOMSG\n",
        Errno::EIDRM => "sysvmsg: EIDRM\n",
        Errno::EOVERFLOW => "sysvmsg: EOVERFLOW\n",
    }
}
