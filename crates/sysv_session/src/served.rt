//! The result of a session.
ghost use Rattle.std.specs.Prelude.{◌≡◌};
ghost use Rattle.sysv_session.specs.declared.served.End.TheVariants as ends;

use sysv_queue::Tally;
use sysv_wire::{Fault, WriteFault};

/// The maximum number of requests in a session, including its hello.
pub(crate) const SESSION_REQUESTS: u32 = 4_294_967_295;

/// Why a session ended.
#[derive(Clone, Copy, PartialEq, Eq, Debug)]
pub enum End {
    /// The input ended before another request.
    Ended,
    /// Memory for the bodies was refused. Nothing was read or written.
    NoMemory,
    /// The first request was not a hello. Nothing was written.
    NoHello,
    /// A request could not be read. It has no reply.
    ///
    /// A request after the hello that is of another version is `BadField`. A later hello of the
    /// session's version is `BadOp`.
    Fault(Fault),
    /// The writer failed, took no byte, or could not be flushed. The last reply may not have been
    /// written.
    Write,
    /// 4,294,967,295 requests were answered. No more was read.
    Bound,
    /// The client left while its last call waited. That call did nothing and has no reply, and no
    /// more was read.
    Left,
    /// The client reset the connection: it closed it before it had read all that was written to it.
    /// No more was read. Only a conversation ends with it.
    Reset,
}

impl From<Fault> for End {
    ghost from_gives = { λ fault given. given ≡ ends.Fault fault };

    fn from(fault: Fault) -> End {
        End::Fault(fault)
    }
}

impl From<WriteFault> for End {
    ghost from_gives = { λ _ given. given ≡ ends.Write };

    fn from(_fault: WriteFault) -> End {
        End::Write
    }
}

/// What a session did.
#[derive(Clone, Copy, PartialEq, Eq, Debug)]
pub struct Served {
    /// Why the session ended.
    pub end: End,
    /// The messages that the handler returned: `written` counts those whose reply was written whole
    /// and flushed, and `lost` the others.
    pub tally: Tally,
    /// The number of requests that were taken up, 0 to 4,294,967,295: the hello and the requests
    /// that the handler received, also the last one if its call was left. What ended the session
    /// otherwise is not counted.
    pub requests: u32,
}
