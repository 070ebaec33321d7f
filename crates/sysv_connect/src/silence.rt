//! Why a client has no reply.
use std::io::ErrorKind;
use std::{fmt, io};

/// How the last read of a connection ended.
#[derive(Clone, Copy, PartialEq, Eq, Debug)]
pub(crate) enum LastRead {
    /// Nothing was read yet.
    None,
    /// With bytes.
    Bytes,
    /// At the end of the stream.
    End,
    /// It waited too long.
    Late,
    /// It failed in another way.
    Failed,
}

impl LastRead {
    /// Returns how a read ended.
    pub(crate) fn of(outcome: &io::Result<usize>) -> LastRead {
        match outcome {
            Ok(0) => LastRead::End,
            Ok(_) => LastRead::Bytes,
            Err(why) if why.kind() == ErrorKind::WouldBlock => LastRead::Late,
            Err(_) => LastRead::Failed,
        }
    }
}

/// Why a client has no reply.
#[derive(Clone, Copy, PartialEq, Eq, Debug)]
pub(crate) enum Silence {
    /// Nothing at all came in time.
    Unserved,
    /// A later reply did not come in time.
    Late,
    /// The stream ended before anything came.
    Closed,
    /// The stream ended later.
    Ended,
    /// The connection failed.
    Lost,
    /// What came is no reply.
    Strange,
}

impl Silence {
    /// Returns why there is no reply after this last read. `is_served` is whether anything came
    /// before, and `is_cut` whether a write failed.
    pub(crate) fn after(last: LastRead, is_served: bool, is_cut: bool) -> Silence {
        match last {
            LastRead::Late if is_served => Silence::Late,
            LastRead::Late => Silence::Unserved,
            LastRead::End if is_served => Silence::Ended,
            LastRead::End => Silence::Closed,
            LastRead::Bytes if !is_cut => Silence::Strange,
            LastRead::None | LastRead::Bytes | LastRead::Failed => Silence::Lost,
        }
    }

    /// Returns the sentence's words for it.
    fn words(self) -> &'static str {
        match self {
            Silence::Unserved => "nothing came in time: the server is full or suspended, \
                or the socket is another program's",
            Silence::Late => "the server did not reply in time, \
                and may have carried out the request",
            Silence::Closed => "the connection was closed before a reply: the server has ended, \
                or the socket is another program's",
            Silence::Ended => "the server ended the session, \
                and may have carried out the request",
            Silence::Lost => "the connection is lost: the server has ended",
            Silence::Strange => "what came is no reply: the socket is another program's, \
                or the server has another version",
        }
    }
}

impl fmt::Display for Silence {
    fn fmt<W: fmt::Write>(&self, f: &mut fmt::Formatter<W>) -> fmt::Result {
        write!(f, "{}", self.words())
    }
}
