//! How long a client may take, and the result of a server.
ghost use Rattle.std.specs.Prelude.{◌≡◌};

use crate::fates::Fates;
use crate::sums::Sums;
use sysv_model::Errno;
use sysv_service::Closed;

/// The number of seconds that a client may take before its session ends, 0 for no limit.
#[derive(Clone, Copy, PartialEq, Eq, Debug)]
pub struct Patience {
    /// The limit until a request begins, or the hello.
    pub idle: u32,
    /// The limit from the first byte of a request to its last, and from the first byte of a reply
    /// until the client has room for its last.
    pub stall: u32,
}

impl Patience {
    /// No limits.
    pub const UNBOUNDED: Patience = Patience { idle: 0, stall: 0 };
}

/// What a server that has ended ran with. Only this crate makes a value of this type.
#[derive(Clone, Copy, PartialEq, Eq, Debug)]
pub struct Setting {
    pub(crate) workers: usize,
    pub(crate) patience: Patience,
    pub(crate) drain: u32,
    pub(crate) holds: bool,
}

impl Setting {
    /// Returns the number of workers.
    pub fn workers(self) -> usize
        ensures { result ≡ self.workers }
    {
        self.workers
    }

    /// Returns how long a client might take.
    pub fn patience(self) -> Patience
        ensures { result ≡ self.patience }
    {
        self.patience
    }

    /// Returns the number of seconds after which an orderly end was to cut sessions off, 0 for never.
    pub fn drain(self) -> u32
        ensures { result ≡ self.drain }
    {
        self.drain
    }

    /// Returns whether sessions might hold messages.
    pub fn holds(self) -> bool
        ensures { result ≡ self.holds }
    {
        self.holds
    }
}

/// How a server ended.
#[derive(Clone, Copy, PartialEq, Eq, Debug)]
pub struct Ended {
    /// The sums of its sessions.
    pub sums: Sums,
    /// The number of its sessions whose memory was refused, at most 2^64 - 1.
    pub refused: u64,
    /// What became of the messages that clients held when their sessions ended.
    pub fates: Fates,
    /// The number of queues that were left at the end and were removed, or `EOVERFLOW` if the gate
    /// of a slot was found worn out.
    pub removed: Result<u32, Errno>,
    /// The number of messages that were still in these queues, which were discarded with them.
    pub queued: u64,
    /// The number of calls that waited when an orderly end cut their sessions off.
    pub cut: u64,
    /// What was left of its service when it was closed, after these queues were removed. No gate is
    /// held. The pool has all its blocks, if fewer than 2^62 turns were made at each object.
    pub closed: Closed,
    /// What it ran with.
    pub setting: Setting,
}
