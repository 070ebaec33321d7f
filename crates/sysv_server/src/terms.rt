//! The terms of a server.
ghost use Rattle.std.specs.Prelude.{◌≡◌};
ghost use Rattle.sysv_server.specs.Serving.{looks_in};

use sysv_engine::Patience;

/// The terms of a server.
#[derive(Clone, Copy, PartialEq, Eq, Debug)]
pub struct Terms {
    /// The number of blocks in the pool, 128 to 65,536.
    pub blocks: u32,
    /// The number of threads that serve clients, 1 to 16.
    pub workers: u32,
    /// The maximum number of clients at once, 1 to 16,384.
    pub at_once: u32,
    /// The number of connections to accept, 0 for no limit.
    pub sessions: u64,
    /// How long a client may take.
    pub patience: Patience,
    /// The number of seconds that an orderly end may take before the sessions that are left are cut
    /// off, 0 for no limit.
    pub drain: u32,
    /// Whether the state of the server is shown: its host then opens a socket for readers of it.
    pub stats: bool,
    /// Whether clients may hold messages: then sessions of version 3 are served.
    pub hold: bool,
    /// The number of sockets at which connections are accepted, 1 to 66.
    pub sockets: u32,
    /// Whether a session is served alone before the others, and one after them. Then one of the
    /// sockets is for these.
    pub alone: bool,
}

impl Terms {
    /// Returns whether the rows of the queues are read while a server on these terms runs: to show its
    /// state, or before it ends without a further session that is served alone.
    pub(crate) fn looks(&self) -> bool
        ensures { result ≡ looks_in self.now }
    {
        self.stats || self.alone
    }
}
