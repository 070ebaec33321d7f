//! The sockets of a server.
ghost use Rattle.std.specs.Prelude.{◌≡◌, ◌≤◌, ◌<◌, ◌+◌, ◌∷◌, ◌++◌, [], MatchBool, length, slice_get};
ghost use Rattle.sysv_options.specs.Sockets.{listed};

use sysv_server::Callers;

/// The maximum number of sockets that `--as` names.
pub const MAX_OTHERS: usize = 64;

/// A place for a socket that holds none.
const UNUSED: Entrance<'static> = Entrance {
    file: SocketFile {
        path: "",
        mode: None,
        replace: false,
    },
    callers: Callers::Anyone,
};

/// The file of a server's socket.
#[derive(Clone, Copy, PartialEq, Eq, Debug)]
pub struct SocketFile<'a> {
    /// The path of the file.
    pub path: &'a str,
    /// The mode of the file. Without one it is 0777 less the umask.
    pub mode: Option<u32>,
    /// Whether to remove the file first if it is a socket on which no server listens.
    pub replace: bool,
}

/// A socket at which a server accepts connections.
#[derive(Clone, Copy, PartialEq, Eq, Debug)]
pub struct Entrance<'a> {
    /// The file of the socket.
    pub file: SocketFile<'a>,
    /// The callers that are let in there.
    pub callers: Callers,
}

/// Sockets at which a server accepts connections, at most 64.
#[derive(Clone, Copy, PartialEq, Eq, Debug)]
pub struct Entrances<'a> {
    /// The sockets, of which the first `count` are used.
    sockets: [Entrance<'a>; MAX_OTHERS],
    count: usize,
}

impl<'a> Entrances<'a> {
    /// Returns no socket.
    pub fn none() -> Entrances<'a>
        ensures sockets { listed result ≡ [] }
        ensures count { result.count ≡ 0 }
        ensures room { length result.sockets ≡ MAX_OTHERS }
    {
        Entrances {
            sockets: [UNUSED; MAX_OTHERS],
            count: 0,
        }
    }

    /// Returns the number of sockets.
    pub fn count(&self) -> usize
        ensures { result ≡ self.now.count }
    {
        self.count
    }

    /// Returns the socket of this number, if there is one.
    pub fn get(&self, number: usize) -> Option<Entrance<'a>>
        ensures { result ≡ slice_get (listed self.now) number }
    {
        if number < self.count {
            self.sockets.get(number).copied()
        } else {
            None
        }
    }

    /// Adds a socket. Returns whether there was room for it.
    pub fn add(&mut self, socket: Entrance<'a>) -> bool
        requires { length self.old.sockets ≡ MAX_OTHERS }
        ensures room { length self.new.sockets ≡ MAX_OTHERS }
        ensures added { MatchBool result
            ((listed self.new ≡ listed self.old ++ socket.entry ∷ [])
            × (self.new.count ≡ self.old.count + 1) × (self.old.count < MAX_OTHERS))
            ((self.new ≡ self.old) × (MAX_OTHERS ≤ self.old.count)) }
    {
        let count = self.count;
        if count >= MAX_OTHERS {
            return false;
        }
        self.sockets[count] = socket;
        self.count = count + 1;
        true
    }
}
