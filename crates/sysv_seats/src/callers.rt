//! The callers that a connection lets in.
ghost use Rattle.std.specs.Prelude.{◌≡◌};
ghost use Rattle.sysv_seats.specs.Callers.{includes};

use sysv_model::Cred;

/// The callers that a connection lets in, by the user and the group in their hello.
#[derive(Clone, Copy, PartialEq, Eq, Debug)]
pub enum Callers {
    /// All callers.
    Anyone,
    /// Those with this user and this group, whatever process they state.
    Only {
        /// The user ID.
        uid: u32,
        /// The group ID.
        gid: u32,
    },
}

impl Callers {
    /// Returns whether the caller with these credentials is one of them.
    pub fn includes(self, cred: Cred) -> bool
        ensures { result ≡ includes self cred }
    {
        match self {
            Callers::Anyone => true,
            Callers::Only { uid, gid } => cred.uid == uid && cred.gid == gid,
        }
    }
}
