//! The user, the group and the process that a client states.
ghost use Rattle.std.specs.Prelude.{◌≡◌};
ghost use Rattle.sysv_options.specs.Who.{cred_by, stated_by, told_by};

use sysv_connect::Telling;
use sysv_model::Cred;

/// The user, the group and the process that the words of a client state.
#[derive(Clone, Copy, PartialEq, Eq, Debug)]
pub struct Who {
    /// Whether those that are not stated are those of this process.
    pub me: bool,
    /// The user ID, if it is stated.
    pub uid: Option<u32>,
    /// The group ID, if it is stated.
    pub gid: Option<u32>,
    /// The process ID, if it is stated.
    pub pid: Option<u32>,
}

/// What a process learns from where it runs.
#[derive(Clone, Copy, PartialEq, Eq, Debug)]
pub struct Surroundings {
    /// Whether the environment wants clients to state the IDs of the process.
    pub wants_me: bool,
    /// Whether the environment wants faults on standard error.
    pub wants_stderr: bool,
    /// Whether standard output is a terminal.
    pub is_terminal: bool,
    /// The effective user and group of the process, and its ID.
    pub own: Cred,
    /// The maximum number of open files of the process, if it is known.
    pub open_files: Option<u64>,
}

/// What a client states without options.
const USUAL: Cred = Cred {
    uid: 1000,
    gid: 1000,
    pid: 1,
};

/// Returns the credentials that a client states: those of the words, and for the others those of
/// the process, if the words or the environment want them, or the usual ones.
pub fn credentials(who: &Who, around: &Surroundings) -> Cred
    ensures { result ≡ stated_by who.now around.now }
{
    if who.me || around.wants_me {
        cred_of(who, around.own)
    } else {
        cred_of(who, USUAL)
    }
}

/// Returns how faults are told here, if the words ask for `asked`: by sentences alone if the words
/// or the environment want that, and else by lines, with a sentence for each if standard output is
/// no terminal.
pub fn telling(asked: Telling, around: &Surroundings) -> Telling
    ensures { result ≡ told_by asked around.now }
{
    if !asked.has_line() || around.wants_stderr {
        Telling::Sentence
    } else if around.is_terminal {
        Telling::Line
    } else {
        Telling::Both
    }
}

/// Returns the credentials of the words, and for the others those of `usual`.
fn cred_of(who: &Who, usual: Cred) -> Cred
    ensures { result ≡ cred_by who.now usual }
{
    Cred {
        uid: who.uid.unwrap_or(usual.uid),
        gid: who.gid.unwrap_or(usual.gid),
        pid: who.pid.unwrap_or(usual.pid),
    }
}
