//! What a process asks of the system.
ghost use Rattle.std.specs.Prelude.{IfErr, IfOk, map, string_bytes};
ghost use Rattle.sysv_options.specs.Process.{AreTold, Group, Number, OpenFiles, Terminal, Told, Unread, User, Variable, Words};

use crate::who::Surroundings;
use sysv_model::Cred;

/// Why the words of a command line cannot be read.
#[derive(Clone, Copy, PartialEq, Eq, Debug)]
pub enum NoWords {
    /// Memory was refused for them.
    NoMemory,
    /// One is not UTF-8.
    NoText,
}

/// A process. Each method asks the system for one thing.
pub trait Process {
    /// What the system may tell the process.
    ghost tells: { Self → Told → Type 0 };

    /// Returns the words of its command line, the first of which is its name.
    fn words(&self) -> Result<Vec<String>, NoWords>
        ensures ok { IfOk result (λ words. tells self.now (Words (map string_bytes words.items))) }
        ensures err { IfErr result (λ why. tells self.now (Unread why)) };

    /// Returns whether an environment variable has the value 1.
    fn has_one(&self, name: &str) -> bool
        ensures { tells self.now (Variable name.now result) };

    /// Returns its effective user.
    fn user(&self) -> u32
        ensures { tells self.now (User result) };

    /// Returns its effective group.
    fn group(&self) -> u32
        ensures { tells self.now (Group result) };

    /// Returns its ID.
    fn number(&self) -> u32
        ensures { tells self.now (Number result) };

    /// Returns whether its standard output is a terminal.
    fn is_terminal(&self) -> bool
        ensures { tells self.now (Terminal result) };

    /// Returns the maximum number of files that it may have open, if that is known.
    fn open_files(&self) -> Option<u64>
        ensures { tells self.now (OpenFiles result) };
}

/// The environment variable that has the effect of `--me` if its value is 1.
const ME: &str = "SYSVMSG_ME";

/// The environment variable that has the effect of `--stderr` if its value is 1.
const STDERR: &str = "SYSVMSG_STDERR";

/// Returns what a process learns from where it runs.
pub fn surroundings<P: Process>(process: &P) -> Surroundings
    ensures { AreTold (P.tells process.now) result }
{
    Surroundings {
        wants_me: process.has_one(ME),
        wants_stderr: process.has_one(STDERR),
        is_terminal: process.is_terminal(),
        own: Cred {
            uid: process.user(),
            gid: process.group(),
            pid: process.number(),
        },
        open_files: process.open_files(),
    }
}
