//! The permission rule: which callers may use and control a queue.

ghost use Rattle.std.specs.Prelude.{◌↔◌, IsTrue};
ghost use Rattle.sysv_rules.specs.Permission.{IsPermitted, MayControl};

use sysv_model::{Cred, Perm};

/// The access that a call needs to a queue.
#[derive(Clone, Copy, PartialEq, Eq, Debug)]
pub enum Want {
    /// To receive a message or to read the queue's attributes.
    Read,
    /// To send a message.
    Write,
}

/// Returns whether the caller has the wanted access to a queue with these attributes (POSIX.1-2017,
/// 2.7.1 IPC General Description).
///
/// User 0 always has it. For other callers, one class of the mode's bits decides alone:
///
/// - 0600 if the caller's user is the owner's or the creator's;
/// - otherwise 0060 if its group is the owner's or the creator's;
/// - otherwise 0006.
///
/// The higher bit of a class is read, the lower is write. The mode may have other bits; they are
/// ignored.
pub fn may(cred: Cred, perm: Perm, want: Want) -> bool
    ensures { IsTrue result ↔ IsPermitted cred perm want }
{
    if cred.uid == 0 {
        return true;
    }
    let (read, write) = if cred.uid == perm.uid || cred.uid == perm.cuid {
        (0o400, 0o200)
    } else if cred.gid == perm.gid || cred.gid == perm.cgid {
        (0o040, 0o020)
    } else {
        (0o004, 0o002)
    };
    match want {
        Want::Read => perm.mode & read != 0,
        Want::Write => perm.mode & write != 0,
    }
}

/// Returns whether the caller may change or remove a queue with these attributes (POSIX.1-2017,
/// `msgctl`, DESCRIPTION, IPC_SET and IPC_RMID).
///
/// Only user 0, the owner's user and the creator's user may. The mode does not matter.
pub fn may_control(cred: Cred, perm: Perm) -> bool
    ensures { IsTrue result ↔ MayControl cred perm }
{
    cred.uid == 0 || cred.uid == perm.uid || cred.uid == perm.cuid
}
