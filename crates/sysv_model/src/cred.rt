//! The credentials of a caller.

/// The credentials of a caller: effective user, effective group and process (POSIX.1-2017, 2.7 XSI
/// Interprocess Communication).
///
/// They are taken from the caller as they are and are not authenticated.
#[derive(Clone, Copy, PartialEq, Eq, Debug)]
pub struct Cred {
    /// The effective user ID.
    pub uid: u32,
    /// The effective group ID.
    pub gid: u32,
    /// The process ID, which a send or a receive stores in the queue's `lspid` or `lrpid`.
    pub pid: u32,
}
