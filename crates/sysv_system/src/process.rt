//! What the system tells a process about itself.
use libc::types::rlimit;
use libc::{RLIMIT_NOFILE, STDOUT_FILENO, fsync, getegid, geteuid, getpid, getrlimit};

/// Returns the effective user ID of the process.
pub fn user() -> u32 {
    geteuid()
}

/// Returns the effective group ID of the process.
pub fn group() -> u32 {
    getegid()
}

/// Returns the process ID.
pub fn number() -> u32 {
    getpid().unsigned_abs()
}

/// Returns the limit of open files of the process, or `None` if it is not known.
pub fn open_files() -> Option<u64> {
    let mut limit = rlimit {
        rlim_cur: 0,
        rlim_max: 0,
    };
    if getrlimit(RLIMIT_NOFILE, &mut limit) != 0 {
        return None;
    }
    Some(limit.rlim_cur)
}

/// Waits until what was written to the file on standard output has reached its device. Returns
/// whether it has.
pub fn sync_output() -> bool {
    fsync(STDOUT_FILENO) == 0
}
