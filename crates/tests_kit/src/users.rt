//! Callers, and the flags of their calls.
use bitflags::Flags as _;
use sysv_model::{Cred, Flags};

/// User and group 1000, process 101.
pub const USER: Cred = Cred {
    uid: 1000,
    gid: 1000,
    pid: 101,
};

/// User and group 2000, process 102.
pub const OTHER: Cred = Cred {
    uid: 2000,
    gid: 2000,
    pid: 102,
};

/// User 0.
pub const ROOT: Cred = Cred {
    uid: 0,
    gid: 0,
    pid: 1,
};

/// Returns the flags with these bits.
pub fn flags(bits: u32) -> Flags {
    Flags::from_bits_retain(bits)
}

/// Returns IPC_CREAT with mode 0600.
pub fn creating() -> Flags {
    flags(512 + 0o600)
}
