//! The attributes of a queue, as calls set and return them.

/// The owner, creator and mode of a queue, `struct ipc_perm` (POSIX.1-2017, `sys/ipc.h`).
#[derive(Clone, Copy, PartialEq, Eq, Debug)]
pub struct Perm {
    /// The owner's user ID.
    pub uid: u32,
    /// The owner's group ID.
    pub gid: u32,
    /// The creator's user ID.
    pub cuid: u32,
    /// The creator's group ID.
    pub cgid: u32,
    /// The low nine bits of the mode, 0 to 0o777.
    pub mode: u16,
}

/// The attributes of a live queue, `struct msqid_ds` (POSIX.1-2017, `sys/msg.h`) without its counts
/// of queued messages and bytes.
#[derive(Clone, Copy, PartialEq, Eq, Debug)]
pub struct Attributes {
    /// The queue's identifier. The identifiers that a registry makes are not negative.
    pub id: i32,
    /// The key that the queue was created for, 0 for a private queue.
    pub key: i32,
    /// The owner, creator and mode.
    pub perm: Perm,
    /// The maximum number of queued bytes, 0 to 65,536. It is 16,384 in a new queue.
    pub qbytes: u32,
    /// The process that sent last, 0 if none has.
    pub lspid: u32,
    /// The process that received last, 0 if none has.
    pub lrpid: u32,
    /// The time of the last send in seconds, 0 if there was none.
    pub stime: u64,
    /// The time of the last receive in seconds, 0 if there was none.
    pub rtime: u64,
    /// The time of the creation or of the last `IPC_SET`, in seconds.
    pub ctime: u64,
}

/// What `IPC_STAT` returns (POSIX.1-2017, `msgctl`).
#[derive(Clone, Copy, PartialEq, Eq, Debug)]
pub struct Stat {
    /// The key that the queue was created for, 0 for a private queue.
    pub key: i32,
    /// The owner, creator and mode.
    pub perm: Perm,
    /// The number of queued bytes.
    pub cbytes: u32,
    /// The number of queued messages.
    pub qnum: u32,
    /// The maximum number of queued bytes.
    pub qbytes: u32,
    /// The process that sent last, 0 if none has.
    pub lspid: u32,
    /// The process that received last, 0 if none has.
    pub lrpid: u32,
    /// The time of the last send in seconds, 0 if there was none.
    pub stime: u64,
    /// The time of the last receive in seconds, 0 if there was none.
    pub rtime: u64,
    /// The time of the creation or of the last `IPC_SET`, in seconds.
    pub ctime: u64,
}

/// The values that `IPC_SET` sets (POSIX.1-2017, `msgctl`).
#[derive(Clone, Copy, PartialEq, Eq, Debug)]
pub struct SetTo {
    /// The owner's user ID.
    pub uid: u32,
    /// The owner's group ID.
    pub gid: u32,
    /// The mode. Only its low nine bits are used.
    pub mode: u32,
    /// The maximum number of queued bytes. `IPC_SET` refuses a value above 65,536.
    pub qbytes: u32,
}

/// One row of the list of queues. The list is specific to this profile: the standard has none.
#[derive(Clone, Copy, PartialEq, Eq, Debug)]
pub struct Row {
    /// The queue's identifier.
    pub id: i32,
    /// The key that the queue was created for, 0 for a private queue.
    pub key: i32,
    /// The owner's user ID.
    pub uid: u32,
    /// The low nine bits of the mode.
    pub mode: u16,
    /// The number of queued bytes.
    pub cbytes: u32,
    /// The number of queued messages.
    pub qnum: u32,
}
