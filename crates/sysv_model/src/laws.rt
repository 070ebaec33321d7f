//! Laws over the definitions alone: the numerals of this profile's limits and flags.

ghost use Rattle.std.specs.Prelude.{◌≡◌, ◌^◌, pos};
ghost use Rattle.sysv_model.specs.declared.limits.TheConstants.{BLOCK_BYTES, BODY_ROOM, IPC_PRIVATE, MAX_ACTORS, MAX_BLOCKS, MAX_QBYTES, MESSAGE_BYTES, MIN_BLOCKS, QBYTES_AT_CREATION, QUEUE_MESSAGES, WORN};
ghost use Rattle.sysv_model.specs.declared.flags.TheConstants.Flags.{OTHER_EXECUTE, OTHER_WRITE, OTHER_READ, GROUP_EXECUTE, GROUP_WRITE, GROUP_READ, USER_EXECUTE, USER_WRITE, USER_READ, IPC_CREAT, IPC_EXCL, IPC_NOWAIT, MSG_NOERROR, MSG_EXCEPT};

/// States the value of each limit of this profile.
pub fn numerals_of_limits()
    ensures private_key { IPC_PRIVATE ≡ pos 0 }
    ensures message { MESSAGE_BYTES ≡ 8192 }
    ensures body { BODY_ROOM ≡ 8256 }
    ensures block { BLOCK_BYTES ≡ 64 }
    ensures queue { QUEUE_MESSAGES ≡ 256 }
    ensures qbytes { QBYTES_AT_CREATION ≡ 16384 }
    ensures most_qbytes { MAX_QBYTES ≡ 65536 }
    ensures actors { MAX_ACTORS ≡ 1024 }
    ensures fewest_blocks { MIN_BLOCKS ≡ 128 }
    ensures most_blocks { MAX_BLOCKS ≡ 65536 }
    ensures worn { WORN ≡ 2 ^ 62 }
{}

/// States the value of each flag that calls use. Each is a bit of its own.
pub fn numerals_of_flags()
    ensures create { IPC_CREAT.0 ≡ 512 }
    ensures exclusive { IPC_EXCL.0 ≡ 1024 }
    ensures no_wait { IPC_NOWAIT.0 ≡ 2048 }
    ensures no_error { MSG_NOERROR.0 ≡ 4096 }
    ensures except { MSG_EXCEPT.0 ≡ 8192 }
{}

/// States the bits of a mode: read, write and execute for the user, the group and others.
pub fn numerals_of_mode_bits()
    ensures user_read { USER_READ.0 ≡ 0o400 }
    ensures user_write { USER_WRITE.0 ≡ 0o200 }
    ensures user_execute { USER_EXECUTE.0 ≡ 0o100 }
    ensures group_read { GROUP_READ.0 ≡ 0o040 }
    ensures group_write { GROUP_WRITE.0 ≡ 0o020 }
    ensures group_execute { GROUP_EXECUTE.0 ≡ 0o010 }
    ensures other_read { OTHER_READ.0 ≡ 0o004 }
    ensures other_write { OTHER_WRITE.0 ≡ 0o002 }
    ensures other_execute { OTHER_EXECUTE.0 ≡ 0o001 }
{}
