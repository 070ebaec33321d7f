//! The limits of this profile. The standard leaves each of them to the implementation.

/// The key with which every `msgget` creates a new queue (`sys/ipc.h`).
pub const IPC_PRIVATE: i32 = 0;

/// The maximum number of bytes in the body of a message.
pub const MESSAGE_BYTES: usize = 8192;

/// The number of bytes that a `Body` has space for. It is larger than `MESSAGE_BYTES`, so that a
/// body that is too long can be read and then refused.
pub const BODY_ROOM: usize = 8256;

/// The number of bytes in a block. Bodies are stored and read in blocks.
pub const BLOCK_BYTES: usize = 64;

/// The maximum number of messages queued on one queue.
pub const QUEUE_MESSAGES: usize = 256;

/// The `msg_qbytes` of a new queue.
pub const QBYTES_AT_CREATION: u32 = 16384;

/// The maximum `msg_qbytes` that `IPC_SET` may set.
pub const MAX_QBYTES: u32 = 65536;

/// The maximum number of actors in a world. The minimum is 1.
pub const MAX_ACTORS: u32 = 1024;

/// The minimum number of blocks in a pool of message bodies.
pub const MIN_BLOCKS: u32 = 128;

/// The maximum number of blocks in a pool of message bodies.
pub const MAX_BLOCKS: u32 = 65536;

/// The number of counted events after which a world is worn out, 2^62.
pub const WORN: u64 = 1 << 62;
