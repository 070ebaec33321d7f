//! Replies of a server.
use crate::frame::Version;
use sysv_model::{Errno, Row, Stat};

/// One reply. The body of a received message is not in it, but in a separate `Body`.
#[derive(Clone, Copy, PartialEq, Eq, Debug)]
pub struct Reply {
    /// The version of the reply's frame. It is the version of the request.
    pub version: Version,
    /// The number of the request's operation, 0 to 7, or 10 in version 3.
    pub op: u8,
    /// The result of the operation.
    pub result: ReplyContent,
}

/// The result of an operation: an error, which any operation may have, or the operation's own
/// result.
#[derive(Clone, Copy, PartialEq, Eq, Debug)]
pub enum ReplyContent {
    /// The operation failed with this error.
    Refused(Errno),
    /// The server knows the caller's credentials, in version 1.
    Hello,
    /// The server knows the caller's credentials, in version 2 or 3.
    HelloSlots {
        /// The number of queue slots. A row may be requested for each number below it.
        slots: u32,
    },
    /// `msgget`.
    Get {
        /// The queue's identifier.
        id: i32,
    },
    /// `msgsnd`: the message was accepted.
    Snd,
    /// `msgrcv`, with the message's body in the `Body`, at most 8,192 bytes.
    Rcv {
        /// The message's type.
        mtype: i64,
    },
    /// `IPC_STAT`. The mode is at most 0o777.
    Stat(Stat),
    /// `IPC_SET`.
    Set,
    /// `IPC_RMID`.
    Rm,
    /// One row of the list of queues, or `None` if the slot has no queue. The mode is at most
    /// 0o777.
    Row(Option<Row>),
    /// A hold, with the message's body in the `Body`, at most 8,192 bytes.
    Hold {
        /// The message's type.
        mtype: i64,
    },
    /// The message that was held is spent.
    Done,
    /// The message that was held is sent back.
    Back,
}
