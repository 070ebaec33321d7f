//! Requests of a client.
ghost use Rattle.std.specs.Prelude.{◌≡◌};
ghost use Rattle.sysv_wire.specs.Requests.{op_of};

use crate::frame::{Op, Version};
use sysv_model::{Cred, Flags, SetTo};

/// One request. The body of a send is not in it, but in a separate `Body`.
#[derive(Clone, Copy, PartialEq, Eq, Debug)]
pub struct Request {
    /// The version of the request's frame.
    pub version: Version,
    /// The operation and its fields.
    pub ask: Ask,
}

/// The operation of a request, with its fields.
#[derive(Clone, Copy, PartialEq, Eq, Debug)]
pub enum Ask {
    /// States the credentials for the calls of the session.
    Hello(Cred),
    /// `msgget`.
    Get {
        /// The key. Key 0 is `IPC_PRIVATE`.
        key: i32,
        /// The flags and the mode: all 32 bits as they were sent.
        flags: Flags,
    },
    /// `msgsnd` of the body in the `Body`, at most 8,256 bytes.
    Snd {
        /// The queue's identifier.
        id: i32,
        /// The message's type.
        mtype: i64,
        /// The flags: all 32 bits as they were sent.
        flags: Flags,
    },
    /// `msgrcv`.
    Rcv {
        /// The queue's identifier.
        id: i32,
        /// The maximum number of bytes of the body to receive.
        size: u32,
        /// The type to receive, as `msgrcv` defines it.
        mtype: i64,
        /// The flags: all 32 bits as they were sent.
        flags: Flags,
    },
    /// `msgctl` with `IPC_STAT`.
    Stat {
        /// The queue's identifier.
        id: i32,
    },
    /// `msgctl` with `IPC_SET`.
    Set {
        /// The queue's identifier.
        id: i32,
        /// The values to set. The mode may be any number.
        to: SetTo,
    },
    /// `msgctl` with `IPC_RMID`.
    Rm {
        /// The queue's identifier.
        id: i32,
    },
    /// Requests one row of the list of queues.
    Row {
        /// The slot's number, counted from 0.
        slot: u32,
    },
    /// `msgrcv` of a message that comes back if it is not spent. Only version 3 has it.
    Hold {
        /// The queue's identifier.
        id: i32,
        /// The maximum number of bytes of the body to receive.
        size: u32,
        /// The type to receive, as `msgrcv` defines it.
        mtype: i64,
        /// The flags: all 32 bits as they were sent.
        flags: Flags,
        /// The number of seconds until the message comes back. 0 is no limit.
        seconds: u32,
    },
    /// Spends the message that is held. Only version 3 has it.
    Done,
    /// Sends back the message that is held. Only version 3 has it.
    Back,
}

impl Ask {
    /// Returns the operation.
    pub fn op(&self) -> Op
        ensures { result ≡ op_of self.now }
    {
        match self {
            Ask::Hello(_) => Op::Hello,
            Ask::Get { .. } => Op::Get,
            Ask::Snd { .. } => Op::Snd,
            Ask::Rcv { .. } => Op::Rcv,
            Ask::Stat { .. } => Op::Stat,
            Ask::Set { .. } => Op::Set,
            Ask::Rm { .. } => Op::Rm,
            Ask::Row { .. } => Op::Row,
            Ask::Hold { .. } => Op::Hold,
            Ask::Done => Op::Done,
            Ask::Back => Op::Back,
        }
    }
}
