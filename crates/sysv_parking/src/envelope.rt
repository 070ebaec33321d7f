//! What a worker is told of a message that has arrived, and what calls have changed.
use crate::changes::Change;

/// A message that has arrived at a queue, and for which receives are looked at.
#[derive(Clone, Copy, PartialEq, Eq, Debug)]
pub struct Envelope {
    /// The slot of the queue.
    pub slot: usize,
    /// The type of the message.
    pub mtype: i64,
    /// The workers that have not had it, a bit for each. The receiver of an envelope passes it on.
    pub rest: u64,
}

/// What a call has changed for parked calls.
#[derive(Clone, Copy, PartialEq, Eq, Debug)]
pub enum News {
    /// A message of this type has arrived at the queue of this slot.
    Message {
        /// The slot of the queue.
        slot: usize,
        /// The type of the message.
        mtype: i64,
    },
    /// Something else has changed.
    Changed {
        /// What has changed.
        change: Change,
    },
}
