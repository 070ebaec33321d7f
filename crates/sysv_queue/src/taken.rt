//! A message that was taken from its queue.

ghost use Rattle.std.specs.Prelude.{◌≡◌, ◌≤◌, length};
ghost use Rattle.sysv_model.specs.declared.limits.TheConstants.{MESSAGE_BYTES as most_bytes};
ghost use Rattle.sysv_queue.specs.Blocks.{chain_of};
ghost use Rattle.sysv_queue.specs.Delivery.{Gives};

use crate::delivery::Delivery;
use std::marker::Model;
use sysv_messages::Waiting;
use sysv_model::Body;
use sysv_pool::Chain;

/// A message that was taken from its queue, with the chain that holds its body (POSIX.1-2017,
/// `msgrcv`).
///
/// Contracts see it as the message. It can be neither dropped nor copied; spend it with `finish`.
pub struct Taken {
    pub(crate) message: Waiting,
}

impl Model for Taken {
    ghost use Rattle.sysv_model.specs.Message.{Message};

    ghost Value = { Message };

    ghost view = { λ t. t.message };
}

impl Taken {
    /// Replaces the contents of `out` by the body, or by its first `size` bytes if it is longer,
    /// and returns the delivery and the whole chain.
    ///
    /// At most 8,192 bytes are written. Allocates nothing.
    pub fn finish(self, size: u32, out: &mut Body) -> (Delivery, Chain)
        ensures given { Gives result.0 self size out.new }
        ensures short { length out.new ≤ most_bytes }
        ensures chain { result.1 ≡ chain_of self.bytes }
    {
        let Taken { message } = self;
        let len = message.len().min(size as usize);
        let delivery = Delivery {
            mtype: message.mtype(),
            len,
            sender: message.sender(),
            number: message.number(),
        };
        let chain = message.into_chain();
        out.clear();
        chain.copy_out(len, out);
        (delivery, chain)
    }
}
