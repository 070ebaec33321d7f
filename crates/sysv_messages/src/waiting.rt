//! A message that was taken from the store.

ghost use Rattle.std.specs.Prelude.{◌≡◌, ◌≤◌, length};
ghost use Rattle.sysv_model.specs.declared.limits.TheConstants.{MESSAGE_BYTES as most_bytes};
ghost use Rattle.sysv_messages.specs.Texts.{chain_of};

use std::marker::Model;
use sysv_pool::Chain;

/// A message that was taken, with the chain that holds its body (POSIX.1-2017, `msgrcv`).
///
/// Contracts see it as the message. It can be neither dropped nor copied; end it with `into_chain`.
pub struct Waiting {
    pub(crate) number: u64,
    pub(crate) sender: u32,
    pub(crate) mtype: i64,
    pub(crate) len: usize,
    pub(crate) chain: Chain,
}

impl Model for Waiting {
    ghost use Rattle.std.specs.Prelude.{◌≡◌, ◌≤◌, length};
    ghost use Rattle.sysv_model.specs.declared.limits.TheConstants.{MESSAGE_BYTES as most_bytes};
    ghost use Rattle.sysv_model.specs.Message.{Message};
    ghost use Rattle.sysv_messages.specs.Texts.{chain_of};

    ghost Value = { Message };

    ghost view = { λ w.
        record { number = w.number; sender = w.sender; mtype = w.mtype; bytes = w.chain.bytes } };

    ghost invariant = { λ w. (w.len ≡ length w.chain.bytes) × (w.len ≤ most_bytes)
        × (w.chain ≡ chain_of w.chain.bytes) };
}

impl Waiting {
    /// Returns the message's acceptance number.
    pub fn number(&self) -> u64
        ensures { result ≡ self.now.number }
    {
        self.number
    }

    /// Returns the process that sent the message.
    pub fn sender(&self) -> u32
        ensures { result ≡ self.now.sender }
    {
        self.sender
    }

    /// Returns the message's type.
    pub fn mtype(&self) -> i64
        ensures { result ≡ self.now.mtype }
    {
        self.mtype
    }

    /// Returns the length of the body in bytes, 0 to 8,192.
    pub fn len(&self) -> usize
        ensures value { result ≡ length self.now.bytes }
        ensures short { result ≤ most_bytes }
    {
        self.len
    }

    /// Returns the chain that holds the body.
    pub fn into_chain(self) -> Chain
        ensures { result ≡ chain_of self.bytes }
    {
        let Waiting {
            number: _,
            sender: _,
            mtype: _,
            len: _,
            chain,
        } = self;
        chain
    }
}
