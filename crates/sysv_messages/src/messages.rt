//! The store of one queue's messages.

ghost use Rattle.std.specs.Prelude.{◌≡◌, ◌+◌, ◌^◌, ◌<◌, ◌≤◌, [], ◌∷◌, ◌++◌, IfOk, IfErr, OnErr, length};
ghost use Rattle.std.specs.List.{All};
ghost use Rattle.sysv_model.specs.declared.limits.TheConstants.{QUEUE_MESSAGES, MESSAGE_BYTES as most_bytes};
ghost use Rattle.sysv_model.specs.Message.{Message};
ghost use Rattle.sysv_model.specs.Pool.{blocks_for};
ghost use Rattle.sysv_rules.specs.Digits.{digits};
ghost use Rattle.sysv_messages.specs.Probes.{IsFoundByFew};
ghost use Rattle.sysv_messages.specs.Texts.{blocks_of, bytes_of};
ghost use Rattle.sysv_messages.specs.Taking.{IsTaken, IsRefused};

use crate::chains;
use crate::entry::Entry;
use crate::head::Head;
use crate::index::Index;
use crate::rows::steps::Steps;
use crate::waiting::Waiting;
use slab::Slab;
use std::alloc::Global;
use std::marker::Model;
use std::sync::ledger::Ledger;
use sysv_model::{NoMemory, QUEUE_MESSAGES};
use sysv_pool::Chain;
use sysv_rules::Selector;
use thiserror::Error;

/// Why `Messages::take` took no message.
#[derive(Clone, Copy, PartialEq, Eq, Debug, Error)]
pub enum NotTaken {
    /// No queued message has a type that qualifies.
    #[error("no message qualifies")]
    NoneQualifies,
    /// The body of the named message is longer than requested.
    #[error("the message is too long")]
    TooLong,
}

/// The messages queued on one queue, at most 256, in the order of acceptance.
///
/// A store of messages cannot be dropped, because its chains cannot; end it with `end`.
pub struct Messages {
    heads: Slab<Head>,
    /// The chain of each message, at the key of its head.
    chains: Vec<Option<Chain>>,
    /// The messages in the orders in which they are searched, each with the key of its head.
    index: Index,
    /// The total number of bytes of all bodies.
    bytes: u32,
}

impl Model for Messages {
    ghost use Rattle.std.specs.Prelude.{List};
    ghost use Rattle.sysv_model.specs.Message.{Message};

    ghost Value = { List Message };

    ghost use Rattle.sysv_messages.specs.Kept.{messages_of, IsStore};

    ghost view = { λ s. messages_of s.heads s.chains.items s.index };

    ghost invariant = { λ s. IsStore s.heads s.chains.items s.index s.bytes };
}

impl Messages {
    /// Creates a store without messages, with space for 256. No later call allocates.
    ///
    /// # Errors
    ///
    /// - `NoMemory` if allocation fails.
    pub fn open(alloc: Global) -> Result<Messages, NoMemory>
        ensures { IfOk result (λ messages. messages ≡ []) }
    {
        let index = Index::open(alloc)?;
        let heads = Slab::with_capacity(alloc, QUEUE_MESSAGES).map_err(|_| NoMemory)?;
        let places = heads.capacity();
        let mut chains = Vec::with_capacity(alloc, places).map_err(|_| NoMemory)?;
        chains::add_bare(&mut chains, places);
        Ok(Messages {
            heads,
            chains,
            index,
            bytes: 0,
        })
    }

    /// Returns the number of queued messages, at most 256.
    pub fn len(&self) -> usize
        ensures value { result ≡ length self.now }
        ensures few { result ≤ QUEUE_MESSAGES }
    {
        self.index.len()
    }

    /// Returns the total number of bytes of their bodies.
    pub fn bytes(&self) -> u32
        ensures { result ≡ bytes_of self.now }
    {
        self.bytes
    }

    /// Appends a message. `chain` holds its body of `len` bytes, 0 to 8,192. Allocates nothing.
    ///
    /// # Conditions
    ///
    /// - Fewer than 256 messages are queued, and their numbers are below `number`.
    /// - The body in the chain has `len` bytes, and the chain has exactly the number of blocks for
    ///   it.
    /// - `len` is at most 8,192.
    /// - The total number of bytes stays below 2^32.
    pub fn push(&mut self, number: u64, sender: u32, mtype: i64, chain: Chain, len: usize)
        requires few { length self.old < QUEUE_MESSAGES }
        requires last { All (λ (m : Message). m.number < number) self.old }
        requires text { length chain.bytes ≡ len }
        requires blocks { chain.blocks ≡ blocks_for len }
        requires short { len ≤ most_bytes }
        requires small { bytes_of self.old + len < 2 ^ 32 }
        ensures { self.new ≡ self.old ++ record {
          number = number;
          sender = sender;
          mtype = mtype;
          bytes = chain.bytes;
        } ∷ [] }
    {
        let place = self.heads.insert_reserved(Head {
            number,
            sender,
            mtype,
            len,
        });
        chains::put(&mut self.chains, place, chain);
        self.index.push(Entry {
            mtype,
            number,
            place,
        });
        self.bytes += len as u32;
    }

    /// Takes the message that `sel` names if its body has at most `most` bytes (POSIX.1-2017,
    /// `msgrcv`, DESCRIPTION). Allocates nothing.
    ///
    /// `steps` is raised by the number of entries of the index that were read, which is at least
    /// one if a message is queued. For any message, an exact type or a bound, it is at most two
    /// more than the number of binary digits of the number of messages.
    ///
    /// # Errors
    ///
    /// The messages are unchanged.
    ///
    /// - `NoneQualifies` if `sel` names no message.
    /// - `TooLong` if the body of the named message is longer than `most` bytes.
    pub fn take<L: Ledger>(
        &mut self,
        sel: Selector,
        most: usize,
        steps: &mut Steps<L>,
    ) -> Result<Waiting, NotTaken>
        ensures taken { IfOk result (λ waiting. IsTaken sel most self.old waiting self.new) }
        ensures refused { IfErr result (λ why. IsRefused sel most self.old why) }
        ensures unchanged { OnErr result (self.new ≡ self.old) }
        ensures few { IsFoundByFew sel → steps.new ≤ steps.old + digits (length self.old) + 2 }
        ensures some { 0 < length self.old → steps.old < steps.new }
        ensures risen { steps.old ≤ steps.new }
    {
        let Some(found) = self.index.select(sel, steps) else {
            return Err(NotTaken::NoneQualifies);
        };
        if self.heads[found.place].len > most {
            return Err(NotTaken::TooLong);
        }
        let head = self.heads.remove(found.place);
        let chain = chains::take(&mut self.chains, found.place);
        self.index.remove(head.number);
        self.bytes -= head.len as u32;
        Ok(Waiting {
            number: head.number,
            sender: head.sender,
            mtype: head.mtype,
            len: head.len,
            chain,
        })
    }

    /// Takes all messages, and returns one chain with their blocks and no body. Allocates nothing.
    pub fn take_all(&mut self) -> Chain
        ensures blocks { result ≡ record { blocks = blocks_of self.old; bytes = [] } }
        ensures none { self.new ≡ [] }
    {
        let chain = chains::take_all(&mut self.chains);
        self.heads.clear();
        self.index.clear();
        self.bytes = 0;
        chain
    }

    /// Ends the store, and returns one chain with the blocks of all messages and no body. Allocates
    /// nothing.
    pub fn end(self) -> Chain
        ensures { result ≡ record { blocks = blocks_of self; bytes = [] } }
    {
        let Messages {
            heads: _,
            mut chains,
            index: _,
            bytes: _,
        } = self;
        let chain = chains::clear(&mut chains);
        chains.destroy_empty();
        chain
    }
}
