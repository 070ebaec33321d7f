//! Messages that sessions hold.
ghost use Rattle.std.specs.Prelude.{◌≡◌, ◌≤◌, [], length, vec_capacity};
ghost use Rattle.sysv_model.specs.declared.limits.TheConstants.{MESSAGE_BYTES};
ghost use Rattle.sysv_seats.specs.GivingBack.{return_length, return_of};

use bitflags::Flags as _;
use std::marker::Model;
use sysv_model::{BLOCK_BYTES, Body, Cred, Flags, MESSAGE_BYTES};
use sysv_wire::{Ask, Request, Version};

/// The number of bytes in the frame of a send before its body.
const SEND_HEAD: usize = 22;

/// A message that a session holds: the body, and how it is given back.
#[derive(Drop)]
pub struct HeldMessage {
    cred: Cred,
    id: i32,
    mtype: i64,
    seconds: u32,
    body: Vec<u8>,
}

impl Model for HeldMessage {
    ghost use Rattle.std.specs.Prelude.{◌≤◌, vec_len};
    ghost use Rattle.sysv_model.specs.declared.limits.TheConstants.{MESSAGE_BYTES};
    ghost use Rattle.sysv_seats.specs.Holding.{Message};

    ghost Value = { Message };

    ghost view = { λ m. record {
      cred = m.cred;
      id = m.id;
      mtype = m.mtype;
      seconds = m.seconds;
      text = m.body.items;
    } };

    ghost invariant = { λ m. vec_len m.body ≤ MESSAGE_BYTES };
}

impl HeldMessage {
    /// Returns the message of this type that was received from this queue with these credentials, and
    /// may be held for this number of seconds (0: no limit). Its body is copied into `memory`.
    ///
    /// # Conditions
    ///
    /// - `memory` is empty, and has room for the body.
    /// - The body has at most 8,192 bytes.
    pub(crate) fn new(
        cred: Cred,
        id: i32,
        mtype: i64,
        seconds: u32,
        given: &Body,
        memory: Vec<u8>,
    ) -> HeldMessage
        requires empty { memory.items ≡ [] }
        requires room { length given.now ≤ vec_capacity memory }
        requires short { length given.now ≤ MESSAGE_BYTES }
        ensures { result ≡ record {
          cred = cred;
          id = id;
          mtype = mtype;
          seconds = seconds;
          text = given.now;
        } }
    {
        let mut body = memory;
        append_text(&mut body, given);
        body.shrink_to_fit();
        HeldMessage {
            cred,
            id,
            mtype,
            seconds,
            body,
        }
    }

    /// Returns the credentials of the session.
    pub(crate) fn cred(&self) -> Cred
        ensures { result ≡ self.now.cred }
    {
        self.cred
    }

    /// Returns the queue from which the message was received.
    pub(crate) fn id(&self) -> i32
        ensures { result ≡ self.now.id }
    {
        self.id
    }

    /// Returns the type of the message.
    pub(crate) fn mtype(&self) -> i64
        ensures { result ≡ self.now.mtype }
    {
        self.mtype
    }

    /// Returns for how many seconds the message may be held, 0 for no limit.
    pub(crate) fn seconds(&self) -> u32
        ensures { result ≡ self.now.seconds }
    {
        self.seconds
    }

    /// Returns the send that gives the message back.
    pub(crate) fn send(&self) -> Request
        ensures { result ≡ return_of self.now }
    {
        Request {
            version: Version::Three,
            ask: Ask::Snd {
                id: self.id,
                mtype: self.mtype,
                flags: Flags::from_bits_retain(0),
            },
        }
    }

    /// Returns the number of bytes in the frame of that send.
    pub(crate) fn length(&self) -> usize
        ensures { result ≡ return_length self.now }
    {
        SEND_HEAD + self.body.len()
    }

    /// Copies the body to `text`, and replaces all of `text`.
    pub(crate) fn recall(&self, text: &mut Body)
        ensures text { text.new ≡ self.now.text }
        ensures short { length text.new ≤ MESSAGE_BYTES }
    {
        text.clear();
        text.push_piece(&self.body);
    }
}

/// Appends a message body, block by block, to bytes that have room for it.
fn append_text(bytes: &mut Vec<u8>, text: &Body)
    requires empty { bytes.old.items ≡ [] }
    requires room { length text.now ≤ vec_capacity bytes.old }
    ensures { bytes.new.items ≡ text.now }
{
    let blocks = text.len().div_ceil(BLOCK_BYTES) as u32;
    for k in 0..blocks {
        let Ok(()) = bytes.extend_from_slice(text.block(k)) else {
            unreachable!()
        };
    }
}
