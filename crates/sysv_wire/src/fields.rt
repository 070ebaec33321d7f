//! The fields of a frame, before they are written.
ghost use Rattle.std.specs.Prelude.{◌≡◌, ◌+◌, ◌≤◌, [], ◌∷◌, ◌++◌, length};
ghost use Rattle.sysv_wire.specs.Numbers.{u16_bytes, u32_bytes, u64_bytes, i32_bytes, i64_bytes};

use std::marker::Model;

/// The maximum number of bytes, that of the longest frame without a body: the reply with a queue's
/// attributes.
pub(crate) const FIELDS_ROOM: usize = 73;

/// Bytes that are collected in memory of a fixed size.
#[derive(Drop)]
pub(crate) struct Fields {
    bytes: [u8; FIELDS_ROOM],
    len: usize,
}

impl Model for Fields {
    ghost use Rattle.std.specs.Prelude.{List, ℕ, ◌≤◌, take};

    ghost Value = { List ℕ };

    ghost view = { λ fields. take fields.len fields.bytes };

    ghost invariant = { λ fields. fields.len ≤ 73 };
}

impl Fields {
    /// Returns a list of no bytes.
    pub(crate) fn new() -> Fields
        ensures { result ≡ [] }
    {
        Fields {
            bytes: [0; FIELDS_ROOM],
            len: 0,
        }
    }

    /// Returns all bytes appended so far.
    pub(crate) fn bytes(&self) -> &[u8]
        ensures { result.now ≡ self.now }
    {
        &self.bytes[..self.len]
    }

    /// Appends these bytes.
    pub(crate) fn put(&mut self, piece: &[u8])
        requires { length self.old + length piece.now ≤ FIELDS_ROOM }
        ensures after { self.new ≡ self.old ++ piece.now }
        ensures len { length self.new ≡ length self.old + length piece.now }
    {
        let end = self.len + piece.len();
        self.bytes[self.len..end].copy_from_slice(piece);
        self.len = end;
    }

    /// Appends one byte.
    pub(crate) fn put_u8(&mut self, byte: u8)
        requires { length self.old + 1 ≤ FIELDS_ROOM }
        ensures after { self.new ≡ self.old ++ byte ∷ [] }
        ensures len { length self.new ≡ length self.old + 1 }
    {
        self.put(&[byte]);
    }

    /// Appends a number as two bytes.
    #[tactic(auto, unfolding(crate::specs::Numbers::u16_bytes))]
    pub(crate) fn put_u16(&mut self, number: u16)
        requires { length self.old + 2 ≤ FIELDS_ROOM }
        ensures after { self.new ≡ self.old ++ u16_bytes number }
        ensures len { length self.new ≡ length self.old + 2 }
    {
        self.put(&number.to_be_bytes());
    }

    /// Appends a number as four bytes.
    #[tactic(auto, unfolding(crate::specs::Numbers::u32_bytes))]
    pub(crate) fn put_u32(&mut self, number: u32)
        requires { length self.old + 4 ≤ FIELDS_ROOM }
        ensures after { self.new ≡ self.old ++ u32_bytes number }
        ensures len { length self.new ≡ length self.old + 4 }
    {
        self.put(&number.to_be_bytes());
    }

    /// Appends a number as eight bytes.
    #[tactic(auto, unfolding(crate::specs::Numbers::u64_bytes))]
    pub(crate) fn put_u64(&mut self, number: u64)
        requires { length self.old + 8 ≤ FIELDS_ROOM }
        ensures after { self.new ≡ self.old ++ u64_bytes number }
        ensures len { length self.new ≡ length self.old + 8 }
    {
        self.put(&number.to_be_bytes());
    }

    /// Appends a signed number as four bytes.
    #[tactic(auto, unfolding(crate::specs::Numbers::i32_bytes))]
    pub(crate) fn put_i32(&mut self, number: i32)
        requires { length self.old + 4 ≤ FIELDS_ROOM }
        ensures after { self.new ≡ self.old ++ i32_bytes number }
        ensures len { length self.new ≡ length self.old + 4 }
    {
        self.put(&number.to_be_bytes());
    }

    /// Appends a signed number as eight bytes.
    #[tactic(auto, unfolding(crate::specs::Numbers::i64_bytes))]
    pub(crate) fn put_i64(&mut self, number: i64)
        requires { length self.old + 8 ≤ FIELDS_ROOM }
        ensures after { self.new ≡ self.old ++ i64_bytes number }
        ensures len { length self.new ≡ length self.old + 8 }
    {
        self.put(&number.to_be_bytes());
    }
}
