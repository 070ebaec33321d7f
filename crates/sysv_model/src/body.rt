//! The body of a message.

ghost use Rattle.std.specs.Prelude.{◌≡◌, ◌+◌, ◌<◌, ◌≤◌, [], ◌++◌, length, take, slice_get, Some, IfOk, true, false, if◌then◌else◌};
ghost use Rattle.sysv_model.specs.declared.limits.TheConstants.{BLOCK_BYTES, BODY_ROOM};
ghost use Rattle.sysv_model.specs.Blocks.{block_of};

use crate::limits::{BLOCK_BYTES, BODY_ROOM};
use crate::no_memory::NoMemory;
use std::alloc::Global;
use std::marker::Model;

/// The number of blocks in a body.
const BODY_BLOCKS: usize = BODY_ROOM / BLOCK_BYTES;

/// The body of one message, `mtext` (POSIX.1-2017, `msgsnd`): a list of at most 8,256 bytes.
///
/// A body has space for all 8,256 bytes (a limit of this profile) from the start, so only `open`
/// allocates. The bytes are in blocks of 64, each block in memory of its own.
#[derive(Drop)]
pub struct Body {
    blocks: Vec<Box<[u8; BLOCK_BYTES]>>,
    len: usize,
}

impl Model for Body {
    ghost use Rattle.std.specs.Prelude.{List, ℕ, take};
    ghost use Rattle.std.specs.Coded.{coded_list, coded_ℕ};
    ghost use Rattle.sysv_model.specs.Body.{bytes_of, HasRoom};

    ghost Value = { List ℕ };

    ghost view = { λ b. take b.len (bytes_of b.blocks.items) };

    ghost invariant = { λ b. HasRoom b.blocks.items b.len };
}

impl Body {
    /// Creates an empty body with space for 8,256 bytes.
    ///
    /// # Errors
    ///
    /// - `NoMemory` if allocation fails.
    pub fn open(alloc: Global) -> Result<Body, NoMemory>
        ensures { IfOk result (λ body. body ≡ []) }
    {
        let mut blocks = Vec::with_capacity(alloc, BODY_BLOCKS).map_err(|_| NoMemory)?;
        for _ in 0..BODY_BLOCKS {
            let Ok(block) = Box::new(alloc, [0; BLOCK_BYTES]) else {
                return Err(NoMemory);
            };
            blocks.push_reserved(block);
        }
        Ok(Body { blocks, len: 0 })
    }

    /// Removes all bytes and keeps the space.
    pub fn clear(&mut self)
        ensures { self.new ≡ [] }
    {
        self.len = 0;
    }

    /// Shortens the body to its first `len` bytes. A body of at most `len` bytes is unchanged.
    pub fn truncate(&mut self, len: usize)
        ensures { self.new ≡ take len self.old }
    {
        self.len = len.min(self.len);
    }

    /// Appends `piece` if the body has space for all of it.
    ///
    /// Returns true if the piece was appended. Returns false, with nothing changed, if body and
    /// piece together have more than 8,256 bytes.
    pub fn push_piece(&mut self, piece: &[u8]) -> bool
        ensures fits { length self.old + length piece.now ≤ BODY_ROOM → result ≡ true }
        ensures refused { BODY_ROOM < length self.old + length piece.now → result ≡ false }
        ensures after { self.new ≡ (if result then self.old ++ piece.now else self.old) }
    {
        if piece.len() > BODY_ROOM - self.len() {
            return false;
        }
        let mut rest = piece;
        while !rest.is_empty() {
            rest = self.fill_block(rest);
        }
        true
    }

    /// Appends as much of `piece` as the last block has space for, and returns the rest.
    fn fill_block<'a>(&mut self, piece: &'a [u8]) -> &'a [u8]
        requires some { 0 < length piece.now }
        requires room { length self.old + length piece.now ≤ BODY_ROOM }
        ensures text { self.new ++ result.now ≡ self.old ++ piece.now }
        ensures less { length result.now < length piece.now }
    {
        let offset = self.len % BLOCK_BYTES;
        let count = piece.len().min(BLOCK_BYTES - offset);
        let block: &mut [u8; BLOCK_BYTES] = &mut self.blocks[self.len / BLOCK_BYTES];
        write(block, offset, &piece[..count]);
        self.len += count;
        &piece[count..]
    }

    /// Returns the number of bytes, 0 to 8,256.
    pub fn len(&self) -> usize
        ensures value { result ≡ length self.now }
        ensures room { result ≤ BODY_ROOM }
    {
        self.len
    }

    /// Returns the byte at index `i`, counted from 0.
    ///
    /// # Conditions
    ///
    /// - `i` is below `len()`.
    pub fn byte(&self, i: usize) -> u8
        requires { i < length self.now }
        ensures { slice_get self.now i ≡ Some result }
    {
        let block: &[u8; BLOCK_BYTES] = &self.blocks[i / BLOCK_BYTES];
        block[i % BLOCK_BYTES]
    }

    /// Returns block `k`, counted from 0: the bytes from `64 * k` on, at most 64 of them.
    ///
    /// A block that begins at the end of the body or later is empty. Blocks 0, 1, 2 and so on make
    /// up the body when they are concatenated.
    pub fn block(&self, k: u32) -> &[u8]
        ensures { result.now ≡ block_of k self.now }
    {
        let start = k as usize * BLOCK_BYTES;
        if start >= self.len {
            return &[];
        }
        let block: &[u8; BLOCK_BYTES] = &self.blocks[k as usize];
        &block[..BLOCK_BYTES.min(self.len - start)]
    }
}

/// Writes `piece` into `block` after the first `offset` bytes. A piece that fills the block is
/// copied in one assignment, whose length the compiler knows.
fn write(block: &mut [u8; BLOCK_BYTES], offset: usize, piece: &[u8])
    requires { offset + length piece.now ≤ BLOCK_BYTES }
    ensures whole { length block.new ≡ BLOCK_BYTES }
    ensures text { take (offset + length piece.now) block.new ≡ take offset block.old ++ piece.now }
{
    match piece.as_array::<BLOCK_BYTES>() {
        Some(whole) => *block = *whole,
        None => block[offset..offset + piece.len()].copy_from_slice(piece),
    }
}
