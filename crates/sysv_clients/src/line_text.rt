//! A line of an input, in memory that is reserved from the start.
ghost use Rattle.std.specs.Prelude.{◌≡◌, ◌+◌, ◌≤◌, [], ◌++◌, length, IfOk};
ghost use Rattle.sysv_clients.specs.declared.line_text.TheConstants.{LINE_ROOM};

use crate::stated::OBJECT_BYTES;
use std::alloc::Global;
use std::marker::Model;
use sysv_model::NoMemory;

/// The number of bytes that a line has space for: one more than any line may have, so that a line
/// that is too long is known as such.
pub(crate) const LINE_ROOM: usize = OBJECT_BYTES + 1;

/// A line without its LF.
#[derive(Drop)]
pub(crate) struct LineText {
    bytes: Vec<u8>,
}

impl Model for LineText {
    ghost use Rattle.std.specs.Prelude.{List, ℕ, ◌≤◌, vec_capacity};
    ghost use Rattle.sysv_clients.specs.declared.line_text.TheConstants.{LINE_ROOM};

    ghost Value = { List ℕ };

    ghost view = { λ line. line.bytes.items };

    ghost invariant = { λ line. LINE_ROOM ≤ vec_capacity line.bytes };
}

impl LineText {
    /// Creates an empty line. Fails with `NoMemory` if allocation fails.
    pub(crate) fn open(alloc: Global) -> Result<LineText, NoMemory>
        ensures { IfOk result (λ line. line ≡ []) }
    {
        match Vec::with_capacity(alloc, LINE_ROOM) {
            Ok(bytes) => Ok(LineText { bytes }),
            Err(_) => Err(NoMemory),
        }
    }

    /// Returns all bytes of the line.
    pub(crate) fn bytes(&self) -> &[u8]
        ensures { result.now ≡ self.now }
    {
        &self.bytes
    }

    /// Returns the number of bytes.
    pub(crate) fn len(&self) -> usize
        ensures { result ≡ length self.now }
    {
        self.bytes.len()
    }

    /// Removes all bytes and keeps the space.
    pub(crate) fn clear(&mut self)
        ensures { self.new ≡ [] }
    {
        self.bytes.clear();
    }

    /// Appends bytes for which there is space.
    pub(crate) fn put(&mut self, piece: &[u8])
        requires { length self.old + length piece.now ≤ LINE_ROOM }
        ensures { self.new ≡ self.old ++ piece.now }
    {
        match self.bytes.extend_from_slice(piece) {
            Ok(()) => {}
            Err(_) => unreachable!(),
        }
    }
}
