//! The bytes of a script that were read and not yet run.
ghost use Rattle.std.specs.Prelude.{◌≡◌, ◌+◌, ◌<◌, ◌≤◌, [], ◌++◌, length, take, drop, slice_range, vec_len, IfOk, IfErr, OnErr};
ghost use Rattle.std.specs.Io.KnownBytes.{Consumes, IsAtEnd};
ghost use Rattle.sysv_model.specs.Instrumented.{stream_of, KeepsStream};
ghost use Rattle.sysv_script.specs.Faults.{is_read_fault};
ghost use Rattle.sysv_script.specs.Streams.{TakesIn};
ghost use Rattle.sysv_script.specs.declared.input.TheConstants.{INPUT_ROOM};

use crate::LINE_BYTES;
use crate::fault::ScriptFault;
use std::alloc::Global;
use std::io::Read;
use std::marker::Model;
use sysv_model::{Instrumented, NoMemory};

/// The capacity of the input in bytes: one line of the maximum length and its LF. So of a line
/// without an end, at most this many bytes are read.
pub(crate) const INPUT_ROOM: usize = LINE_BYTES + 1;

/// The pending bytes of a script: they were read, and belong to lines that have not been run.
///
/// The bytes are in one buffer of fixed length. A read appends to them.
#[derive(Drop)]
pub struct Input {
    buffer: Vec<u8>,
    /// The place of the first pending byte.
    start: usize,
    /// The place after the last pending byte.
    end: usize,
}

impl Model for Input {
    ghost use Rattle.std.specs.Prelude.{List, ℕ, ◌≡◌, ◌≤◌, slice_range, vec_len};
    ghost use Rattle.sysv_script.specs.declared.input.TheConstants.{INPUT_ROOM};

    ghost Value = { List ℕ };

    ghost view = { λ input. slice_range input.buffer.items input.start input.end };

    ghost invariant = { λ input. (input.start ≤ input.end) × (input.end ≤ INPUT_ROOM)
        × (vec_len input.buffer ≡ INPUT_ROOM) };
}

impl Input {
    /// Opens an input without pending bytes.
    ///
    /// # Errors
    ///
    /// `NoMemory` if memory is refused.
    pub fn open(alloc: Global) -> Result<Input, NoMemory>
        ensures { IfOk result (λ input. input ≡ []) }
    {
        let Ok(buffer) = vec![in alloc; 0; INPUT_ROOM] else {
            return Err(NoMemory);
        };
        Ok(Input {
            buffer,
            start: 0,
            end: 0,
        })
    }

    /// Returns the pending bytes, at most `INPUT_ROOM`.
    pub fn waiting(&self) -> &[u8]
        ensures bytes { result.now ≡ self.now }
        ensures room { length result.now ≤ INPUT_ROOM }
    {
        &self.buffer[self.start..self.end]
    }

    /// Drops a line of `len` bytes and the LF after it from the pending bytes.
    ///
    /// # Conditions
    ///
    /// `len` must be less than the number of pending bytes.
    pub fn pass_line(&mut self, len: usize)
        requires { len < length self.old }
        ensures { self.new ≡ drop (len + 1) self.old }
    {
        let passed = self.start + len;
        self.start = passed + 1;
    }

    /// Reads once, appends the bytes to the pending ones, and returns their number: 0 at the end of
    /// the reader.
    ///
    /// # Errors
    ///
    /// `Read` if the reader fails. The pending bytes are then the same.
    ///
    /// # Conditions
    ///
    /// Fewer than `INPUT_ROOM` bytes must be pending.
    pub fn read_from<R: Read>(
        &mut self,
        reader: &mut Instrumented<'_, R>,
    ) -> Result<usize, ScriptFault>
        requires { length self.old < INPUT_ROOM }
        ensures text { TakesIn (R.remaining (stream_of reader.old)) self.old
            (R.remaining (stream_of reader.new)) self.new }
        ensures kept { OnErr result (self.new ≡ self.old) }
        ensures count { IfOk result (λ count. length self.new ≡ length self.old + count) }
        ensures end { IfOk result (λ count. count ≡ 0 →
            IsAtEnd (R.remaining (stream_of reader.new))) }
        ensures err { IfErr result (λ fault. fault ≡ ScriptFault.Read) }
        ensures stream { KeepsStream reader.old reader.new (is_read_fault result) }
    {
        let len = self.end - self.start;
        self.buffer.copy_within(self.start..self.end, 0);
        self.start = 0;
        self.end = len;
        match reader.read(&mut self.buffer[len..]) {
            Ok(count) => {
                self.end = len + count;
                Ok(count)
            }
            Err(_) => Err(ScriptFault::Read),
        }
    }
}
