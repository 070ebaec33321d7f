//! The lines that are composed and not yet written.
ghost use Rattle.std.specs.Prelude.{◌≡◌, ◌≤◌, [], ◌∷◌, ◌++◌, length, IfOk, IfErr, IsOk, OnOk, OnErr};
ghost use Rattle.std.specs.Io.KnownBytes.{Appends};
ghost use Rattle.sysv_script.specs.Heads.{head_text};
ghost use Rattle.sysv_model.specs.Instrumented.{stream_of, KeepsStream};
ghost use Rattle.sysv_model.specs.Writing.{AppendsPrefix};
ghost use Rattle.sysv_script.specs.Faults.{is_write_fault};
ghost use Rattle.sysv_script.specs.Streams.{HandsOn};
ghost use Rattle.sysv_script.specs.declared.output.TheConstants.{MOST_COMPOSED};

use crate::Head;
use crate::fault::ScriptFault;
use std::alloc::Global;
use std::io::Write;
use std::marker::Model;
use sysv_model::{BLOCK_BYTES, Body, Instrumented, NoMemory, WriteFault};

/// The capacity of the output in bytes.
const OUTPUT_ROOM: usize = 65536;

/// More bytes than any line of output needs. That of a receive is a head of at most 40 bytes, a
/// body of at most 8,192 and an LF; that of a stat has at most 245.
const LONGEST: usize = 8400;

/// The maximum number of composed bytes before a line is run: one more line then fits.
pub(crate) const MOST_COMPOSED: usize = OUTPUT_ROOM - LONGEST;

/// Lines that are composed and not yet written.
#[derive(Drop)]
pub struct Output {
    bytes: Vec<u8>,
}

impl Model for Output {
    ghost use Rattle.std.specs.Prelude.{List, ℕ, ⊤};

    ghost Value = { List ℕ };

    ghost view = { λ output. output.bytes.items };

    ghost invariant = { λ _. ⊤ };
}

impl Output {
    /// Opens an output that can hold 65,536 bytes, without composed lines.
    ///
    /// # Errors
    ///
    /// `NoMemory` if memory is refused.
    pub fn open(alloc: Global) -> Result<Output, NoMemory>
        ensures { IfOk result (λ output. output ≡ []) }
    {
        match Vec::with_capacity(alloc, OUTPUT_ROOM) {
            Ok(bytes) => Ok(Output { bytes }),
            Err(_) => Err(NoMemory),
        }
    }

    /// Composes a line that consists of a head.
    ///
    /// # Errors
    ///
    /// `NoMemory` if memory is refused. No line is then left composed.
    pub fn tell(&mut self, head: Head) -> Result<(), NoMemory>
        ensures ok { OnOk result (self.new ≡ self.old ++ (head_text head ++ 10 ∷ [])) }
        ensures err { OnErr result (self.new ≡ []) }
    {
        match writeln!(self.bytes, "{head}") {
            Ok(()) => Ok(()),
            Err(_) => {
                self.bytes.clear();
                Err(NoMemory)
            }
        }
    }

    /// Composes a line that consists of a head and the bytes of a message body.
    ///
    /// # Errors
    ///
    /// `NoMemory` if memory is refused. No line is then left composed.
    pub fn tell_text(&mut self, head: Head, text: &Body) -> Result<(), NoMemory>
        ensures ok { OnOk result (self.new ≡ self.old
            ++ (head_text head ++ (text.now ++ 10 ∷ []))) }
        ensures err { OnErr result (self.new ≡ []) }
    {
        match append_line(&mut self.bytes, head, text) {
            Ok(()) => Ok(()),
            Err(NoMemory) => {
                self.bytes.clear();
                Err(NoMemory)
            }
        }
    }

    /// Writes the composed lines if there might be no room for one more. An `all` may compose 16.
    ///
    /// # Errors
    ///
    /// `Write` if the writer fails or takes no byte. The writer took a prefix of the composed
    /// lines, and no line is left composed.
    pub fn make_room<W: Write>(
        &mut self,
        writer: &mut Instrumented<'_, W>,
    ) -> Result<(), ScriptFault>
        ensures ok { OnOk result (HandsOn (W.contents (stream_of writer.old)) self.old
            (W.contents (stream_of writer.new)) self.new) }
        ensures room { OnOk result (length self.new ≤ MOST_COMPOSED) }
        ensures none_left { OnErr result (self.new ≡ []) }
        ensures err { OnErr result (AppendsPrefix (W.contents (stream_of writer.old))
            (W.contents (stream_of writer.new)) self.old) }
        ensures fault { IfErr result (λ fault. fault ≡ ScriptFault.Write) }
        ensures stream { KeepsStream writer.old writer.new (is_write_fault result) }
    {
        if self.bytes.len() <= MOST_COMPOSED {
            return Ok(());
        }
        self.write_to(writer)
    }

    /// Writes all composed lines. No line is left composed, also after an error. Without composed
    /// lines it succeeds.
    ///
    /// # Errors
    ///
    /// `Write` if the writer fails or takes no byte. The writer took a prefix of the composed
    /// lines.
    pub fn write_to<W: Write>(
        &mut self,
        writer: &mut Instrumented<'_, W>,
    ) -> Result<(), ScriptFault>
        ensures ok { OnOk result (Appends (W.contents (stream_of writer.old))
            (W.contents (stream_of writer.new)) self.old) }
        ensures none_left { self.new ≡ [] }
        ensures err { OnErr result (AppendsPrefix (W.contents (stream_of writer.old))
            (W.contents (stream_of writer.new)) self.old) }
        ensures fault { IfErr result (λ fault. fault ≡ ScriptFault.Write) }
        ensures empty { self.old ≡ [] → IsOk result }
        ensures stream { KeepsStream writer.old writer.new (is_write_fault result) }
    {
        if self.bytes.is_empty() {
            return Ok(());
        }
        let written = writer.write_out(&self.bytes);
        self.bytes.clear();
        match written {
            Ok(()) => Ok(()),
            Err(WriteFault) => Err(ScriptFault::Write),
        }
    }
}

/// Appends a head, a message body and an LF.
fn append_line(bytes: &mut Vec<u8>, head: Head, text: &Body) -> Result<(), NoMemory>
    ensures { OnOk result (bytes.new.items ≡ bytes.old.items
        ++ (head_text head ++ (text.now ++ 10 ∷ []))) }
{
    if write!(bytes, "{head}").is_err()
        || append_text(bytes, text).is_err()
        || bytes.push(b'\n').is_err()
    {
        return Err(NoMemory);
    }
    Ok(())
}

/// Appends a message body, block by block.
fn append_text(bytes: &mut Vec<u8>, text: &Body) -> Result<(), NoMemory>
    ensures { OnOk result (bytes.new.items ≡ bytes.old.items ++ text.now) }
{
    let blocks = text.len().div_ceil(BLOCK_BYTES) as u32;
    for k in 0..blocks {
        if bytes.extend_from_slice(text.block(k)).is_err() {
            return Err(NoMemory);
        }
    }
    Ok(())
}
