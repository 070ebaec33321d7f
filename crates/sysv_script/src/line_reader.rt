//! Finds the next line of a script, and reads more if its end is not there yet.
ghost use Rattle.std.specs.Prelude.{ℕ, false, true, ◌≡◌, ◌+◌, ◌<◌, ◌≤◌, [], length, take, MatchOption, IfOk, IfErr, OnOk, OnErr, IfSome};
ghost use Rattle.std.specs.Io.KnownBytes.{Appends, IsAtEnd};
ghost use Rattle.sysv_model.specs.Instrumented.{stream_of, KeepsStream};
ghost use Rattle.sysv_model.specs.Writing.{AppendsPrefix};
ghost use Rattle.sysv_script.specs.Faults.{IsStreamFault, is_read_fault, is_write_fault};
ghost use Rattle.sysv_script.specs.Found.{HasNoEnd, IsFirstLine, IsNextLine, FindsLine};
ghost use Rattle.sysv_script.specs.Streams.{HandsOn, TakesIn};
ghost use Rattle.sysv_script.specs.declared.input.TheConstants.{INPUT_ROOM};
ghost use Rattle.sysv_script.specs.declared.line.TheConstants.{LINE_BYTES};

use crate::LINE_BYTES;
use crate::fault::ScriptFault;
use crate::input::Input;
use crate::output::Output;
use memchr::memchr;
use std::io::{Read, Write};
use sysv_model::Instrumented;

/// The next line: the first pending bytes.
#[derive(Clone, Copy)]
pub struct Found {
    /// The length of the line in bytes, without its LF.
    pub len: usize,
    /// Whether no LF follows the line: it is the last line, or is longer than a line may be.
    pub is_last: bool,
}

/// Finds the next line, and reads more if its end is not there yet. Before each read the composed
/// lines are written. Returns `None` if there is no line.
///
/// If the end of a line is pending, nothing is read and nothing is written.
///
/// # Errors
///
/// - `Read` if the reader fails. The writer took all composed lines.
/// - `Write` if the writer fails or takes no byte. The writer took a prefix of the composed lines.
///
/// After an error no line is composed, and the pending bytes contain no LF.
pub fn next_line<R: Read, W: Write>(
    input: &mut Input,
    output: &mut Output,
    reader: &mut Instrumented<'_, R>,
    writer: &mut Instrumented<'_, W>,
) -> Result<Option<Found>, ScriptFault>
    ensures text { TakesIn (R.remaining (stream_of reader.old)) input.old
        (R.remaining (stream_of reader.new)) input.new }
    ensures answers { OnOk result
        (HandsOn (W.contents (stream_of writer.old)) output.old
        (W.contents (stream_of writer.new)) output.new) }
    ensures found { IfOk result (λ found.
        FindsLine found input.new (R.remaining (stream_of reader.new))) }
    // A line that is there is found before anything is read or written.
    ensures at_once { (len : ℕ) → IsFirstLine len input.old →
        (input.new ≡ input.old) × (output.new ≡ output.old)
        × (reader.new ≡ reader.old) × (writer.new ≡ writer.old) }
    // No line is there if a stream fails. If the reader fails, all composed lines were written.
    ensures endless { OnErr result (HasNoEnd input.new) }
    ensures none_left { OnErr result (output.new ≡ []) }
    ensures err { OnErr result (AppendsPrefix (W.contents (stream_of writer.old))
        (W.contents (stream_of writer.new)) output.old) }
    ensures read_last { IfErr result (λ fault. fault ≡ ScriptFault.Read →
        Appends (W.contents (stream_of writer.old))
        (W.contents (stream_of writer.new)) output.old) }
    ensures fault { IfErr result IsStreamFault }
    ensures reader { KeepsStream reader.old reader.new (is_read_fault result) }
    ensures writer { KeepsStream writer.old writer.new (is_write_fault result) }
{
    let mut seen = 0;
    loop {
        if let Some(found) = line_within(input.waiting(), seen) {
            return Ok(Some(found));
        }
        seen = input.waiting().len();
        match read_on(input, output, reader, writer) {
            Ok(0) => return Ok(line_at_end(seen)),
            Ok(_) => {}
            Err(fault) => return Err(fault),
        }
    }
}

/// Returns the next line if the pending bytes contain its end, or show that it is too long. The
/// first `seen` bytes contain no LF.
fn line_within(waiting: &[u8], seen: usize) -> Option<Found>
    requires within { seen ≤ length waiting.now }
    requires before { HasNoEnd (take seen waiting.now) }
    ensures { MatchOption result (HasNoEnd waiting.now × (length waiting.now ≤ LINE_BYTES))
        (λ found. (found.is_last ≡ false → IsFirstLine found.len waiting.now)
        × (found.is_last ≡ true → HasNoEnd waiting.now × (found.len ≡ length waiting.now)
        × (LINE_BYTES < found.len))) }
{
    match line_end(waiting, seen) {
        Some(len) => Some(Found {
            len,
            is_last: false,
        }),
        None if waiting.len() > LINE_BYTES => Some(Found {
            len: waiting.len(),
            is_last: true,
        }),
        None => None,
    }
}

/// Returns the last line, which has `len` bytes, or `None` if `len` is 0.
fn line_at_end(len: usize) -> Option<Found>
    ensures { MatchOption result (len ≡ 0) (λ found. (found.len ≡ len) × (found.is_last ≡ true)
        × (0 < len)) }
{
    match len {
        0 => None,
        _ => Some(Found { len, is_last: true }),
    }
}

/// Returns the place of the first LF. The first `seen` bytes contain none.
fn line_end(waiting: &[u8], seen: usize) -> Option<usize>
    requires within { seen ≤ length waiting.now }
    requires before { HasNoEnd (take seen waiting.now) }
    ensures { MatchOption result (HasNoEnd waiting.now) (λ len. IsFirstLine len waiting.now) }
{
    match first_end(&waiting[seen..]) {
        Some(more) => Some(seen + more),
        None => None,
    }
}

/// Returns the place of the first LF.
fn first_end(text: &[u8]) -> Option<usize>
    ensures { MatchOption result (HasNoEnd text.now) (λ len. IsFirstLine len text.now) }
{
    memchr(b'\n', text)
}

/// Writes the composed lines and reads once. Returns the number of bytes that were read: 0 at the
/// end of the input.
///
/// # Errors
///
/// - `Write` if the writer fails or takes no byte. The writer took a prefix of the composed lines.
/// - `Read` if the reader fails. The writer took all composed lines.
///
/// No line is composed afterwards, also after an error. After an error the pending bytes are the
/// same.
///
/// # Conditions
///
/// Fewer than `INPUT_ROOM` bytes must be pending.
pub fn read_on<R: Read, W: Write>(
    input: &mut Input,
    output: &mut Output,
    reader: &mut Instrumented<'_, R>,
    writer: &mut Instrumented<'_, W>,
) -> Result<usize, ScriptFault>
    requires { length input.old < INPUT_ROOM }
    ensures text { TakesIn (R.remaining (stream_of reader.old)) input.old
        (R.remaining (stream_of reader.new)) input.new }
    ensures kept { OnErr result (input.new ≡ input.old) }
    ensures count { IfOk result (λ count. length input.new ≡ length input.old + count) }
    ensures end { IfOk result (λ count. count ≡ 0 → IsAtEnd (R.remaining (stream_of reader.new))) }
    ensures answers { OnOk result
        (Appends (W.contents (stream_of writer.old))
        (W.contents (stream_of writer.new)) output.old) }
    ensures none_left { output.new ≡ [] }
    ensures err { OnErr result (AppendsPrefix (W.contents (stream_of writer.old))
        (W.contents (stream_of writer.new)) output.old) }
    ensures read_last { IfErr result (λ fault. fault ≡ ScriptFault.Read →
        Appends (W.contents (stream_of writer.old))
        (W.contents (stream_of writer.new)) output.old) }
    ensures fault { IfErr result IsStreamFault }
    ensures reader { KeepsStream reader.old reader.new (is_read_fault result) }
    ensures writer { KeepsStream writer.old writer.new (is_write_fault result) }
{
    match output.write_to(writer) {
        Ok(()) => input.read_from(reader),
        Err(fault) => Err(fault),
    }
}
