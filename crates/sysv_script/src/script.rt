//! The run of a script: its lines are read and run one by one, and what they print is written.
ghost use Rattle.std.specs.Prelude.{false, true, ◌≡◌, ◌+◌, ◌<◌, ◌≤◌, ◌++◌, [], ℕ, List, Option, Some, length, take, drop, IfOk, IfErr, IsOk, OnOk, OnErr};
ghost use Rattle.std.specs.Io.KnownBytes.{Appends, IsAtEnd};
ghost use Rattle.sysv_lists.specs.Prefix.{IsPrefixOf};
ghost use Rattle.sysv_model.specs.Instrumented.{stream_of, KeepsStream};
ghost use Rattle.sysv_model.specs.Writing.{AppendsPrefix};
ghost use Rattle.sysv_script.specs.Faults.{Grows, IsLineFault, IsStreamFault, EndsAtLine, LeavesBadLine, TellsBadLine, is_read_fault, is_write_fault};
ghost use Rattle.sysv_script.specs.ScriptState.{ScriptState, opening_script_state};
ghost use Rattle.sysv_script.specs.ScriptText.{LineDoes, IsBad};
ghost use Rattle.sysv_script.specs.Written.{WritesScript};
ghost use Rattle.sysv_script.specs.ObeyingRun.{WritesRun};
ghost use Rattle.sysv_script.specs.ScriptSofar.{LineEnds, Leaves, IsText, RunsOn, RunsNext};
ghost use Rattle.sysv_script.specs.Staged.{IsScriptStateOf};
ghost use Rattle.sysv_script.specs.Found.{IsFirstLine};
ghost use Rattle.sysv_script.specs.declared.fault.TheConstants.{SCRIPT_LINES};
ghost use Rattle.sysv_script.specs.declared.output.TheConstants.{MOST_COMPOSED};
ghost use Rattle.sysv_script.specs.declared.line.TheConstants.{LINE_BYTES};

use crate::fault::{SCRIPT_LINES, ScriptFault};
use crate::input::Input;
use crate::laws::{each_script_obeys, each_text_prints, one_text};
use crate::line_reader::{Found, next_line, read_on};
use crate::output::Output;
use crate::stage::Stage;
use crate::{Head, LINE_BYTES, line_of};
use std::alloc::Global;
use std::io::{Read, Write};
use sysv_model::{Instrumented, NoMemory};
use sysv_words::one_split;

/// Runs the script that `reader` returns on a world of 16 actors, and writes what it prints to
/// `writer`.
///
/// What was read is run, and its results are written, before more is read. Only `write` is called
/// on `writer`; if it has a buffer, the caller must flush it.
///
/// # Errors
///
/// - `Line(n)` if line `n` is bad; `line N: bad` is then the last line written. A bad line is not
///   understood, or is longer than 9,000 bytes, or is a `preset` when slot 0 is in use or was used
///   before, or is a `pool` after any other line that is not skipped.
/// - `Bound` if a line begins after line 1,000,000.
/// - `Read` if the reader fails.
/// - `Write` if the writer fails or takes no byte.
/// - `NoMemory` if memory is refused.
///
/// After `Line(n)` and `Bound`, all that the script prints was written. After `Read`, all that the
/// lines print that were read to their ends was written. After `Write` and `NoMemory`, a prefix of
/// what the script prints was written.
pub fn run_script<R: Read, W: Write>(
    alloc: Global,
    reader: &mut Instrumented<'_, R>,
    writer: &mut Instrumented<'_, W>,
) -> Result<(), ScriptFault>
    // What the writer took is what the text prints. After a fault of the writer or of memory, it is
    // a prefix of that. After a fault of the reader, it is what the lines print that were read.
    ensures prints { (text : List ℕ) → R.remaining (stream_of reader.old) ≡ Some text →
        WritesScript result text (W.contents (stream_of writer.old))
        (W.contents (stream_of writer.new)) (R.remaining (stream_of reader.new)) }
    // The lines are a list of transitions that leads to a world that obeys the laws of the
    // headline, and what the writer took are the results of that run, or a prefix of them, as
    // above.
    ensures obeys { (text : List ℕ) → R.remaining (stream_of reader.old) ≡ Some text →
        WritesRun result text (W.contents (stream_of writer.old))
        (W.contents (stream_of writer.new)) (R.remaining (stream_of reader.new)) }
    // A script that ends well was read to its end.
    ensures whole { OnOk result (IsAtEnd (R.remaining (stream_of reader.new))) }
    // What the writer had taken before stays. If a line is bad, the last line that it took states
    // which.
    ensures grows { Grows (W.contents (stream_of writer.old)) (W.contents (stream_of writer.new)) }
    ensures bad { IfErr result (λ fault.
        TellsBadLine fault (W.contents (stream_of writer.old))
        (W.contents (stream_of writer.new))) }
    // The streams are the same ones, and each has failed in this call if and only if the fault says
    // so.
    ensures reader { KeepsStream reader.old reader.new (is_read_fault result) }
    ensures writer { KeepsStream writer.old writer.new (is_write_fault result) }
{
    one_text();
    each_text_prints();
    each_script_obeys();
    let Ok(mut run) = Run::open(alloc) else {
        return Err(ScriptFault::NoMemory);
    };
    let ended = run.run_lines(alloc, reader, writer);
    run.end(writer).and(ended)
}

/// A pending script: the stage on which it runs, the pending bytes, and the composed lines.
struct Run {
    stage: Stage,
    input: Input,
    output: Output,
}

impl Run {
    /// Opens a script of which nothing has been read.
    fn open(alloc: Global) -> Result<Run, NoMemory>
        ensures { IfOk result (λ run. IsScriptStateOf opening_script_state run.stage
            × (run.input ≡ [])
            × (run.output ≡ [])) }
    {
        let input = Input::open(alloc)?;
        let output = Output::open(alloc)?;
        let stage = Stage::open(alloc)?;
        Ok(Run {
            stage,
            input,
            output,
        })
    }

    /// Runs the lines one by one, up to the end, the first fault or the bound. The last lines that
    /// it prints may still have to be written.
    fn run_lines<R: Read, W: Write>(
        &mut self,
        alloc: Global,
        reader: &mut Instrumented<'_, R>,
        writer: &mut Instrumented<'_, W>,
    ) -> Result<(), ScriptFault>
        requires { self.old.output ≡ [] }
        ensures prints { (s : ScriptState) → IsScriptStateOf s self.old.stage → (text : List ℕ) →
            IsText self.old.input (R.remaining (stream_of reader.old)) text →
            Leaves result s text (W.contents (stream_of writer.old))
            (W.contents (stream_of writer.new)) self.new.output
            (R.remaining (stream_of reader.new)) }
        ensures whole { OnOk result (IsAtEnd (R.remaining (stream_of reader.new))) }
        ensures grows { Grows (W.contents (stream_of writer.old))
            (W.contents (stream_of writer.new)) }
        ensures bad { IfErr result (λ fault. LeavesBadLine fault self.new.output) }
        ensures none_left { IfErr result (λ fault. IsStreamFault fault → self.new.output ≡ []) }
        ensures reader { KeepsStream reader.old reader.new (is_read_fault result) }
        ensures writer { KeepsStream writer.old writer.new (is_write_fault result) }
    {
        for passed in 0..SCRIPT_LINES {
            match self.run_next(alloc, reader, writer, passed + 1) {
                Ok(true) => {}
                Ok(false) => return Ok(()),
                Err(fault) => return Err(fault),
            }
        }
        self.expect_end(reader, writer)
    }

    /// Runs the next line, which has this number. Returns `false` if the script is at its end.
    fn run_next<R: Read, W: Write>(
        &mut self,
        alloc: Global,
        reader: &mut Instrumented<'_, R>,
        writer: &mut Instrumented<'_, W>,
        number: u32,
    ) -> Result<bool, ScriptFault>
        requires first { 1 ≤ number }
        requires last { number ≤ SCRIPT_LINES }
        ensures runs { (s : ScriptState) → (text : List ℕ) → (old : Option (List ℕ)) →
            RunsOn s text old number self.old.stage self.old.input
            (R.remaining (stream_of reader.old))
            (W.contents (stream_of writer.old)) self.old.output →
            RunsNext result s text old number self.new.stage self.new.input
            (R.remaining (stream_of reader.new))
            (W.contents (stream_of writer.new)) self.new.output }
        // A line that was read is run before more is read.
        ensures at_once { (len : ℕ) → IsFirstLine len self.old.input → reader.new ≡ reader.old }
        ensures whole { IfOk result (λ more. more ≡ false →
            IsAtEnd (R.remaining (stream_of reader.new))) }
        ensures grows { Grows (W.contents (stream_of writer.old))
            (W.contents (stream_of writer.new)) }
        ensures bad { IfErr result (λ fault. LeavesBadLine fault self.new.output) }
        ensures none_left { IfErr result (λ fault. IsStreamFault fault → self.new.output ≡ []) }
        ensures reader { KeepsStream reader.old reader.new (is_read_fault result) }
        ensures writer { KeepsStream writer.old writer.new (is_write_fault result) }
    {
        one_split();
        let Some(found) = next_line(&mut self.input, &mut self.output, reader, writer)? else {
            return Ok(false);
        };
        self.output.make_room(writer)?;
        self.run_found(alloc, found, number)?;
        Ok(!found.is_last)
    }

    /// Runs the line that was found, which has this number, and drops it from the pending bytes.
    fn run_found(&mut self, alloc: Global, found: Found, number: u32) -> Result<(), ScriptFault>
        requires front { found.len ≤ length self.old.input }
        requires behind { found.is_last ≡ false → found.len < length self.old.input }
        requires room { length self.old.output ≤ MOST_COMPOSED }
        ensures short { OnOk result (found.len ≤ LINE_BYTES) }
        ensures rest { OnOk result (found.is_last ≡ false →
            self.new.input ≡ drop (found.len + 1) self.old.input) }
        ensures does { OnOk result ((s : ScriptState) → IsScriptStateOf s self.old.stage →
            (after : ScriptState)
            × (out : List ℕ)
            × LineDoes s (take found.len self.old.input) out after
            × IsScriptStateOf after self.new.stage
            × (self.new.output ≡ self.old.output ++ out)) }
        ensures fault { IfErr result (λ fault.
            EndsAtLine fault number self.old.output self.new.output) }
        ensures bad { IfErr result (λ fault. IsLineFault fault → (s : ScriptState) →
            IsScriptStateOf s self.old.stage → IsBad s (take found.len self.old.input)) }
    {
        let line = &self.input.waiting()[..found.len];
        match run_line(alloc, &mut self.stage, &mut self.output, line) {
            Ok(true) => {}
            Ok(false) => return Err(bad_line(&mut self.output, number)),
            Err(NoMemory) => return Err(ScriptFault::NoMemory),
        }
        if !found.is_last {
            self.input.pass_line(found.len);
        }
        Ok(())
    }

    /// Checks that no line begins after the last one that a script may have.
    fn expect_end<R: Read, W: Write>(
        &mut self,
        reader: &mut Instrumented<'_, R>,
        writer: &mut Instrumented<'_, W>,
    ) -> Result<(), ScriptFault>
        ensures runs { (s : ScriptState) → (text : List ℕ) → (old : Option (List ℕ)) →
            (number : ℕ) →
            SCRIPT_LINES < number →
            RunsOn s text old number self.old.stage self.old.input
            (R.remaining (stream_of reader.old))
            (W.contents (stream_of writer.old)) self.old.output →
            Leaves result s text old (W.contents (stream_of writer.new)) self.new.output
            (R.remaining (stream_of reader.new)) }
        ensures whole { OnOk result (IsAtEnd (R.remaining (stream_of reader.new))) }
        ensures grows { Grows (W.contents (stream_of writer.old))
            (W.contents (stream_of writer.new)) }
        ensures bad { IfErr result (λ fault. LeavesBadLine fault self.new.output) }
        ensures none_left { IfErr result (λ fault. IsStreamFault fault → self.new.output ≡ []) }
        ensures reader { KeepsStream reader.old reader.new (is_read_fault result) }
        ensures writer { KeepsStream writer.old writer.new (is_write_fault result) }
    {
        if !self.input.waiting().is_empty() {
            return Err(ScriptFault::Bound);
        }
        match read_on(&mut self.input, &mut self.output, reader, writer) {
            Ok(0) => Ok(()),
            Ok(_) => Err(ScriptFault::Bound),
            Err(fault) => Err(fault),
        }
    }

    /// Writes the last lines and ends the world.
    fn end<W: Write>(self, writer: &mut Instrumented<'_, W>) -> Result<(), ScriptFault>
        ensures ok { OnOk result (Appends (W.contents (stream_of writer.old))
            (W.contents (stream_of writer.new)) self.output) }
        ensures err { OnErr result (AppendsPrefix (W.contents (stream_of writer.old))
            (W.contents (stream_of writer.new)) self.output) }
        ensures fault { IfErr result (λ fault. fault ≡ ScriptFault.Write) }
        ensures empty { self.output ≡ [] → IsOk result }
        ensures stream { KeepsStream writer.old writer.new (is_write_fault result) }
    {
        let Run {
            stage,
            input: _input,
            mut output,
        } = self;
        stage.end();
        output.write_to(writer)
    }
}

/// Runs one line and composes what it prints. Returns `false` if the line is bad.
fn run_line(
    alloc: Global,
    stage: &mut Stage,
    output: &mut Output,
    line: &[u8],
) -> Result<bool, NoMemory>
    ensures runs { IfOk result (λ understood. (s : ScriptState) → IsScriptStateOf s stage.old →
        (after : ScriptState)
        × (out : List ℕ)
        × LineEnds s line.now understood out after × IsScriptStateOf after stage.new
        × (output.new ≡ output.old ++ out)) }
    ensures short { IfOk result (λ understood. understood ≡ true → length line.now ≤ LINE_BYTES) }
    ensures quiet { IfOk result (λ understood. understood ≡ false → output.new ≡ output.old) }
    ensures err { OnErr result (IsPrefixOf output.new output.old) }
{
    match line_of(line) {
        Some(line) => stage.run(alloc, line, output),
        None => Ok(false),
    }
}

/// Composes the line that states that line `number` is bad, and returns the fault.
fn bad_line(output: &mut Output, number: u32) -> ScriptFault
    ensures { EndsAtLine result number output.old output.new }
{
    match output.tell(Head::Bad { number }) {
        Ok(()) => ScriptFault::Line(number),
        Err(NoMemory) => ScriptFault::NoMemory,
    }
}
