//! Connections in memory that never wait, and whose reads and writes go by a list of steps.
ghost use Rattle.std.specs.Prelude.{◌≡◌, [], IfSome, None, false, length, true};
ghost use Rattle.sysv_seats.specs.Breaking.{MayBreak};
ghost use Rattle.sysv_seats.specs.Limits.{has_limit};
ghost use Rattle.sysv_seats.specs.PacedStreams.{DrainsAt, FillsAs, breaks_of, later_steps, limit_of, next_step, over_of};

use crate::book::Replies;
use crate::callers::Callers;
use crate::limits::{Limit, Limits};
use crate::non_blocking::{Drained, Filled, NonBlocking, Over};
use std::alloc::Global;
use std::marker::Model;

/// What the next read or write of a connection in memory does.
#[derive(Clone, Copy, PartialEq, Eq, Debug)]
pub enum Step {
    /// It moves at most this number of bytes. With 0, nothing can be moved now.
    AtMost(usize),
    /// The client has reset the connection: this read and all later ones return `Reset`, this write
    /// and all later ones fail.
    Reset,
    /// It fails, and so do all later ones.
    Fail,
}

/// A connection in memory. All that its client writes is there from the start, and the client reads
/// nothing of what is written to it.
#[derive(Drop)]
pub struct MemoryStream<'a> {
    input: &'a [u8],
    output: Vec<u8>,
    /// The number of bytes that can still be written.
    room: usize,
    reads: &'a [Step],
    writes: &'a [Step],
    /// Why nothing more can be read, if a read has said so.
    said: Option<Over>,
    /// Whether the client may leave or be cut off.
    cut: bool,
    /// The callers that it lets in.
    callers: Callers,
}

impl<'a> Model for MemoryStream<'a> {
    ghost use Rattle.std.specs.Prelude.{◌+◌, ◌≤◌, vec_capacity, vec_len};
    ghost use Rattle.sysv_seats.specs.PacedStreams.{PacedStream};

    ghost Value = { PacedStream };

    ghost view = { λ stream. record {
      unread = stream.input.now;
      written = stream.output.items;
      room = stream.room;
      reads = stream.reads.now;
      writes = stream.writes.now;
      said = stream.said;
      cut = stream.cut;
      callers = stream.callers;
    } };

    ghost invariant = { λ stream.
        vec_len stream.output + stream.room ≤ vec_capacity stream.output };
}

impl<'a> MemoryStream<'a> {
    /// Creates a connection whose client writes `input`, and to which `room` bytes can be written.
    /// Each read takes the next step of `reads`, and each write the next one of `writes`; after the
    /// last step there is no limit. The client stays, and is not cut off. Anyone is let in.
    ///
    /// Returns `None` if memory is refused.
    pub fn new(
        alloc: Global,
        input: &'a [u8],
        room: usize,
        reads: &'a [Step],
        writes: &'a [Step],
    ) -> Option<MemoryStream<'a>>
        ensures { IfSome result (λ stream. stream ≡ record {
          unread = input.now;
          written = [];
          room = room;
          reads = reads.now;
          writes = writes.now;
          said = None;
          cut = false;
          callers = Callers.Anyone;
        }) }
    {
        let output = Vec::with_capacity(alloc, room).ok()?;
        Some(MemoryStream {
            input,
            output,
            room,
            reads,
            writes,
            said: None,
            cut: false,
            callers: Callers::Anyone,
        })
    }

    /// Returns the connection, whose client may now leave or be cut off.
    pub fn with_cuts(self) -> MemoryStream<'a>
        ensures { result ≡ record self.entry { cut = true } }
    {
        let MemoryStream {
            input,
            output,
            room,
            reads,
            writes,
            said,
            cut: _,
            callers,
        } = self;
        MemoryStream {
            input,
            output,
            room,
            reads,
            writes,
            said,
            cut: true,
            callers,
        }
    }

    /// Returns the connection, which now lets in these callers.
    pub fn with_callers(self, callers: Callers) -> MemoryStream<'a>
        ensures { result ≡ record self.entry { callers = callers } }
    {
        let MemoryStream {
            input,
            output,
            room,
            reads,
            writes,
            said,
            cut,
            callers: _,
        } = self;
        MemoryStream {
            input,
            output,
            room,
            reads,
            writes,
            said,
            cut,
            callers,
        }
    }

    /// Returns what was written so far.
    pub fn written(&self) -> &[u8]
        ensures { result.now ≡ self.now.written }
    {
        self.output.as_slice()
    }

    /// Returns why nothing more can be read, if that is so.
    fn over(&self) -> Option<Over>
        ensures { result ≡ over_of self.now }
    {
        match next(self.reads) {
            Step::Fail => Some(Over::Failed),
            Step::Reset => Some(Over::Reset),
            Step::AtMost(most) if most > 0 && self.input.is_empty() => Some(Over::End),
            Step::AtMost(_) => None,
        }
    }
}

impl<'a> NonBlocking for MemoryStream<'a> {
    ghost use Rattle.std.specs.Prelude.{◌≡◌, None, Some};
    ghost use Rattle.sysv_seats.specs.Memory.{closing_in_memory};
    ghost use Rattle.sysv_seats.specs.PacedStreams.{DrainsAt, FailsAt, FillsAs, breaks_of, next_step, over_of};
    ghost use Rattle.sysv_seats.specs.NonBlocking.{DrainAppends, FillConsumes, said_after};

    type Book = Replies;

    ghost incoming = { λ stream. Some stream.unread };

    ghost outgoing = { λ stream. Some stream.written };

    ghost over = { over_of };

    ghost refuses = { λ stream. FailsAt (next_step stream.writes) };

    ghost closes = { closing_in_memory };

    #[tactic(auto, using(crate::proofs::Known::never_none))]
    fn fill(&mut self, buf: &mut [u8]) -> Filled
        ensures exact { FillsAs (over_of self.old) self.old result buf.new self.new }
        ensures bytes { FillConsumes (Some self.old.unread) (Some self.new.unread) result buf.new }
        ensures untold { Some self.old.unread ≡ None → Some self.new.unread ≡ None }
        ensures over { (why : Over) → result ≡ Filled.Over why → over_of self.new ≡ Some why }
        ensures said { self.new.said ≡ said_after result self.old.said }
        ensures again { (why : Over) → over_of self.old ≡ Some why
            → (result ≡ Filled.Over why) × (over_of self.new ≡ Some why) }
        ensures written { self.new.written ≡ self.old.written }
        ensures refuses { FailsAt (next_step self.old.writes)
            → FailsAt (next_step self.new.writes) }
        ensures breaks { breaks_of self.new ≡ breaks_of self.old }
        ensures reset { result ≡ Filled.Over Over.Reset → (breaks_of self.new).resetting ≡ true }
        ensures failed { result ≡ Filled.Over Over.Failed → (breaks_of self.new).reading ≡ true }
    {
        if let Some(why) = self.over() {
            self.said = Some(why);
            return Filled::Over(why);
        }
        let most = limit(next(self.reads));
        let count = most.min(self.input.len()).min(buf.len());
        let (given, unread) = self.input.split_at(count);
        buf[..count].copy_from_slice(given);
        self.input = unread;
        self.reads = later(self.reads);
        if count == 0 {
            return Filled::NothingNow;
        }
        Filled::Bytes(count)
    }

    fn drain(&mut self, bytes: &[u8]) -> Drained
        ensures exact { DrainsAt (next_step self.old.writes) self.old bytes.now result self.new }
        ensures bytes { DrainAppends (Some self.old.written) (Some self.new.written) result
            bytes.now }
        ensures failed { result ≡ Drained.Failed → FailsAt (next_step self.new.writes) }
        ensures again { FailsAt (next_step self.old.writes)
            → (result ≡ Drained.Failed) × FailsAt (next_step self.new.writes) }
        ensures unread { self.new.unread ≡ self.old.unread }
        ensures over { over_of self.new ≡ over_of self.old }
        ensures said { self.new.said ≡ self.old.said }
        ensures breaks { breaks_of self.new ≡ breaks_of self.old }
        ensures writing { result ≡ Drained.Failed → (breaks_of self.new).writing ≡ true }
    {
        let Step::AtMost(most) = next(self.writes) else {
            return Drained::Failed;
        };
        let count = most.min(bytes.len()).min(self.room);
        let Ok(()) = self.output.extend_from_slice(&bytes[..count]) else {
            unreachable!()
        };
        self.room -= count;
        self.writes = later(self.writes);
        if count == 0 {
            return Drained::NothingNow;
        }
        Drained::Took(count)
    }

    fn may_leave(&self) -> bool {
        self.cut
    }

    fn may_be_cut(&self, limit: Limit) -> bool {
        Limits::all_or_none(self.cut).has(limit)
    }

    fn callers(&self) -> Callers {
        self.callers
    }

    fn close(self, book: &mut Replies) {
        book.keep(self.output);
    }
}

/// Returns the next of these steps, or one without a limit after the last.
fn next(steps: &[Step]) -> Step
    ensures { result ≡ next_step steps.now }
{
    match steps.first() {
        Some(step) => *step,
        None => Step::AtMost(usize::MAX),
    }
}

/// Returns the steps after the next one.
fn later(steps: &[Step]) -> &[Step]
    ensures { result.now ≡ later_steps steps.now }
{
    match steps.split_first() {
        Some((_next, later)) => later,
        None => steps,
    }
}

/// Returns the number of bytes that a step lets through.
fn limit(step: Step) -> usize
    ensures { result ≡ limit_of step }
{
    match step {
        Step::AtMost(most) => most,
        Step::Reset | Step::Fail => 0,
    }
}
