//! A `save`: a session that writes queues, and takes each message only after its line was written.

ghost use Rattle.std.specs.Prelude.{◌≡◌, ◌≢◌, ◌<◌, ◌≤◌, ℤ, [], length, true, IfOk, IfSome, OnOk, OnErr, is_err};
ghost use Rattle.std.specs.Io.KnownBytes.{Appends};
ghost use Rattle.sysv_clients.specs.Holding.{is_of_output};
ghost use Rattle.sysv_clients.specs.Journal.{KeepsJournal, journal_stream};
ghost use Rattle.sysv_clients.specs.Saved.{format_line};
ghost use Rattle.sysv_clients.specs.Clearing.{id_of_row};
ghost use Rattle.sysv_clients.specs.Saving.{SavesAll, SyncsAll, SyncsText, Tries, after_find, after_hold, after_row, after_stat, begun, first_ask, key_ask, moved, saving_ask, stage_at, text_of_call};
ghost use Rattle.sysv_clients.specs.declared.command.TheConstants.{MAX_ROWS};
ghost use Rattle.sysv_clients.specs.declared.saving.Step.TheVariants as steps;
ghost use Rattle.sysv_wire.specs.declared.reply.ReplyContent.TheVariants as contents;
ghost use Rattle.sysv_model.specs.Instrumented.{stream_name, stream_of};
ghost use Rattle.sysv_model.specs.Writing.{AppendsPrefix};
ghost use Rattle.sysv_model.specs.declared.limits.TheConstants.{MESSAGE_BYTES};

use crate::clearing::{Refusal, id_of_row, report};
use crate::client::told_slots;
use crate::command::{receive_flags, row};
use crate::exchange::exchange_in;
use crate::fault::ClientFault;
use crate::holding::{HELD, Unheld};
use crate::journal::{Durable, Journal};
use crate::page::Page;
use crate::queue_line::Line;
use crate::stream::Unshown;
use bitflags::Flags as _;
use std::alloc::Global;
use std::io::{Read, Write};
use sysv_model::{Body, Cred, Errno, Flags, Instrumented, MESSAGE_BYTES, NoMemory, WriteFault};
use sysv_wire::{Ask, ReplyContent};

/// The line that states the format of a file of queues.
const FORMAT: &[u8] = b"{\"format\":\"sysvmsg-queues\",\"version\":1}\n";

/// Which queues and messages a `save` takes, and how.
#[derive(Clone, Copy, PartialEq, Eq, Debug)]
pub struct Saving {
    /// The credentials that the client states in its hello.
    pub cred: Cred,
    /// The key of the only queue, or `None` for all queues.
    pub key: Option<i32>,
    /// The type of the messages, as a receive states it: 0 for all types.
    pub mtype: i64,
    /// Whether the messages are those of all types but `mtype`.
    pub except: bool,
    /// Whether each line is synced.
    pub syncs: bool,
}

impl Saving {
    /// Returns where the save is after the reply to the hello.
    fn begun(&self, answer: &ReplyContent) -> Stage
        ensures { result ≡ begun self.now answer.now }
    {
        match self.key {
            Some(key) => Stage::begun(0, Step::Find(key)),
            None => Stage::begun(told_slots(0, answer), Step::Row),
        }
    }

    /// Returns the next request, or `None` after the last.
    fn ask(&self, stage: &Stage) -> Option<Ask>
        ensures ask { result ≡ saving_ask self.now stage.now }
        ensures few { IfSome result (λ _. stage.now.step ≡ steps.Row → stage.now.slot < MAX_ROWS) }
    {
        match stage.step {
            Step::Find(key) => Some(find(key)),
            Step::Row => row(stage.slot, stage.slots),
            Step::Stat(id) => Some(Ask::Stat { id }),
            Step::Hold(_) if stage.owed == 0 => None,
            Step::Hold(id) => Some(self.first(id)),
            Step::Done(_) => Some(Ask::Done),
        }
    }

    /// Returns the request that holds the first of the messages of a queue, if it has one.
    fn first(&self, id: i32) -> Ask
        ensures { result ≡ first_ask self.now id }
    {
        Ask::Hold {
            id,
            size: MESSAGE_BYTES as u32,
            mtype: self.mtype,
            flags: receive_flags(true, false, self.except),
            seconds: 0,
        }
    }
}

/// Returns the request that finds the queue of a key.
fn find(key: i32) -> Ask
    ensures { result ≡ key_ask key }
{
    Ask::Get {
        key,
        flags: Flags::empty(),
    }
}

/// What a save requests next.
#[derive(Clone, Copy, PartialEq, Eq, Debug)]
pub(crate) enum Step {
    /// The identifier of the queue of this key.
    Find(i32),
    /// The row of the next slot.
    Row,
    /// The attributes of the queue with this identifier.
    Stat(i32),
    /// The first message of the queue with this identifier.
    Hold(i32),
    /// That the message of the queue with this identifier is done.
    Done(i32),
}

/// Where a save is.
#[derive(Clone, Copy)]
struct Stage {
    /// The number of slots whose rows are requested.
    slots: u32,
    /// The slot whose row is requested next.
    slot: u32,
    /// What is requested next.
    step: Step,
    /// The number of holds that may follow.
    owed: u64,
}

impl Stage {
    /// Returns the stage before the first row of this number of slots, at this step.
    fn begun(slots: u32, step: Step) -> Stage
        ensures { result ≡ stage_at slots step }
    {
        Stage {
            slots,
            slot: 0,
            step,
            owed: u64::MAX,
        }
    }

    /// Returns the stage after one more reply.
    fn moved(self, answer: &ReplyContent) -> Stage
        requires { self.step ≡ steps.Row → self.slot < MAX_ROWS }
        ensures { result ≡ moved self answer.now }
    {
        match self.step {
            Step::Find(_) => Stage {
                step: after_find(answer),
                ..self
            },
            Step::Row => Stage {
                slot: self.slot + 1,
                step: after_row(answer),
                ..self
            },
            Step::Stat(id) => Stage {
                step: after_stat(id, answer),
                ..self
            },
            Step::Hold(id) => Stage {
                step: after_hold(id, answer),
                owed: self.owed.saturating_sub(1),
                ..self
            },
            Step::Done(id) => Stage {
                step: Step::Hold(id),
                ..self
            },
        }
    }
}

/// Returns what is requested after the search for a queue: its attributes, if it was found.
fn after_find(answer: &ReplyContent) -> Step
    ensures { result ≡ after_find answer.now }
{
    match answer {
        ReplyContent::Get { id } => Step::Stat(*id),
        _ => Step::Row,
    }
}

/// Returns what is requested after a row: the attributes of its queue, if it has one.
fn after_row(answer: &ReplyContent) -> Step
    ensures { result ≡ after_row (id_of_row answer.now) }
{
    match id_of_row(answer) {
        Some(id) => Step::Stat(id),
        None => Step::Row,
    }
}

/// Returns what is requested after the attributes of a queue: its messages, if they are the reply.
fn after_stat(id: i32, answer: &ReplyContent) -> Step
    ensures { result ≡ after_stat id answer.now }
{
    match answer {
        ReplyContent::Stat(_) => Step::Hold(id),
        _ => Step::Row,
    }
}

/// Returns what is requested after a hold: its done, if it holds a message.
fn after_hold(id: i32, answer: &ReplyContent) -> Step
    ensures { result ≡ after_hold id answer.now }
{
    match answer {
        ReplyContent::Hold { .. } => Step::Done(id),
        _ => Step::Row,
    }
}

/// Returns the answer of a request with this outcome. A request of a queue that was refused has one
/// too. The refusal is appended to `refusals`, unless the queue has no message or is gone.
fn tried(
    ask: Ask,
    outcome: Result<ReplyContent, ClientFault>,
    refusals: &mut Vec<Refusal>,
) -> Result<ReplyContent, Unheld>
    ensures { Tries ask outcome result refusals.old.items refusals.new.items }
{
    match (ask, outcome) {
        (Ask::Hold { .. }, Err(ClientFault::Refused(Errno::ENOMSG))) => {
            Ok(ReplyContent::Refused(Errno::ENOMSG))
        }
        (Ask::Stat { id } | Ask::Hold { id, .. }, Err(ClientFault::Refused(error))) => {
            match report(refusals, id, error) {
                Ok(()) => Ok(ReplyContent::Refused(error)),
                Err(NoMemory) => Err(Unheld::Fault(ClientFault::NoMemory)),
            }
        }
        (Ask::Done, Err(why)) => Err(Unheld::Undone(why)),
        (_, Err(why)) => Err(Unheld::Fault(why)),
        (_, Ok(answer)) => Ok(answer),
    }
}

/// Writes queues that the caller can read to `screen`, over one session, and takes their messages.
/// The first line states the format; then each queue has a line, and after it one for each message,
/// as `rcv --json` prints it, in the order in which they were received. The queues whose attributes
/// or messages the server refuses are appended to `refusals`, unless they are gone, and the next
/// queues follow.
///
/// The client writes a hello. With a key it writes a get of that key, and otherwise a request for
/// the row of each slot that the reply to the hello states, but of at most `MAX_ROWS`. After the
/// get, and after each row with a queue, it writes a stat of that queue, and then holds of its
/// messages, each followed by a done, until a hold is refused: with ENOMSG, if the queue has no
/// further one. All are of version 3. It flushes each request and reads its reply before it writes
/// the next one. A message is done only after its line was written, flushed and, with `syncs`,
/// synced; the server sends any other one to its queue again.
///
/// # Errors
///
/// The messages before were written and done, and are synced with `syncs`.
///
/// - `Fault`: another request than these is refused, or a request but a done cannot be written or
///   has no reply; a get is refused if no queue has the key. A server that lets its clients hold no
///   messages ends the session at the hello. Or memory was refused: before anything was written or
///   read, or for a refusal.
/// - `Screen`: the screen failed at a line, of which it has taken a prefix. Nothing was requested
///   or read after that. A message that was held goes back to its queue.
/// - `Undone`: a done is refused, cannot be written or has no reply. Its message was written whole,
///   and may come back.
pub fn save_all<R: Read, W: Write, S: Durable>(
    alloc: Global,
    saving: &Saving,
    reader: &mut R,
    writer: &mut W,
    screen: &mut S,
    refusals: &mut Vec<Refusal>,
) -> Result<(), Unheld>
    ensures saves { SavesAll saving.now result (R.remaining reader.old) (R.remaining reader.new)
        (W.contents writer.old) (W.contents writer.new)
        (S.contents screen.old) (S.contents screen.new)
        refusals.old.items refusals.new.items }
    ensures synced { SyncsAll saving.now result (S.contents screen.old) (S.contents screen.new)
        (S.synced screen.new) }
{
    save_instrumented(
        alloc,
        saving,
        reader,
        &mut Instrumented::new(writer),
        &mut Journal::new(screen),
        refusals,
    )
}

/// Writes queues like `save_all`. The result is `Screen` exactly if the screen failed, and it
/// failed at most once.
///
/// # Errors
///
/// Those of `save_all`.
pub fn save_instrumented<R: Read, W: Write, S: Durable>(
    alloc: Global,
    saving: &Saving,
    reader: &mut R,
    writer: &mut Instrumented<'_, W>,
    screen: &mut Journal<'_, S>,
    refusals: &mut Vec<Refusal>,
) -> Result<(), Unheld>
    ensures saves { SavesAll saving.now result (R.remaining reader.old) (R.remaining reader.new)
        (W.contents (stream_of writer.old)) (W.contents (stream_of writer.new))
        (S.contents (journal_stream screen.old)) (S.contents (journal_stream screen.new))
        refusals.old.items refusals.new.items }
    ensures synced { SyncsAll saving.now result (S.contents (journal_stream screen.old))
        (S.contents (journal_stream screen.new)) (S.synced (journal_stream screen.new)) }
    ensures screen { KeepsJournal screen.old screen.new (is_of_output result) }
    // The writer stays the same.
    ensures same_writer { stream_name writer.new ≡ stream_name writer.old }
{
    match Saver::open(alloc) {
        Ok(mut saver) => saver.save_each(saving, reader, writer, screen, refusals),
        Err(NoMemory) => Err(Unheld::Fault(ClientFault::NoMemory)),
    }
}

/// A client that writes queues and takes their messages.
#[derive(Drop)]
struct Saver {
    /// The body that it sends, which is empty.
    text: Body,
    /// The body that it received last.
    given: Body,
    /// The line that it writes.
    page: Page,
    /// The number of messages that it received.
    taken: u64,
    /// The number of those that it has written.
    shown: u64,
}

impl Saver {
    /// Creates a client that has made no request. Fails with `NoMemory` if allocation fails.
    fn open(alloc: Global) -> Result<Saver, NoMemory>
        ensures { IfOk result (λ saver. (saver.text ≡ []) × (saver.page ≡ [])) }
    {
        Ok(Saver {
            text: Body::open(alloc)?,
            given: Body::open(alloc)?,
            page: Page::open(alloc)?,
            taken: 0,
            shown: 0,
        })
    }

    /// Makes all requests, and writes what they are answered.
    fn save_each<R: Read, W: Write, S: Durable>(
        &mut self,
        saving: &Saving,
        reader: &mut R,
        writer: &mut Instrumented<'_, W>,
        screen: &mut Journal<'_, S>,
        refusals: &mut Vec<Refusal>,
    ) -> Result<(), Unheld>
        requires text { self.old.text ≡ [] }
        requires page { self.old.page ≡ [] }
        ensures saves { SavesAll saving.now result
            (R.remaining reader.old) (R.remaining reader.new)
            (W.contents (stream_of writer.old)) (W.contents (stream_of writer.new))
            (S.contents (journal_stream screen.old)) (S.contents (journal_stream screen.new))
            refusals.old.items refusals.new.items }
        ensures synced { SyncsAll saving.now result (S.contents (journal_stream screen.old))
            (S.contents (journal_stream screen.new)) (S.synced (journal_stream screen.new)) }
        ensures screen { KeepsJournal screen.old screen.new (is_of_output result) }
        ensures same_writer { stream_name writer.new ≡ stream_name writer.old }
    {
        let hello = Ask::Hello(saving.cred);
        let welcome = exchange_in(HELD, reader, writer, hello, &self.text, &mut self.given)?;
        self.show(hello, &welcome, saving.syncs, screen)?;
        let mut stage = saving.begun(&welcome);
        while let Some(ask) = saving.ask(&stage) {
            let outcome = exchange_in(HELD, reader, writer, ask, &self.text, &mut self.given);
            let answer = tried(ask, outcome, refusals)?;
            self.show(ask, &answer, saving.syncs, screen)?;
            stage = stage.moved(&answer);
        }
        Ok(())
    }

    /// Writes, flushes and, with `syncs`, syncs the line of a request with this result, if it has
    /// one.
    fn show<S: Durable>(
        &mut self,
        ask: Ask,
        answer: &ReplyContent,
        syncs: bool,
        screen: &mut Journal<'_, S>,
    ) -> Result<(), Unshown>
        requires page { self.old.page ≡ [] }
        requires given { (mtype : ℤ) → answer.now ≡ contents.Hold mtype
            → length self.old.given ≤ MESSAGE_BYTES }
        ensures text { self.new.text ≡ self.old.text }
        ensures page { OnOk result (self.new.page ≡ []) }
        ensures ok { OnOk result (Appends (S.contents (journal_stream screen.old))
            (S.contents (journal_stream screen.new))
            (text_of_call ask answer.now self.old.given)) }
        ensures synced { OnOk result (SyncsText syncs (text_of_call ask answer.now self.old.given)
            (S.synced (journal_stream screen.old)) (S.synced (journal_stream screen.new))
            (S.contents (journal_stream screen.old)) (S.contents (journal_stream screen.new))) }
        ensures err { OnErr result (AppendsPrefix (S.contents (journal_stream screen.old))
            (S.contents (journal_stream screen.new))
            (text_of_call ask answer.now self.old.given)) }
        // Only a line can fail.
        ensures line { OnErr result (text_of_call ask answer.now self.old.given ≢ []) }
        ensures kept { KeepsJournal screen.old screen.new (is_err result) }
    {
        self.tell(ask, answer);
        if self.page.is_empty() {
            return Ok(());
        }
        self.show_page(syncs, screen)
    }

    /// Appends the line of a request with this result to the empty page, if it has one.
    #[tactic(auto, unfolding(crate::specs::Saved::format_line))]
    fn tell(&mut self, ask: Ask, answer: &ReplyContent)
        requires page { self.old.page ≡ [] }
        requires given { (mtype : ℤ) → answer.now ≡ contents.Hold mtype
            → length self.old.given ≤ MESSAGE_BYTES }
        ensures text { self.new.text ≡ self.old.text }
        ensures page { self.new.page ≡ text_of_call ask answer.now self.old.given }
    {
        match (ask, answer) {
            (Ask::Hello(_), _) => self.page.put(FORMAT),
            (Ask::Stat { id }, ReplyContent::Stat(stat)) => {
                let mut line = Line::new();
                line.saved(id, stat);
                self.page.put(line.bytes());
            }
            (Ask::Hold { .. }, ReplyContent::Hold { mtype }) => {
                self.taken = self.taken.saturating_add(1);
                self.page.message_object(*mtype, &self.given);
            }
            _ => {}
        }
    }

    /// Writes the page and flushes it, and syncs it if `syncs` says so.
    fn show_page<S: Durable>(
        &mut self,
        syncs: bool,
        screen: &mut Journal<'_, S>,
    ) -> Result<(), Unshown>
        ensures text { self.new.text ≡ self.old.text }
        ensures page { OnOk result (self.new.page ≡ []) }
        ensures ok { OnOk result (Appends (S.contents (journal_stream screen.old))
            (S.contents (journal_stream screen.new)) self.old.page) }
        ensures synced { OnOk result (syncs ≡ true → S.synced (journal_stream screen.new)
            ≡ S.contents (journal_stream screen.new)) }
        ensures err { OnErr result (AppendsPrefix (S.contents (journal_stream screen.old))
            (S.contents (journal_stream screen.new)) self.old.page) }
        ensures kept { KeepsJournal screen.old screen.new (is_err result) }
    {
        match screen.append(self.page.bytes(), syncs) {
            Ok(()) => {
                self.page.clear();
                self.shown = self.taken;
                Ok(())
            }
            Err(WriteFault) => Err(Unshown {
                taken: self.taken,
                shown: self.shown,
            }),
        }
    }
}
