//! A client, from its first request to what it shows.
ghost use Rattle.std.specs.Prelude.{◌≡◌, ⊤, ℕ, pos, List, Result, Some, IfOk};
ghost use Rattle.sysv_clients.specs.Asks.{text_of};
ghost use Rattle.sysv_clients.specs.Blame.{Blames, RunsBlaming, streams_of};
ghost use Rattle.sysv_clients.specs.Parse.{Makes, ShowsParse};
ghost use Rattle.sysv_clients.specs.Faults.{fault_line};
ghost use Rattle.sysv_clients.specs.Page.{task_head};
ghost use Rattle.sysv_clients.specs.Run.{HasShortText, Runs, Shows, ConversesThrough};
ghost use Rattle.sysv_clients.specs.Dialogue.{Exchange, id_after, on_way_most, slots_after};
ghost use Rattle.sysv_clients.specs.declared.command.TheConstants.{ROW_WINDOW};
ghost use Rattle.sysv_model.specs.Instrumented.{failures_of, stream_name, stream_of};

use crate::command::{Command, Format, MAX_ROWS, Task};
use crate::exchange::{exchange, hear};
use crate::fault::ClientFault;
use crate::page::Page;
use crate::rows::request_ahead;
use crate::screen::show;
use crate::style::Style;
use std::alloc::Global;
use std::io::{Read, Write};
use sysv_model::{Body, Instrumented, NoMemory};
use sysv_wire::{Ask, ReplyContent, WriteFault, one_answer_to_replies, one_reply};

/// Runs a command against a server, and shows the result on `screen`. Returns the exit status: 0 if
/// everything was done and shown, otherwise 1.
///
/// The client writes a hello and the requests of the task, all of version 2. Each request is
/// flushed before its reply is read. The first request that the server refuses, that cannot be
/// written or that has no reply ends the dialogue. A reply of another operation or of another
/// version counts as no reply. Earlier requests stay done. An `ipcs` requests a row for each slot
/// that the reply to the hello states, but at most `MAX_ROWS` rows. It writes the requests for the
/// next 256 rows, flushes them together, and reads the replies before it writes more.
///
/// Then the screen is written and flushed: the table of an `ipcs`, the body and an LF of a `rcv`,
/// and nothing for the other commands. After a fault only the line of the fault is written. If the
/// screen fails, it has taken a prefix of that.
///
/// Memory for two bodies, and for a message or the head of a table, is allocated first; if it is
/// refused, nothing is written to the server or read. An `ipcs` allocates more for each row; if
/// that is refused, the dialogue ends after the reply with that row.
///
/// # Conditions
///
/// - The body of a `snd` has at most 8,256 bytes.
pub fn run_client<R: Read, W: Write, S: Write>(
    alloc: Global,
    command: &Command<'_>,
    reader: &mut R,
    writer: &mut W,
    screen: &mut S,
) -> i32
    requires { HasShortText command.now.task }
    ensures runs { Runs command.now result (R.remaining reader.old) (R.remaining reader.new)
        (W.contents writer.old) (W.contents writer.new)
        (S.contents screen.old) (S.contents screen.new) }
    // It shows what its input makes of the command, unless a stream fails or memory is refused.
    ensures only { (input : List ℕ) (exchanges : List Exchange) (ended : Result ⊤ ClientFault) →
        R.remaining reader.old ≡ Some input
        → Makes command.now input exchanges ended →
        ShowsParse command.now exchanges ended result (S.contents screen.old)
        (S.contents screen.new) }
{
    run_client_instrumented(
        alloc,
        command,
        &mut Instrumented::new(reader),
        &mut Instrumented::new(writer),
        screen,
    )
}

/// Runs a command like `run_client`, and records why there is no reply, if there is none: the
/// writer failed, the reader failed, or what was read is no reply to the last request. In no other
/// case did a stream fail, and at most one of the two failed.
///
/// # Conditions
///
/// - The body of a `snd` has at most 8,256 bytes.
pub fn run_client_instrumented<R: Read, W: Write, S: Write>(
    alloc: Global,
    command: &Command<'_>,
    reader: &mut Instrumented<'_, R>,
    writer: &mut Instrumented<'_, W>,
    screen: &mut S,
) -> i32
    requires { HasShortText command.now.task }
    ensures runs { RunsBlaming command.now result
        (streams_of R.remaining W.contents S.contents reader.old writer.old screen.old)
        (streams_of R.remaining W.contents S.contents reader.new writer.new screen.new) }
    // It shows what its input makes of the command, unless a stream fails or memory is refused.
    ensures only { (input : List ℕ) (exchanges : List Exchange) (ended : Result ⊤ ClientFault) →
        R.remaining (stream_of reader.old) ≡ Some input
        → Makes command.now input exchanges ended →
        ShowsParse command.now exchanges ended result (S.contents screen.old)
        (S.contents screen.new) }
    // The streams stay the same.
    ensures same_reader { stream_name reader.new ≡ stream_name reader.old }
    ensures same_writer { stream_name writer.new ≡ stream_name writer.old }
{
    one_answer_to_replies();
    one_reply();
    dialogue_and_show(alloc, command, reader, writer, screen)
}

/// Runs a command like `run_client_instrumented`. The contract states only what was read, written
/// and shown.
fn dialogue_and_show<R: Read, W: Write, S: Write>(
    alloc: Global,
    command: &Command<'_>,
    reader: &mut Instrumented<'_, R>,
    writer: &mut Instrumented<'_, W>,
    screen: &mut S,
) -> i32
    requires { HasShortText command.now.task }
    ensures runs { RunsBlaming command.now result
        (streams_of R.remaining W.contents S.contents reader.old writer.old screen.old)
        (streams_of R.remaining W.contents S.contents reader.new writer.new screen.new) }
    ensures same_reader { stream_name reader.new ≡ stream_name reader.old }
    ensures same_writer { stream_name writer.new ≡ stream_name writer.old }
{
    match Client::open(alloc, &command.task) {
        Ok(mut client) => match client.dialogue(command, reader, writer) {
            Ok(()) => show(screen, client.page.bytes(), 0),
            Err(fault) => show_fault(screen, fault),
        },
        Err(NoMemory) => show_fault(screen, ClientFault::NoMemory),
    }
}

/// Shows the line of a fault. Returns 1.
pub(crate) fn show_fault<S: Write>(screen: &mut S, fault: ClientFault) -> i32
    ensures { Shows result (pos 1) (fault_line fault) (S.contents screen.old)
        (S.contents screen.new) }
{
    show(screen, fault.line().as_bytes(), 1)
}

/// Returns the identifier that the last `msgget` returned, after one more result.
pub(crate) fn found(id: i32, answer: &ReplyContent) -> i32
    ensures { result ≡ id_after id answer.now }
{
    match answer {
        ReplyContent::Get { id: found } => *found,
        _ => id,
    }
}

/// Returns the number of slots that the reply to the hello states, after one more result.
pub(crate) fn told_slots(slots: u32, answer: &ReplyContent) -> u32
    ensures { result ≡ slots_after slots answer.now }
{
    match answer {
        ReplyContent::HelloSlots { slots: told } => *told,
        _ => slots,
    }
}

/// A client that talks with a server.
#[derive(Drop)]
struct Client {
    /// The body that it sends.
    text: Body,
    /// The body that it received last.
    given: Body,
    /// What it will show.
    page: Page,
}

impl Client {
    /// Creates a client that has made no request. Fails with `NoMemory` if allocation fails.
    fn open(alloc: Global, task: &Task<'_>) -> Result<Client, NoMemory>
        requires { HasShortText task.now }
        ensures { IfOk result (λ client. (client.text ≡ text_of task.now)
            × (client.page ≡ task_head task.now)) }
    {
        let mut text = Body::open(alloc)?;
        let given = Body::open(alloc)?;
        let mut page = Page::open(alloc)?;
        match *task {
            Task::List(Format::Table) => page.head(),
            Task::Send { text: sent, .. } => {
                text.push_piece(sent);
            }
            _ => {}
        }
        Ok(Client { text, given, page })
    }

    /// Makes all requests of the command, and collects what is to be shown.
    fn dialogue<R: Read, W: Write>(
        &mut self,
        command: &Command<'_>,
        reader: &mut Instrumented<'_, R>,
        writer: &mut Instrumented<'_, W>,
    ) -> Result<(), ClientFault>
        requires text { self.old.text ≡ text_of command.now.task }
        requires page { self.old.page ≡ task_head command.now.task }
        ensures converses { ConversesThrough command.now result self.new.page
            (R.remaining (stream_of reader.old)) (R.remaining (stream_of reader.new))
            (W.contents (stream_of writer.old)) (W.contents (stream_of writer.new)) }
        ensures same_reader { stream_name reader.new ≡ stream_name reader.old }
        ensures same_writer { stream_name writer.new ≡ stream_name writer.old }
        ensures failed { Blames command.now result (failures_of reader.old)
            (failures_of reader.new) (failures_of writer.old) (failures_of writer.new)
            (R.remaining (stream_of reader.old)) (R.remaining (stream_of reader.new)) }
    {
        match command.task {
            Task::List(_) => self.list(command, reader, writer),
            _ => self.call(command, reader, writer),
        }
    }

    /// Makes all requests of the command one by one, and collects what is to be shown.
    fn call<R: Read, W: Write>(
        &mut self,
        command: &Command<'_>,
        reader: &mut Instrumented<'_, R>,
        writer: &mut Instrumented<'_, W>,
    ) -> Result<(), ClientFault>
        requires text { self.old.text ≡ text_of command.now.task }
        requires page { self.old.page ≡ task_head command.now.task }
        ensures converses { ConversesThrough command.now result self.new.page
            (R.remaining (stream_of reader.old)) (R.remaining (stream_of reader.new))
            (W.contents (stream_of writer.old)) (W.contents (stream_of writer.new)) }
        ensures same_reader { stream_name reader.new ≡ stream_name reader.old }
        ensures same_writer { stream_name writer.new ≡ stream_name writer.old }
        ensures failed { Blames command.now result (failures_of reader.old)
            (failures_of reader.new) (failures_of writer.old) (failures_of writer.new)
            (R.remaining (stream_of reader.old)) (R.remaining (stream_of reader.new)) }
    {
        let style = Style::of(&command.task);
        let mut place = 0;
        let mut slots = 0;
        let mut id = 0;
        while let Some(ask) = command.ask(place, slots, id) {
            let answer = exchange(reader, writer, ask, &self.text, &mut self.given)?;
            self.page.tell(&style, &answer, &mut self.given)?;
            slots = told_slots(slots, &answer);
            id = found(id, &answer);
            place += 1;
        }
        Ok(())
    }

    /// Makes all requests of an `ipcs`, those for rows in a window, and collects what is to be
    /// shown.
    fn list<R: Read, W: Write>(
        &mut self,
        command: &Command<'_>,
        reader: &mut Instrumented<'_, R>,
        writer: &mut Instrumented<'_, W>,
    ) -> Result<(), ClientFault>
        requires list { on_way_most command.now.task ≡ ROW_WINDOW }
        requires text { self.old.text ≡ text_of command.now.task }
        requires page { self.old.page ≡ task_head command.now.task }
        ensures converses { ConversesThrough command.now result self.new.page
            (R.remaining (stream_of reader.old)) (R.remaining (stream_of reader.new))
            (W.contents (stream_of writer.old)) (W.contents (stream_of writer.new)) }
        ensures same_reader { stream_name reader.new ≡ stream_name reader.old }
        ensures same_writer { stream_name writer.new ≡ stream_name writer.old }
        ensures failed { Blames command.now result (failures_of reader.old)
            (failures_of reader.new) (failures_of writer.old) (failures_of writer.new)
            (R.remaining (stream_of reader.old)) (R.remaining (stream_of reader.new)) }
    {
        let style = Style::of(&command.task);
        let hello = Ask::Hello(command.cred);
        let welcome = exchange(reader, writer, hello, &self.text, &mut self.given)?;
        let slots = told_slots(0, &welcome);
        let rows = slots.min(MAX_ROWS);
        let mut sent = 0;
        for slot in 0..rows {
            sent = match request_ahead(writer, &self.text, slot, sent, rows) {
                Ok(sent) => sent,
                Err(WriteFault) => return Err(ClientFault::NoReply),
            };
            let answer = hear(reader, Ask::Row { slot }, &mut self.given)?;
            self.page.tell(&style, &answer, &mut self.given)?;
        }
        Ok(())
    }
}
