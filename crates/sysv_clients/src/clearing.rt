//! An `ipcrm` of all queues: a session that removes each queue that it finds.

ghost use Rattle.std.specs.Prelude.{◌≡◌, ◌++◌, ◌<◌, [], None, IfOk, IfSome, OnOk};
ghost use Rattle.sysv_clients.specs.Clearing.{ClearsAll, Tries, begun, clearing_ask, id_of_row, is_gone, moved, refusal_by};
ghost use Rattle.sysv_clients.specs.declared.command.TheConstants.{MAX_ROWS};
ghost use Rattle.sysv_model.specs.Instrumented.{stream_name, stream_of};

use crate::client::told_slots;
use crate::command::row;
use crate::exchange::exchange;
use crate::fault::ClientFault;
use std::alloc::Global;
use std::io::{Read, Write};
use sysv_model::{Body, Cred, Errno, Instrumented, NoMemory};
use sysv_wire::{Ask, ReplyContent};

/// A queue that the server refused to remove.
#[derive(Clone, Copy, PartialEq, Eq, Debug)]
pub struct Refusal {
    /// The identifier of the queue.
    pub id: i32,
    /// Why it was not removed.
    pub error: Errno,
}

/// Where an `ipcrm` of all queues is.
#[derive(Clone, Copy)]
struct Clearing {
    /// The number of slots.
    slots: u32,
    /// The slot whose row is requested next.
    slot: u32,
    /// The queue that was found in the slot before and is removed next.
    found: Option<i32>,
}

impl Clearing {
    /// Returns the clearing after the reply to the hello.
    fn begun(answer: &ReplyContent) -> Clearing
        ensures { result ≡ begun answer.now }
    {
        Clearing {
            slots: told_slots(0, answer),
            slot: 0,
            found: None,
        }
    }

    /// Returns the next request, or `None` after the last.
    fn ask(&self) -> Option<Ask>
        ensures ask { result ≡ clearing_ask self.now }
        ensures few { IfSome result (λ _. self.now.found ≡ None → self.now.slot < MAX_ROWS) }
    {
        match self.found {
            Some(id) => Some(Ask::Rm { id }),
            None => row(self.slot, self.slots),
        }
    }

    /// Returns the clearing after one more reply.
    fn moved(self, answer: &ReplyContent) -> Clearing
        requires { self.found ≡ None → self.slot < MAX_ROWS }
        ensures { result ≡ moved self answer.now }
    {
        match self.found {
            Some(_) => Clearing {
                found: None,
                ..self
            },
            None => Clearing {
                slot: self.slot + 1,
                found: id_of_row(answer),
                ..self
            },
        }
    }
}

/// Returns the identifier of the queue in a row, if there is one.
pub(crate) fn id_of_row(answer: &ReplyContent) -> Option<i32>
    ensures { result ≡ id_of_row answer.now }
{
    match answer {
        ReplyContent::Row(Some(row)) => Some(row.id),
        _ => None,
    }
}

/// Returns whether the error says that the queue is gone.
fn is_gone(error: Errno) -> bool
    ensures { result ≡ is_gone error }
{
    matches!(error, Errno::EINVAL | Errno::EIDRM)
}

/// Returns the answer of a request with this outcome. A removal that was refused has one too; the
/// refusal is appended to `refusals`, unless the queue is gone.
fn tried(
    ask: Ask,
    outcome: Result<ReplyContent, ClientFault>,
    refusals: &mut Vec<Refusal>,
) -> Result<ReplyContent, ClientFault>
    ensures { Tries ask outcome result refusals.old.items refusals.new.items }
{
    match (ask, outcome) {
        (Ask::Rm { id }, Err(ClientFault::Refused(error))) => {
            report(refusals, id, error)?;
            Ok(ReplyContent::Refused(error))
        }
        (_, outcome) => outcome,
    }
}

/// Appends a refusal, unless the queue is gone. Fails with `NoMemory` if allocation fails.
pub(crate) fn report(refusals: &mut Vec<Refusal>, id: i32, error: Errno) -> Result<(), NoMemory>
    ensures { OnOk result (refusals.new.items ≡ refusals.old.items ++ refusal_by id error) }
{
    if is_gone(error) {
        return Ok(());
    }
    match refusals.push(Refusal { id, error }) {
        Ok(()) => Ok(()),
        Err(_) => Err(NoMemory),
    }
}

/// Removes all queues that the caller may remove, over one session. The queues that the server
/// refuses to remove are appended to `refusals`, unless they are gone.
///
/// The client writes a hello, then a request for the row of each slot that the reply to the hello
/// states, but of at most `MAX_ROWS`, and after each row with a queue the removal of that queue,
/// all of version 2.
///
/// # Errors
///
/// The queues before stay removed.
///
/// - `Refused` if the server refuses another request than a removal.
/// - `NoReply` if a request cannot be written or has no reply.
/// - `NoMemory` if memory is refused: before anything was written or read, or for a refusal.
pub fn remove_all<R: Read, W: Write>(
    alloc: Global,
    cred: Cred,
    reader: &mut R,
    writer: &mut W,
    refusals: &mut Vec<Refusal>,
) -> Result<(), ClientFault>
    ensures { ClearsAll cred result (R.remaining reader.old) (R.remaining reader.new)
        (W.contents writer.old) (W.contents writer.new) refusals.old.items refusals.new.items }
{
    remove_instrumented(
        alloc,
        cred,
        &mut Instrumented::new(reader),
        &mut Instrumented::new(writer),
        refusals,
    )
}

/// Removes all queues like `remove_all`.
fn remove_instrumented<R: Read, W: Write>(
    alloc: Global,
    cred: Cred,
    reader: &mut Instrumented<'_, R>,
    writer: &mut Instrumented<'_, W>,
    refusals: &mut Vec<Refusal>,
) -> Result<(), ClientFault>
    ensures clears { ClearsAll cred result
        (R.remaining (stream_of reader.old)) (R.remaining (stream_of reader.new))
        (W.contents (stream_of writer.old)) (W.contents (stream_of writer.new))
        refusals.old.items refusals.new.items }
    ensures same_reader { stream_name reader.new ≡ stream_name reader.old }
    ensures same_writer { stream_name writer.new ≡ stream_name writer.old }
{
    match Remover::open(alloc) {
        Ok(mut remover) => remover.remove_each(cred, reader, writer, refusals),
        Err(NoMemory) => Err(ClientFault::NoMemory),
    }
}

/// A client that removes queues.
#[derive(Drop)]
struct Remover {
    /// The body that it sends, which is empty.
    text: Body,
    /// The body that it received last, which is not used.
    given: Body,
}

impl Remover {
    /// Creates a client that has made no request. Fails with `NoMemory` if allocation fails.
    fn open(alloc: Global) -> Result<Remover, NoMemory>
        ensures { IfOk result (λ remover. remover.text ≡ []) }
    {
        Ok(Remover {
            text: Body::open(alloc)?,
            given: Body::open(alloc)?,
        })
    }

    /// Makes all requests.
    fn remove_each<R: Read, W: Write>(
        &mut self,
        cred: Cred,
        reader: &mut Instrumented<'_, R>,
        writer: &mut Instrumented<'_, W>,
        refusals: &mut Vec<Refusal>,
    ) -> Result<(), ClientFault>
        requires { self.old.text ≡ [] }
        ensures clears { ClearsAll cred result
            (R.remaining (stream_of reader.old)) (R.remaining (stream_of reader.new))
            (W.contents (stream_of writer.old)) (W.contents (stream_of writer.new))
            refusals.old.items refusals.new.items }
        ensures same_reader { stream_name reader.new ≡ stream_name reader.old }
        ensures same_writer { stream_name writer.new ≡ stream_name writer.old }
    {
        let hello = Ask::Hello(cred);
        let welcome = exchange(reader, writer, hello, &self.text, &mut self.given)?;
        let mut clearing = Clearing::begun(&welcome);
        while let Some(ask) = clearing.ask() {
            let outcome = exchange(reader, writer, ask, &self.text, &mut self.given);
            let answer = tried(ask, outcome, refusals)?;
            clearing = clearing.moved(&answer);
        }
        Ok(())
    }
}
