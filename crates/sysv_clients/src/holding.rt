//! A `rcv` that holds each message until it was shown: a session that says that a message is done
//! only after that, so that a message that could not be shown goes back to its queue.

ghost use Rattle.std.specs.Prelude.{◌≡◌, ◌≤◌, List, ℕ, Option, [], is_err, length, IfOk, IfErr, OnOk, OnErr};
ghost use Rattle.std.specs.Io.KnownBytes.{Appends};
ghost use Rattle.sysv_clients.specs.Holding.{FindsToHold, HoldsAll, HoldsOne, held_text, is_of_output, unheld_line};
ghost use Rattle.sysv_clients.specs.Stream.{count_of};
ghost use Rattle.sysv_model.specs.Instrumented.{KeepsStream, stream_name, stream_of};
ghost use Rattle.sysv_model.specs.Writing.{AppendsPrefix};
ghost use Rattle.sysv_model.specs.declared.limits.TheConstants.{MESSAGE_BYTES};

use crate::client::found;
use crate::exchange::exchange_in;
use crate::fault::ClientFault;
use crate::page::Page;
use crate::screen::print_instrumented;
use crate::stream::{Receiving, Unshown};
use crate::style::Style;
use std::alloc::Global;
use std::io::{Read, Write};
use sysv_model::{Body, Instrumented, NoMemory, WriteFault};
use sysv_wire::{Ask, ReplyContent, Version};
use thiserror::Error;

/// The version of the frames in which messages can be held.
pub(crate) const HELD: Version = Version::Three;

/// Why a session of holds ends early.
#[derive(Clone, Copy, PartialEq, Eq, Debug, Error)]
pub enum Unheld {
    /// A request that holds no message ends it, or memory was refused.
    #[error("{0}")]
    Fault(ClientFault),
    /// The screen failed at a message. That message goes back to its queue.
    #[error("cannot write")]
    Screen(Unshown),
    /// The request that says that a message is done ends it. The message was shown, and may come
    /// back.
    #[error("{0}")]
    Undone(ClientFault),
}

impl From<ClientFault> for Unheld {
    ghost use Rattle.sysv_clients.specs.declared.holding.Unheld.TheVariants as unhelds;

    ghost from_gives = { λ fault given. given ≡ unhelds.Fault fault };

    fn from(fault: ClientFault) -> Unheld {
        Unheld::Fault(fault)
    }
}

impl From<Unshown> for Unheld {
    ghost use Rattle.sysv_clients.specs.declared.holding.Unheld.TheVariants as unhelds;

    ghost from_gives = { λ unshown given. given ≡ unhelds.Screen unshown };

    fn from(unshown: Unshown) -> Unheld {
        Unheld::Screen(unshown)
    }
}

impl Unheld {
    /// Returns the line that reports the fault to a user. It is empty if the screen failed.
    pub fn line(self) -> &'static str
        ensures { result.now ≡ unheld_line self }
    {
        match self {
            Unheld::Fault(fault) => fault.line(),
            Unheld::Screen(_) => "",
            Unheld::Undone(fault) => fault.line(),
        }
    }
}

/// Receives messages over one session, each by a hold, and shows each on `screen`. A message is
/// done only after it was written and flushed; the server sends any other one to its queue again.
///
/// The client writes a hello, the request that finds the queue, and for each message a hold and
/// then a done, all of version 3. It flushes each request and reads its reply before it writes the
/// next one, whatever `receiving.ahead` is. Only messages are written to the screen.
///
/// # Errors
///
/// The messages before were shown and done.
///
/// - `Fault`: the hello, the request that finds the queue or a hold is refused, cannot be written
///   or has no reply. A server that lets its clients hold no messages ends the session at the
///   hello. Or memory was refused; it is allocated first, so nothing was written to the server or
///   read.
/// - `Screen`: the screen failed at a message, of which it has taken a prefix. Nothing was
///   requested or read after its hold.
/// - `Undone`: a done is refused, cannot be written or has no reply. Its message was shown whole.
pub fn hold_all<R: Read, W: Write, S: Write>(
    alloc: Global,
    receiving: &Receiving,
    reader: &mut R,
    writer: &mut W,
    screen: &mut S,
) -> Result<(), Unheld>
    ensures { HoldsAll receiving.now result (R.remaining reader.old) (R.remaining reader.new)
        (W.contents writer.old) (W.contents writer.new)
        (S.contents screen.old) (S.contents screen.new) }
{
    hold_instrumented(
        alloc,
        receiving,
        reader,
        &mut Instrumented::new(writer),
        &mut Instrumented::new(screen),
    )
}

/// Receives messages like `hold_all`. The result is `Screen` exactly if the screen failed, and it
/// failed at most once.
///
/// # Errors
///
/// Those of `hold_all`.
pub fn hold_instrumented<R: Read, W: Write, S: Write>(
    alloc: Global,
    receiving: &Receiving,
    reader: &mut R,
    writer: &mut Instrumented<'_, W>,
    screen: &mut Instrumented<'_, S>,
) -> Result<(), Unheld>
    ensures holds { HoldsAll receiving.now result (R.remaining reader.old) (R.remaining reader.new)
        (W.contents (stream_of writer.old)) (W.contents (stream_of writer.new))
        (S.contents (stream_of screen.old)) (S.contents (stream_of screen.new)) }
    ensures screen { KeepsStream screen.old screen.new (is_of_output result) }
    // The writer stays the same.
    ensures same_writer { stream_name writer.new ≡ stream_name writer.old }
{
    match Holder::open(alloc) {
        Ok(mut holder) => holder.hold_each(receiving, reader, writer, screen),
        Err(NoMemory) => Err(Unheld::Fault(ClientFault::NoMemory)),
    }
}

/// A client that holds each message until it was shown.
#[derive(Drop)]
struct Holder {
    /// The body that it sends, which is empty.
    text: Body,
    /// The body that it received last.
    given: Body,
    /// The message that it shows.
    page: Page,
    /// The number of messages that it received.
    taken: u64,
    /// The number of messages that it has shown.
    shown: u64,
}

impl Holder {
    /// Creates a client that has made no request. Fails with `NoMemory` if allocation fails.
    fn open(alloc: Global) -> Result<Holder, NoMemory>
        ensures { IfOk result (λ holder. (holder.text ≡ []) × (holder.page ≡ [])) }
    {
        Ok(Holder {
            text: Body::open(alloc)?,
            given: Body::open(alloc)?,
            page: Page::open(alloc)?,
            taken: 0,
            shown: 0,
        })
    }

    /// Finds the queue; then holds, shows and finishes each message.
    fn hold_each<R: Read, W: Write, S: Write>(
        &mut self,
        receiving: &Receiving,
        reader: &mut R,
        writer: &mut Instrumented<'_, W>,
        screen: &mut Instrumented<'_, S>,
    ) -> Result<(), Unheld>
        requires text { self.old.text ≡ [] }
        requires page { self.old.page ≡ [] }
        ensures holds { HoldsAll receiving.now result
            (R.remaining reader.old) (R.remaining reader.new)
            (W.contents (stream_of writer.old)) (W.contents (stream_of writer.new))
            (S.contents (stream_of screen.old)) (S.contents (stream_of screen.new)) }
        ensures screen { KeepsStream screen.old screen.new (is_of_output result) }
        ensures same_writer { stream_name writer.new ≡ stream_name writer.old }
    {
        let style = Style::of_receipt(&receiving.receipt);
        let ask = self.find(receiving, reader, writer)?;
        let mut owed = receiving.messages();
        while owed > 0 {
            self.hold_one(&style, ask, reader, writer, screen)?;
            owed -= 1;
        }
        Ok(())
    }

    /// Makes the requests before the first hold. Returns the request of each hold.
    fn find<R: Read, W: Write>(
        &mut self,
        receiving: &Receiving,
        reader: &mut R,
        writer: &mut Instrumented<'_, W>,
    ) -> Result<Ask, ClientFault>
        requires { self.old.text ≡ [] }
        ensures finds { FindsToHold receiving.now result
            (R.remaining reader.old) (R.remaining reader.new)
            (W.contents (stream_of writer.old)) (W.contents (stream_of writer.new)) }
        ensures text { self.new.text ≡ self.old.text }
        ensures page { self.new.page ≡ self.old.page }
        ensures same_writer { stream_name writer.new ≡ stream_name writer.old }
    {
        let hello = Ask::Hello(receiving.cred);
        let welcome = exchange_in(HELD, reader, writer, hello, &self.text, &mut self.given)?;
        let find = receiving.receipt.find();
        let got = exchange_in(HELD, reader, writer, find, &self.text, &mut self.given)?;
        Ok(receiving.receipt.hold(found(found(0, &welcome), &got)))
    }

    /// Holds a message, shows it, and then says that it is done.
    fn hold_one<R: Read, W: Write, S: Write>(
        &mut self,
        style: &Style,
        ask: Ask,
        reader: &mut R,
        writer: &mut Instrumented<'_, W>,
        screen: &mut Instrumented<'_, S>,
    ) -> Result<(), Unheld>
        requires text { self.old.text ≡ [] }
        requires page { self.old.page ≡ [] }
        ensures holds { HoldsOne style.now ask result
            (R.remaining reader.old) (R.remaining reader.new)
            (W.contents (stream_of writer.old)) (W.contents (stream_of writer.new))
            (S.contents (stream_of screen.old)) (S.contents (stream_of screen.new)) }
        ensures text { self.new.text ≡ self.old.text }
        ensures page { OnOk result (self.new.page ≡ []) }
        ensures screen { KeepsStream screen.old screen.new (is_of_output result) }
        ensures same_writer { stream_name writer.new ≡ stream_name writer.old }
    {
        let answer = exchange_in(HELD, reader, writer, ask, &self.text, &mut self.given)?;
        self.show(style, &answer, screen)?;
        match exchange_in(HELD, reader, writer, Ask::Done, &self.text, &mut self.given) {
            Ok(_) => Ok(()),
            Err(why) => Err(Unheld::Undone(why)),
        }
    }

    /// Shows a message, if the result is one: writes it and flushes it.
    fn show<S: Write>(
        &mut self,
        style: &Style,
        answer: &ReplyContent,
        screen: &mut Instrumented<'_, S>,
    ) -> Result<(), Unshown>
        requires page { self.old.page ≡ [] }
        requires given { length self.old.given ≤ MESSAGE_BYTES }
        ensures text { self.new.text ≡ self.old.text }
        ensures page { OnOk result (self.new.page ≡ []) }
        ensures ok { OnOk result (Appends (S.contents (stream_of screen.old))
            (S.contents (stream_of screen.new))
            (held_text style.now answer.now self.old.given)) }
        ensures err { OnErr result (AppendsPrefix (S.contents (stream_of screen.old))
            (S.contents (stream_of screen.new))
            (held_text style.now answer.now self.old.given)) }
        ensures kept { KeepsStream screen.old screen.new (is_err result) }
    {
        match answer {
            ReplyContent::Hold { mtype } => {
                self.taken = self.taken.saturating_add(1);
                self.page.message(style, *mtype, &mut self.given);
                self.show_page(screen)
            }
            _ => Ok(()),
        }
    }

    /// Writes the page and flushes it.
    fn show_page<S: Write>(&mut self, screen: &mut Instrumented<'_, S>) -> Result<(), Unshown>
        ensures text { self.new.text ≡ self.old.text }
        ensures page { OnOk result (self.new.page ≡ []) }
        ensures ok { OnOk result (Appends (S.contents (stream_of screen.old))
            (S.contents (stream_of screen.new)) self.old.page) }
        ensures err { OnErr result (AppendsPrefix (S.contents (stream_of screen.old))
            (S.contents (stream_of screen.new)) self.old.page) }
        ensures kept { KeepsStream screen.old screen.new (is_err result) }
    {
        match print_instrumented(screen, self.page.bytes()) {
            Ok(()) => {
                self.page.clear();
                self.shown = self.shown.saturating_add(1);
                Ok(())
            }
            Err(WriteFault) => Err(Unshown {
                taken: self.taken,
                shown: self.shown,
            }),
        }
    }
}
