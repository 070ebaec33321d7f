//! A `rcv` of several messages: a session that shows each message as it comes, and messages that
//! came together in one write.

ghost use Rattle.std.specs.Prelude.{◌≡◌, ◌+◌, ◌*◌, ◌<◌, ◌≤◌, ℕ, List, Option, [], ◌++◌, false, length, is_err, Err, IfOk, IfErr, OnOk, OnErr};
ghost use Rattle.std.specs.Io.KnownBytes.{Appends};
ghost use Rattle.sysv_clients.specs.declared.page.TheConstants.{PAGE_ROOM};
ghost use Rattle.sysv_clients.specs.declared.stream.Receiving.{Receiving as AReceiving};
ghost use Rattle.sysv_clients.specs.declared.stream.Stop.TheVariants.{Screen};
ghost use Rattle.sysv_clients.specs.Stream.{TakesAll, ahead_of, count_of, is_of_screen, received_text, repeated_encoding, stop_line};
ghost use Rattle.sysv_clients.specs.Style.{style_of_receipt};
ghost use Rattle.sysv_clients.specs.Taking.{Finds, RequestsMore, ShowsBut, ShowsPart, Stops, Takes, TakesBut, TakesOne, ended_by, first_fault, is_unshown};
ghost use Rattle.sysv_model.specs.Instrumented.{KeepsStream, stream_name, stream_of};
ghost use Rattle.sysv_model.specs.Writing.{AppendsPrefix};
ghost use Rattle.sysv_model.specs.declared.limits.TheConstants.{MESSAGE_BYTES};

use crate::client::found;
use crate::command::Receipt;
use crate::exchange::{exchange_plain, hear_plain, put};
use crate::fault::ClientFault;
use crate::page::Page;
use crate::read_ahead::ReadAhead;
use crate::screen::print_instrumented;
use crate::style::Style;
use std::alloc::Global;
use std::io::{Read, Write};
use sysv_model::{Body, Cred, Errno, Instrumented, NoMemory, WriteFault};
use sysv_wire::{Ask, ReplyContent};
use thiserror::Error;

/// The maximum number of messages that one session receives.
pub const MAX_MESSAGES: u64 = 1 << 62;

/// The maximum number of receives that are on their way: written, and without a reply.
pub const MAX_AHEAD: u32 = 256;

/// A `rcv` of several messages, with the credentials for it.
#[derive(Clone, Copy, PartialEq, Eq, Debug)]
pub struct Receiving {
    /// The credentials that the client states in its hello.
    pub cred: Cred,
    /// What each receive requests, and how its message is shown.
    pub receipt: Receipt,
    /// The number of messages to receive. No more than `MAX_MESSAGES` are received.
    pub count: u64,
    /// The maximum number of receives that are on their way, at most `MAX_AHEAD`. It is 1 if this
    /// is 0, or if a receive does not wait.
    pub ahead: u32,
}

impl Receiving {
    /// Returns the number of messages to receive.
    pub(crate) fn messages(&self) -> u64
        ensures { result ≡ count_of self.now }
    {
        self.count.min(MAX_MESSAGES)
    }

    /// Returns the maximum number of receives that are on their way.
    fn window(&self) -> u32
        ensures { result ≡ ahead_of self.now }
    {
        if self.receipt.nowait {
            1
        } else {
            self.ahead.min(MAX_AHEAD).max(1)
        }
    }
}

/// Why a session of several messages ends early.
#[derive(Clone, Copy, PartialEq, Eq, Debug, Error)]
pub enum Stop {
    /// A request ends it, or memory was refused.
    #[error("{0}")]
    Fault(ClientFault),
    /// The screen failed.
    #[error("cannot write")]
    Screen(Unshown),
}

/// The messages of a session whose screen failed.
#[derive(Clone, Copy, PartialEq, Eq, Debug)]
pub struct Unshown {
    /// The number of messages that were received.
    pub taken: u64,
    /// The number of messages that were written and flushed.
    pub shown: u64,
}

impl From<ClientFault> for Stop {
    ghost use Rattle.sysv_clients.specs.declared.stream.Stop.TheVariants as stops;

    ghost from_gives = { λ fault given. given ≡ stops.Fault fault };

    fn from(fault: ClientFault) -> Stop {
        Stop::Fault(fault)
    }
}

impl Stop {
    /// Returns the line that reports the fault to a user. It is empty if the screen failed.
    pub fn line(self) -> &'static str
        ensures { result.now ≡ stop_line self }
    {
        match self {
            Stop::Fault(fault) => fault.line(),
            Stop::Screen(_) => "",
        }
    }
}

impl From<Unshown> for Stop {
    ghost use Rattle.sysv_clients.specs.declared.stream.Stop.TheVariants as stops;

    ghost from_gives = { λ unshown given. given ≡ stops.Screen unshown };

    fn from(unshown: Unshown) -> Stop {
        Stop::Screen(unshown)
    }
}

/// Receives messages over one session, and shows each on `screen` as it comes.
///
/// The client writes a hello, the request that finds the queue, and a request for each message, all
/// of version 2. At most `receiving.ahead` receives are written and have no reply, and no more than
/// there are messages to receive. Requests are flushed before a reply is read. A message is written
/// and flushed at once, unless other receives are on their way and the reader has a whole frame
/// left: messages that came together are one write if they fit in one. Only messages are written to
/// the screen.
///
/// # Errors
///
/// - `Fault`: a request that the server refuses, that cannot be written or that has no reply ends
///   the session. Nothing more is requested then. The replies to the receives on their way are
///   read, unless one of them is missing, and their messages are shown. The fault is that of the
///   first receive without a message. Or memory was refused; it is allocated first, so nothing was
///   written to the server or read.
/// - `Screen`: the screen failed, and nothing more was requested or read. It has taken a prefix of
///   the messages so far.
pub fn receive_all<R: ReadAhead, W: Write, S: Write>(
    alloc: Global,
    receiving: &Receiving,
    reader: &mut R,
    writer: &mut W,
    screen: &mut S,
) -> Result<(), Stop>
    ensures { TakesAll receiving.now result (R.remaining reader.old) (R.remaining reader.new)
        (W.contents writer.old) (W.contents writer.new)
        (S.contents screen.old) (S.contents screen.new) }
{
    receive_instrumented(
        alloc,
        receiving,
        reader,
        &mut Instrumented::new(writer),
        &mut Instrumented::new(screen),
    )
}

/// Receives messages like `receive_all`. The result is `Screen` exactly if the screen failed, and
/// it failed at most once.
///
/// # Errors
///
/// Those of `receive_all`.
pub fn receive_instrumented<R: ReadAhead, W: Write, S: Write>(
    alloc: Global,
    receiving: &Receiving,
    reader: &mut R,
    writer: &mut Instrumented<'_, W>,
    screen: &mut Instrumented<'_, S>,
) -> Result<(), Stop>
    ensures takes { TakesAll receiving.now result
        (R.remaining reader.old) (R.remaining reader.new)
        (W.contents (stream_of writer.old)) (W.contents (stream_of writer.new))
        (S.contents (stream_of screen.old)) (S.contents (stream_of screen.new)) }
    ensures screen { KeepsStream screen.old screen.new (is_of_screen result) }
    // The writer stays the same.
    ensures same_writer { stream_name writer.new ≡ stream_name writer.old }
{
    match Taker::open(alloc) {
        Ok(mut taker) => taker.take_all(receiving, reader, writer, screen),
        Err(NoMemory) => Err(Stop::Fault(ClientFault::NoMemory)),
    }
}

/// The receives of a session.
#[derive(Clone, Copy)]
struct Taking {
    /// The request of each receive.
    ask: Ask,
    /// The number of messages that were not received yet.
    owed: u64,
    /// The number of receives that were written and have no reply yet.
    waiting: u32,
}

/// What was read as the reply to a receive.
#[derive(Clone, Copy)]
enum Took {
    /// A message.
    Message,
    /// It was refused.
    Refused(Errno),
    /// There is no reply.
    Lost,
    /// A message, and the screen failed.
    Unshown(Unshown),
}

/// A client that receives several messages.
#[derive(Drop)]
struct Taker {
    /// The body that it sends, which is empty.
    text: Body,
    /// The body that it received last.
    given: Body,
    /// The messages that it received and has not shown.
    page: Page,
    /// The number of messages that it received.
    taken: u64,
    /// The number of messages that it has shown.
    shown: u64,
    /// The number of messages on the page.
    held: u64,
}

impl Taker {
    /// Creates a client that has made no request. Fails with `NoMemory` if allocation fails.
    fn open(alloc: Global) -> Result<Taker, NoMemory>
        ensures { IfOk result (λ taker. (taker.text ≡ []) × (taker.page ≡ [])) }
    {
        Ok(Taker {
            text: Body::open(alloc)?,
            given: Body::open(alloc)?,
            page: Page::open(alloc)?,
            taken: 0,
            shown: 0,
            held: 0,
        })
    }

    /// Finds the queue, makes all receives, and shows each message.
    fn take_all<R: ReadAhead, W: Write, S: Write>(
        &mut self,
        receiving: &Receiving,
        reader: &mut R,
        writer: &mut Instrumented<'_, W>,
        screen: &mut Instrumented<'_, S>,
    ) -> Result<(), Stop>
        requires text { self.old.text ≡ [] }
        requires page { self.old.page ≡ [] }
        ensures takes { TakesAll receiving.now result
            (R.remaining reader.old) (R.remaining reader.new)
            (W.contents (stream_of writer.old)) (W.contents (stream_of writer.new))
            (S.contents (stream_of screen.old)) (S.contents (stream_of screen.new)) }
        ensures screen { KeepsStream screen.old screen.new (is_of_screen result) }
        ensures same_writer { stream_name writer.new ≡ stream_name writer.old }
    {
        let fault = self.take_each(receiving, reader, writer, screen)?;
        self.show_page(screen)?;
        match fault {
            None => Ok(()),
            Some(fault) => Err(Stop::Fault(fault)),
        }
    }

    /// Finds the queue, makes all receives, and collects or shows each message. Returns the fault
    /// that ends the session, if one does. Fails if the screen does.
    fn take_each<R: ReadAhead, W: Write, S: Write>(
        &mut self,
        receiving: &Receiving,
        reader: &mut R,
        writer: &mut Instrumented<'_, W>,
        screen: &mut Instrumented<'_, S>,
    ) -> Result<Option<ClientFault>, Unshown>
        requires text { self.old.text ≡ [] }
        requires page { self.old.page ≡ [] }
        ensures ok { IfOk result (λ fault. TakesBut self.new.page receiving.now (ended_by fault)
            (R.remaining reader.old) (R.remaining reader.new)
            (W.contents (stream_of writer.old)) (W.contents (stream_of writer.new))
            (S.contents (stream_of screen.old)) (S.contents (stream_of screen.new))) }
        ensures err { IfErr result (λ unshown. TakesAll receiving.now (Err (Screen unshown))
            (R.remaining reader.old) (R.remaining reader.new)
            (W.contents (stream_of writer.old)) (W.contents (stream_of writer.new))
            (S.contents (stream_of screen.old)) (S.contents (stream_of screen.new))) }
        ensures screen { KeepsStream screen.old screen.new (is_err result) }
        ensures same_writer { stream_name writer.new ≡ stream_name writer.old }
    {
        let style = Style::of_receipt(&receiving.receipt);
        let mut taking = match self.find(receiving, reader, writer) {
            Ok(taking) => taking,
            Err(why) => return Ok(Some(why)),
        };
        while taking.owed > 0 {
            match self.request(receiving, writer, &mut taking) {
                Ok(()) => {}
                Err(WriteFault) => {
                    let why = ClientFault::NoReply;
                    return self.finish(&style, reader, screen, &taking, why);
                }
            }
            match self.take(&style, taking.ask, taking.waiting - 1, reader, screen) {
                Took::Message => {
                    taking.owed -= 1;
                    taking.waiting -= 1;
                }
                Took::Refused(error) => {
                    taking.waiting -= 1;
                    let why = ClientFault::Refused(error);
                    return self.finish(&style, reader, screen, &taking, why);
                }
                Took::Lost => return Ok(Some(ClientFault::NoReply)),
                Took::Unshown(unshown) => return Err(unshown),
            }
        }
        Ok(None)
    }

    /// Makes the requests before the first receive. Returns the receives of the session.
    fn find<R: Read, W: Write>(
        &mut self,
        receiving: &Receiving,
        reader: &mut R,
        writer: &mut Instrumented<'_, W>,
    ) -> Result<Taking, ClientFault>
        requires { self.old.text ≡ [] }
        ensures finds { Finds receiving.now result (R.remaining reader.old) (R.remaining reader.new)
            (W.contents (stream_of writer.old)) (W.contents (stream_of writer.new)) }
        ensures text { self.new.text ≡ self.old.text }
        ensures page { self.new.page ≡ self.old.page }
        ensures same_writer { stream_name writer.new ≡ stream_name writer.old }
    {
        let hello = Ask::Hello(receiving.cred);
        let welcome = exchange_plain(reader, writer, hello, &self.text, &mut self.given)?;
        let find = receiving.receipt.find();
        let got = exchange_plain(reader, writer, find, &self.text, &mut self.given)?;
        let id = found(found(0, &welcome), &got);
        Ok(Taking {
            ask: receiving.receipt.receive(id),
            owed: receiving.messages(),
            waiting: 0,
        })
    }

    /// Requests more messages once at most half of a window is on its way: as many as then fit in
    /// the window and are owed.
    fn request<W: Write>(
        &self,
        receiving: &Receiving,
        writer: &mut Instrumented<'_, W>,
        taking: &mut Taking,
    ) -> Result<(), WriteFault>
        requires text { self.now.text ≡ [] }
        requires owed { 0 < taking.old.owed }
        requires due { taking.old.waiting ≤ taking.old.owed }
        requires few { taking.old.waiting ≤ ahead_of receiving.now }
        ensures requests { RequestsMore taking.old.owed (ahead_of receiving.now) result
            taking.old.waiting taking.new.waiting taking.old.ask
            (W.contents (stream_of writer.old)) (W.contents (stream_of writer.new)) }
        ensures owed { taking.new.owed ≡ taking.old.owed }
        ensures ask { taking.new.ask ≡ taking.old.ask }
        ensures same_writer { stream_name writer.new ≡ stream_name writer.old }
    {
        let window = receiving.window();
        let most = taking.owed.min(u64::from(window)) as u32;
        if taking.waiting > window / 2 || taking.waiting >= most {
            return Ok(());
        }
        request_more(writer, taking.ask, &self.text, most - taking.waiting)?;
        taking.waiting = most;
        Ok(())
    }

    /// Reads the reply to a receive, and collects or shows the message in it. This number of others
    /// is on its way.
    fn take<R: ReadAhead, S: Write>(
        &mut self,
        style: &Style,
        ask: Ask,
        others: u32,
        reader: &mut R,
        screen: &mut Instrumented<'_, S>,
    ) -> Took
        ensures takes { TakesOne others style.now ask result (R.remaining reader.old)
            (R.remaining reader.new) self.old.page self.new.page
            (S.contents (stream_of screen.old)) (S.contents (stream_of screen.new)) }
        ensures text { self.new.text ≡ self.old.text }
        ensures screen { KeepsStream screen.old screen.new (is_unshown result) }
    {
        match hear_plain(reader, ask, &mut self.given) {
            Ok(answer) => {
                let has_more = others > 0 && reader.has_frame();
                match self.show(style, &answer, has_more, screen) {
                    Ok(()) => Took::Message,
                    Err(unshown) => Took::Unshown(unshown),
                }
            }
            Err(ClientFault::Refused(error)) => Took::Refused(error),
            Err(ClientFault::NoReply) => Took::Lost,
            Err(ClientFault::NoMemory) => Took::Lost,
        }
    }

    /// Reads the replies to the receives on their way after a fault, and collects or shows their
    /// messages. Returns why the session ends. Fails if the screen does.
    fn finish<R: ReadAhead, S: Write>(
        &mut self,
        style: &Style,
        reader: &mut R,
        screen: &mut Instrumented<'_, S>,
        taking: &Taking,
        fault: ClientFault,
    ) -> Result<Option<ClientFault>, Unshown>
        ensures ok { (receiving : AReceiving) (left taken more shown : Option (List ℕ)) →
            style.now ≡ style_of_receipt receiving.receipt
            → Stops self.old.page receiving fault left (R.remaining reader.old) taken more shown
            (S.contents (stream_of screen.old)) taking.now.ask taking.now.waiting
            → IfOk result (λ why. TakesBut self.new.page receiving (ended_by why) left
            (R.remaining reader.new) taken more shown (S.contents (stream_of screen.new))) }
        ensures err { (receiving : AReceiving) (left taken more shown : Option (List ℕ)) →
            style.now ≡ style_of_receipt receiving.receipt
            → Stops self.old.page receiving fault left (R.remaining reader.old) taken more shown
            (S.contents (stream_of screen.old)) taking.now.ask taking.now.waiting
            → IfErr result (λ unshown. TakesAll receiving (Err (Screen unshown)) left
            (R.remaining reader.new) taken more shown (S.contents (stream_of screen.new))) }
        ensures screen { KeepsStream screen.old screen.new (is_err result) }
    {
        let mut why = fault;
        let mut waiting = taking.waiting;
        while waiting > 0 {
            match self.take(style, taking.ask, waiting - 1, reader, screen) {
                Took::Message => {}
                Took::Refused(error) => why = first_of(why, error),
                Took::Lost => return Ok(Some(why)),
                Took::Unshown(unshown) => return Err(unshown),
            }
            waiting -= 1;
        }
        Ok(Some(why))
    }

    /// Collects a message, if the result is one. What was collected is shown before it if it does
    /// not fit in a write with the message, and after it unless more messages are there.
    fn show<S: Write>(
        &mut self,
        style: &Style,
        answer: &ReplyContent,
        has_more: bool,
        screen: &mut Instrumented<'_, S>,
    ) -> Result<(), Unshown>
        requires { length self.old.given ≤ MESSAGE_BYTES }
        ensures text { self.new.text ≡ self.old.text }
        ensures page { has_more ≡ false → self.old.page ≡ [] → OnOk result (self.new.page ≡ []) }
        ensures ok { OnOk result (ShowsBut self.new.page
            (self.old.page ++ received_text style.now answer.now self.old.given)
            (S.contents (stream_of screen.old)) (S.contents (stream_of screen.new))) }
        ensures err { OnErr result (ShowsPart
            (self.old.page ++ received_text style.now answer.now self.old.given)
            (S.contents (stream_of screen.old)) (S.contents (stream_of screen.new))) }
        ensures kept { KeepsStream screen.old screen.new (is_err result) }
    {
        match answer {
            ReplyContent::Rcv { mtype } => {
                self.taken = self.taken.saturating_add(1);
                self.make_room(style, screen)?;
                self.page.message(style, *mtype, &mut self.given);
                self.held = self.held.saturating_add(1);
                if has_more {
                    return Ok(());
                }
                self.show_page(screen)?;
                Ok(())
            }
            _ => Ok(()),
        }
    }

    /// Shows what was collected, unless the message that was received last fits in a write with it.
    fn make_room<S: Write>(
        &mut self,
        style: &Style,
        screen: &mut Instrumented<'_, S>,
    ) -> Result<(), Unshown>
        requires { length self.old.given ≤ MESSAGE_BYTES }
        ensures text { self.new.text ≡ self.old.text }
        ensures given { self.new.given ≡ self.old.given }
        ensures room { OnOk result
            (length self.new.page + 6 * length self.old.given + 48 ≤ PAGE_ROOM) }
        ensures ok { OnOk result (ShowsBut self.new.page self.old.page
            (S.contents (stream_of screen.old)) (S.contents (stream_of screen.new))) }
        ensures err { OnErr result (ShowsPart self.old.page
            (S.contents (stream_of screen.old)) (S.contents (stream_of screen.new))) }
        ensures kept { KeepsStream screen.old screen.new (is_err result) }
    {
        if self.page.fits(style, &self.given) {
            return Ok(());
        }
        self.show_page(screen)
    }

    /// Writes what was collected and flushes it, if that is anything.
    fn show_page<S: Write>(&mut self, screen: &mut Instrumented<'_, S>) -> Result<(), Unshown>
        ensures text { self.new.text ≡ self.old.text }
        ensures given { self.new.given ≡ self.old.given }
        ensures page { OnOk result (self.new.page ≡ []) }
        ensures ok { OnOk result (Appends (S.contents (stream_of screen.old))
            (S.contents (stream_of screen.new)) self.old.page) }
        ensures err { OnErr result (ShowsPart self.old.page
            (S.contents (stream_of screen.old)) (S.contents (stream_of screen.new))) }
        ensures kept { KeepsStream screen.old screen.new (is_err result) }
    {
        if !self.page.is_empty() {
            match print_instrumented(screen, self.page.bytes()) {
                Ok(()) => self.page.clear(),
                Err(WriteFault) => return Err(self.unshown()),
            }
        }
        self.shown = self.shown.saturating_add(self.held);
        self.held = 0;
        Ok(())
    }

    /// Returns how many messages were received and shown.
    fn unshown(&self) -> Unshown {
        Unshown {
            taken: self.taken,
            shown: self.shown,
        }
    }
}

/// Returns the fault of the first of two receives without a message: of one that met this fault,
/// and of one that was refused with this error. A receive that the writer did not take is the later
/// one.
fn first_of(fault: ClientFault, error: Errno) -> ClientFault
    ensures { result ≡ first_fault fault error }
{
    match fault {
        ClientFault::Refused(first) => ClientFault::Refused(first),
        _ => ClientFault::Refused(error),
    }
}

/// Writes this number of receives, and then flushes them.
fn request_more<W: Write>(
    writer: &mut Instrumented<'_, W>,
    ask: Ask,
    text: &Body,
    count: u32,
) -> Result<(), WriteFault>
    requires { text.now ≡ [] }
    ensures ok { OnOk result (Appends (W.contents (stream_of writer.old))
        (W.contents (stream_of writer.new)) (repeated_encoding ask count)) }
    ensures err { OnErr result (AppendsPrefix (W.contents (stream_of writer.old))
        (W.contents (stream_of writer.new)) (repeated_encoding ask count)) }
    ensures same_writer { stream_name writer.new ≡ stream_name writer.old }
{
    let mut written = 0;
    while written < count {
        put(writer, ask, text)?;
        written += 1;
    }
    match writer.flush() {
        Ok(()) => Ok(()),
        Err(_) => Err(WriteFault),
    }
}
