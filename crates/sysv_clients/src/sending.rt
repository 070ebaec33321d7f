//! A `snd` of several messages: a session that sends the message that each line of an input states.

ghost use Rattle.std.specs.Prelude.{◌≡◌, ◌⊎◌, ◌+◌, ◌<◌, ◌≤◌, ◌^◌, ℕ, List, Option, [], length, IfErr, IfOk, OnOk};
ghost use Rattle.std.specs.Io.KnownBytes.{Appends, prepend_known};
ghost use Rattle.sysv_clients.specs.declared.sending.Heard.TheVariants as heards;
ghost use Rattle.sysv_clients.specs.declared.sending.Sending.{Sending as ASending};
ghost use Rattle.sysv_clients.specs.declared.line_text.TheConstants.{LINE_ROOM};
ghost use Rattle.sysv_clients.specs.declared.sending.TheConstants.{WINDOW};
ghost use Rattle.sysv_clients.specs.declared.sending.Unsent.TheVariants as unsents;
ghost use Rattle.sysv_clients.specs.Feed.{failure_of, feed_name, feed_stream};
ghost use Rattle.sysv_clients.specs.Lines.{FailsBy, Fetches};
ghost use Rattle.sysv_clients.specs.Sending.{IsNextSend, SendsAhead, SendsAll, Sent, a_send, find_to_send, send_ask, unsent_line, window_of};
ghost use Rattle.json.specs.Scratch.{room};
ghost use Rattle.sysv_clients.specs.Stated.{line_most, strings_most};
ghost use Rattle.sysv_clients.specs.Window.{AreSnds, Drains, EndsLines, HearsCut, HearsSend, HearsSends, IsCut, Opens, PutsSend, ReadsMessage, Sends, empty, lost};
ghost use Rattle.sysv_model.specs.Instrumented.{stream_name, stream_of};

use crate::client::found;
use crate::command::{create_flags, wait_flags};
use crate::exchange::{exchange, hear, put};
use crate::fault::ClientFault;
use crate::feed::Feed;
use crate::input_lines::{Chunk, Fetched, fetch};
use crate::line_text::LineText;
use crate::stated::{OBJECT_BYTES, read_object};
use json::Scratch;
use std::alloc::Global;
use std::io;
use std::io::{Read, Write};
use sysv_model::{Body, Cred, Errno, Instrumented, MESSAGE_BYTES, NoMemory, WriteFault};
use sysv_wire::Ask;
use thiserror::Error;

/// A `snd` of several messages, with the credentials for it.
#[derive(Clone, Copy, PartialEq, Eq, Debug)]
pub struct Sending {
    /// The credentials that the client states in its hello.
    pub cred: Cred,
    /// The queue's key. Key 0 is `IPC_PRIVATE`.
    pub key: i32,
    /// How each line states a message.
    pub wording: Wording,
    /// Whether to fail at once instead of waiting for room.
    pub nowait: bool,
}

/// How a line states a message.
#[derive(Clone, Copy, PartialEq, Eq, Debug)]
pub enum Wording {
    /// The line is the body of a message.
    Bodies {
        /// The type of each message.
        mtype: i64,
    },
    /// The line is a JSON object with the type and the body of a message, as a `rcv` shows it with
    /// `Form::Object`.
    Objects,
}

impl Wording {
    /// Returns the maximum number of bytes in a line.
    fn line_most(self) -> usize
        ensures most { result ≡ line_most self }
        ensures room { result < LINE_ROOM }
    {
        match self {
            Wording::Bodies { .. } => MESSAGE_BYTES,
            Wording::Objects => OBJECT_BYTES,
        }
    }
}

/// The maximum number of sends that are on their way: written, and without a reply.
pub(crate) const WINDOW: u32 = 256;

/// How a session of sends ended at a send that was refused or has no reply.
#[derive(Clone, Copy, PartialEq, Eq, Debug)]
pub struct Cut {
    /// The number of lines before it. All of them were accepted.
    pub before: u64,
    /// Why it was not accepted.
    pub fault: ClientFault,
    /// The number of later lines that were accepted.
    pub after: u32,
    /// The number of lines that were requested and have no reply. Whether they were accepted is
    /// unknown.
    pub unknown: u32,
}

/// Why a session of sends ends early.
#[derive(Debug, Drop, Error)]
pub enum Unsent {
    /// A request before the first send ends it, or memory was refused.
    #[error("{0}")]
    Fault(ClientFault),
    /// A send ends it.
    #[error("{}", .0.fault)]
    Cut(Cut),
    /// A line is longer than a line may be.
    #[error("a line is too long after {before} lines")]
    Long {
        /// The number of lines before it. All of them were accepted.
        before: u64,
    },
    /// A line is no JSON object that states a message.
    #[error("a line states no message after {before} lines")]
    NoObject {
        /// The number of lines before it. All of them were accepted.
        before: u64,
    },
    /// Memory for a line was refused.
    #[error("no memory after {before} lines")]
    Memory {
        /// The number of lines before it. All of them were accepted.
        before: u64,
    },
    /// 2^64 - 1 lines were sent, each with its LF, and no more are.
    #[error("too many lines")]
    Many,
    /// The input could not be read.
    #[error("cannot read: {0}")]
    Input(io::Error),
}

impl From<ClientFault> for Unsent {
    ghost from_gives = { λ fault given. given ≡ unsents.Fault fault };

    fn from(fault: ClientFault) -> Unsent {
        Unsent::Fault(fault)
    }
}

impl Unsent {
    /// Returns the line that reports the fault to a user.
    pub fn line(&self) -> &'static str
        ensures { result.now ≡ unsent_line self.now }
    {
        match self {
            Unsent::Fault(fault) => fault.line(),
            Unsent::Cut(cut) => cut.fault.line(),
            Unsent::Long { .. } => ClientFault::Refused(Errno::EINVAL).line(),
            Unsent::NoObject { .. } => "sysvmsg: bad line\n",
            Unsent::Memory { .. } => ClientFault::NoMemory.line(),
            Unsent::Many => "sysvmsg: too many lines\n",
            Unsent::Input(_) => "sysvmsg: cannot read\n",
        }
    }
}

impl Sending {
    /// Returns the request that finds the queue.
    fn find(&self) -> Ask
        ensures { result ≡ find_to_send self.now }
    {
        Ask::Get {
            key: self.key,
            flags: create_flags(),
        }
    }

    /// Returns the request that sends a message of this type to the queue with this identifier.
    pub(crate) fn send(&self, id: i32, mtype: i64) -> Ask
        ensures { result ≡ send_ask self.now id mtype }
    {
        Ask::Snd {
            id,
            mtype,
            flags: wait_flags(self.nowait),
        }
    }
}

/// Returns some send. The replies to all sends have one form.
fn a_send() -> Ask
    ensures { result ≡ a_send }
{
    Ask::Snd {
        id: 0,
        mtype: 1,
        flags: wait_flags(false),
    }
}

/// Sends the message that each line of an input states, over one session and in order. A line,
/// without its LF, is a body or a JSON object, as `sending.wording` says; the last line may lack
/// its LF.
///
/// The client writes a hello, the request that finds the queue, and a send for each line, all of
/// version 2. It sends lines that one read of the input returned in a window: at most 256 sends are
/// written and have no reply, or one with `nowait`. It reads all replies before it reads the input
/// again, so a line is sent as soon as it was read. Requests are flushed before a reply is read.
///
/// # Errors
///
/// The lines before were sent, and after all errors but `Cut` nothing else was.
///
/// - `Fault`: the hello or the request that finds the queue is refused, cannot be written or has no
///   reply. Or memory was refused; it is allocated first, so nothing was written to the server or
///   read.
/// - `Cut`: a send is refused, cannot be written or has no reply. It states how many later lines
///   were sent, and of how many lines that is unknown.
/// - `Long`: the next line has more bytes than a line may have: 8,192 if it is a body, and 65,536
///   if it is an object. It states how many lines were sent before.
/// - `NoObject`: the next line is no JSON object that states a message: one with a type, a number
///   from 1 without a fraction or an exponent, a body of at most 8,192 bytes, a string or base64,
///   and no other member. It states how many lines were sent before.
/// - `Memory`: memory for the next line, which is an object, was refused. It states how many lines
///   were sent before.
/// - `Many`: 2^64 - 1 lines were sent. Whether there are more is not looked at.
/// - `Input`: a read of the input failed.
pub fn send_lines<I: Read, R: Read, W: Write>(
    alloc: Global,
    sending: &Sending,
    input: &mut I,
    reader: &mut R,
    writer: &mut W,
) -> Result<(), Unsent>
    ensures { SendsAhead sending.now result (R.remaining reader.old) (R.remaining reader.new)
        (W.contents writer.old) (W.contents writer.new)
        (I.remaining input.old) (I.remaining input.new) }
{
    send_feed(alloc, sending, &mut Feed::new(input), reader, writer)
}

/// Sends lines like `send_lines`. If the input could not be read, then the last read of it failed,
/// and the feed states the kind of the error that is returned.
///
/// # Errors
///
/// Those of `send_lines`.
pub fn send_feed<I: Read, R: Read, W: Write>(
    alloc: Global,
    sending: &Sending,
    input: &mut Feed<'_, I>,
    reader: &mut R,
    writer: &mut W,
) -> Result<(), Unsent>
    ensures sends { SendsAhead sending.now result (R.remaining reader.old) (R.remaining reader.new)
        (W.contents writer.old) (W.contents writer.new)
        (I.remaining (feed_stream input.old)) (I.remaining (feed_stream input.new)) }
    ensures failed { FailsBy result (failure_of input.new) }
    // The input stays the same.
    ensures same { feed_name input.new ≡ feed_name input.old }
{
    send_instrumented(
        alloc,
        sending,
        input,
        &mut Instrumented::new(reader),
        &mut Instrumented::new(writer),
    )
}

/// Sends lines like `send_feed`.
fn send_instrumented<I: Read, R: Read, W: Write>(
    alloc: Global,
    sending: &Sending,
    input: &mut Feed<'_, I>,
    reader: &mut Instrumented<'_, R>,
    writer: &mut Instrumented<'_, W>,
) -> Result<(), Unsent>
    ensures sends { SendsAhead sending.now result
        (R.remaining (stream_of reader.old)) (R.remaining (stream_of reader.new))
        (W.contents (stream_of writer.old)) (W.contents (stream_of writer.new))
        (I.remaining (feed_stream input.old)) (I.remaining (feed_stream input.new)) }
    ensures failed { FailsBy result (failure_of input.new) }
    ensures same_input { feed_name input.new ≡ feed_name input.old }
    ensures same_reader { stream_name reader.new ≡ stream_name reader.old }
    ensures same_writer { stream_name writer.new ≡ stream_name writer.old }
{
    match Sender::open(alloc, sending.wording) {
        Ok(mut sender) => sender.send_all(alloc, sending, input, reader, writer),
        Err(NoMemory) => Err(Unsent::Fault(ClientFault::NoMemory)),
    }
}

/// What was read as the reply to a send.
#[derive(Clone, Copy)]
enum Heard {
    /// It was done.
    Done,
    /// It was refused.
    Refused(Errno),
    /// There is no reply.
    Lost,
}

/// A client that sends several messages.
#[derive(Drop)]
pub(crate) struct Sender {
    /// The body that it sends.
    pub(crate) text: Body,
    /// The body that it received last, which is not used.
    pub(crate) given: Body,
    /// What it read of its input and has not sent.
    pub(crate) chunk: Chunk,
    /// The line that it read last.
    pub(crate) line: LineText,
    /// The memory for the strings of an object.
    pub(crate) scratch: Scratch,
}

impl Sender {
    /// Creates a client that has made no request. Fails with `NoMemory` if allocation fails.
    pub(crate) fn open(alloc: Global, wording: Wording) -> Result<Sender, NoMemory>
        ensures { IfOk result (λ sender. (sender.text ≡ []) × (sender.chunk ≡ [])) }
    {
        Ok(Sender {
            text: Body::open(alloc)?,
            given: Body::open(alloc)?,
            chunk: Chunk::open(alloc)?,
            line: LineText::open(alloc)?,
            scratch: scratch_for(alloc, wording)?,
        })
    }

    /// Finds the queue, and sends the message that each line states.
    fn send_all<I: Read, R: Read, W: Write>(
        &mut self,
        alloc: Global,
        sending: &Sending,
        input: &mut Feed<'_, I>,
        reader: &mut Instrumented<'_, R>,
        writer: &mut Instrumented<'_, W>,
    ) -> Result<(), Unsent>
        requires text { self.old.text ≡ [] }
        requires chunk { self.old.chunk ≡ [] }
        ensures sends { SendsAhead sending.now result
            (R.remaining (stream_of reader.old)) (R.remaining (stream_of reader.new))
            (W.contents (stream_of writer.old)) (W.contents (stream_of writer.new))
            (I.remaining (feed_stream input.old)) (I.remaining (feed_stream input.new)) }
        ensures failed { FailsBy result (failure_of input.new) }
        ensures same_input { feed_name input.new ≡ feed_name input.old }
        ensures same_reader { stream_name reader.new ≡ stream_name reader.old }
        ensures same_writer { stream_name writer.new ≡ stream_name writer.old }
    {
        let mut window = self.find(sending, reader, writer)?;
        let mut lines = 0;
        while lines < u64::MAX {
            let fetched = match self.fetch(input, sending.wording, lines) {
                Ok(fetched) => fetched,
                Err(why) => return self.finish(reader, writer, &mut window, Err(why)),
            };
            if fetched.is_nothing() {
                return self.finish(reader, writer, &mut window, Ok(()));
            }
            let mtype = match self.read(alloc, sending.wording, lines) {
                Ok(mtype) => mtype,
                Err(why) => return self.finish(reader, writer, &mut window, Err(why)),
            };
            let ask = sending.send(window.id, mtype);
            self.send(writer, &mut window, ask)?;
            if !fetched.is_line() {
                return self.finish(reader, writer, &mut window, Ok(()));
            }
            let keep = kept(sending, window.waiting, self.chunk.has_line());
            self.drain(reader, writer, &mut window, keep)?;
            lines += 1;
        }
        self.finish(reader, writer, &mut window, Err(Unsent::Many))
    }

    /// Reads the next line, after this number of lines.
    pub(crate) fn fetch<I: Read>(
        &mut self,
        input: &mut Feed<'_, I>,
        wording: Wording,
        lines: u64,
    ) -> Result<Fetched, Unsent>
        ensures fetches { Fetches (line_most wording) lines result
            (prepend_known self.old.chunk (I.remaining (feed_stream input.old)))
            (prepend_known self.new.chunk (I.remaining (feed_stream input.new))) self.new.line }
        ensures same { feed_name input.new ≡ feed_name input.old }
        ensures failed { FailsBy result (failure_of input.new) }
    {
        fetch(
            input,
            &mut self.chunk,
            &mut self.line,
            wording.line_most(),
            lines,
        )
    }

    /// Reads the message that the line states, which follows this number of lines. Returns its
    /// type; its body is then the one to send.
    fn read(&mut self, alloc: Global, wording: Wording, lines: u64) -> Result<i64, Unsent>
        requires { length self.old.line ≤ line_most wording }
        ensures reads { ReadsMessage wording lines result self.old.line self.new.text }
        ensures chunk { self.new.chunk ≡ self.old.chunk }
    {
        let line = self.line.bytes();
        match wording {
            Wording::Bodies { mtype } => {
                self.text.clear();
                self.text.push_piece(line);
                Ok(mtype)
            }
            Wording::Objects => match read_object(alloc, line, &mut self.scratch, &mut self.text) {
                Ok(Some(mtype)) => Ok(mtype),
                Ok(None) => Err(Unsent::NoObject { before: lines }),
                Err(NoMemory) => Err(Unsent::Memory { before: lines }),
            },
        }
    }

    /// Makes the requests before the first send. Returns the window of the sends.
    fn find<R: Read, W: Write>(
        &mut self,
        sending: &Sending,
        reader: &mut Instrumented<'_, R>,
        writer: &mut Instrumented<'_, W>,
    ) -> Result<Window, ClientFault>
        requires { self.old.text ≡ [] }
        ensures opens { Opens sending.now result
            (R.remaining (stream_of reader.old)) (R.remaining (stream_of reader.new))
            (W.contents (stream_of writer.old)) (W.contents (stream_of writer.new)) }
        ensures chunk { self.new.chunk ≡ self.old.chunk }
        ensures same_reader { stream_name reader.new ≡ stream_name reader.old }
        ensures same_writer { stream_name writer.new ≡ stream_name writer.old }
    {
        let hello = Ask::Hello(sending.cred);
        let welcome = exchange(reader, writer, hello, &self.text, &mut self.given)?;
        let got = exchange(reader, writer, sending.find(), &self.text, &mut self.given)?;
        Ok(Window {
            id: found(found(0, &welcome), &got),
            done: 0,
            waiting: 0,
        })
    }

    /// Writes this send, whose body was read, and flushes nothing.
    pub(crate) fn send<W: Write>(
        &mut self,
        writer: &mut Instrumented<'_, W>,
        window: &mut Window,
        ask: Ask,
    ) -> Result<(), Unsent>
        requires { window.old.waiting < WINDOW }
        ensures sends { (sending : ASending) (left rest taken fed unsent unfed : Option (List ℕ)) →
            Sends sending left rest taken (W.contents (stream_of writer.old)) fed unsent window.old
            → IsNextSend sending window.old.id (record { ask = ask; text = self.old.text }) unsent
            unfed → window.old.waiting < window_of sending
            → Drains sending result (window.old.waiting + 1) left rest taken
            (W.contents (stream_of writer.new)) fed unfed
            (record {
              id = window.old.id;
              done = window.old.done;
              waiting = window.old.waiting + 1;
            }) window.new }
        ensures puts { PutsSend result (record { ask = ask; text = self.old.text })
            (W.contents (stream_of writer.old)) (W.contents (stream_of writer.new))
            window.old window.new }
        ensures len { OnOk result ((window.new.waiting ≡ window.old.waiting + 1)
            × (window.new.done ≡ window.old.done)) }
        ensures cut { IfErr result IsCut }
        ensures chunk { self.new.chunk ≡ self.old.chunk }
        ensures same_writer { stream_name writer.new ≡ stream_name writer.old }
    {
        window.waiting += 1;
        match put(writer, ask, &self.text) {
            Ok(()) => Ok(()),
            Err(WriteFault) => Err(Unsent::Cut(lost(window))),
        }
    }

    /// Flushes the sends, and reads replies until no more than `keep` of the sends have none. If
    /// no more have none already, it does nothing.
    pub(crate) fn drain<R: Read, W: Write>(
        &mut self,
        reader: &mut Instrumented<'_, R>,
        writer: &mut Instrumented<'_, W>,
        window: &mut Window,
        keep: u32,
    ) -> Result<(), Unsent>
        requires { window.old.done + window.old.waiting < 2 ^ 64 }
        ensures drains { (sending : ASending) (left taken fed unsent : Option (List ℕ)) →
            Sends sending left (R.remaining (stream_of reader.old)) taken
            (W.contents (stream_of writer.old)) fed unsent window.old
            → Drains sending result keep left (R.remaining (stream_of reader.new)) taken
            (W.contents (stream_of writer.new)) fed unsent window.old window.new }
        ensures hears { (waiting : List Sent) → AreSnds waiting
            → window.old.waiting ≡ length waiting
            → HearsSends result waiting (R.remaining (stream_of reader.old))
            (R.remaining (stream_of reader.new)) window.old window.new }
        ensures writes { Appends (W.contents (stream_of writer.old))
            (W.contents (stream_of writer.new)) [] }
        ensures cut { IfErr result IsCut }
        ensures few { OnOk result (window.new.waiting ≤ keep) }
        ensures len { OnOk result (window.new.done + window.new.waiting
            ≡ window.old.done + window.old.waiting) }
        ensures chunk { self.new.chunk ≡ self.old.chunk }
        ensures same_reader { stream_name reader.new ≡ stream_name reader.old }
        ensures same_writer { stream_name writer.new ≡ stream_name writer.old }
    {
        if window.waiting <= keep {
            return Ok(());
        }
        if writer.flush().is_err() {
            return Err(Unsent::Cut(lost(window)));
        }
        self.hear_until(reader, window, keep)
    }

    /// Reads replies until no more than `keep` of the sends have none.
    fn hear_until<R: Read>(
        &mut self,
        reader: &mut Instrumented<'_, R>,
        window: &mut Window,
        keep: u32,
    ) -> Result<(), Unsent>
        requires { window.old.done + window.old.waiting < 2 ^ 64 }
        ensures hears { (waiting : List Sent) → AreSnds waiting
            → window.old.waiting ≡ length waiting
            → HearsSends result waiting (R.remaining (stream_of reader.old))
            (R.remaining (stream_of reader.new)) window.old window.new }
        ensures cut { IfErr result IsCut }
        ensures few { OnOk result (window.new.waiting ≤ keep) }
        ensures len { OnOk result (window.new.done + window.new.waiting
            ≡ window.old.done + window.old.waiting) }
        ensures chunk { self.new.chunk ≡ self.old.chunk }
        ensures same_reader { stream_name reader.new ≡ stream_name reader.old }
    {
        while window.waiting > keep {
            match self.hear_send(reader) {
                Heard::Done => {
                    window.done += 1;
                    window.waiting -= 1;
                }
                Heard::Refused(error) => {
                    return Err(Unsent::Cut(self.refused(reader, window, error)));
                }
                Heard::Lost => return Err(Unsent::Cut(lost(window))),
            }
        }
        Ok(())
    }

    /// Reads the reply to a send.
    fn hear_send<R: Read>(&mut self, reader: &mut Instrumented<'_, R>) -> Heard
        ensures hears { HearsSend result (R.remaining (stream_of reader.old))
            (R.remaining (stream_of reader.new)) }
        ensures chunk { self.new.chunk ≡ self.old.chunk }
        ensures same_reader { stream_name reader.new ≡ stream_name reader.old }
    {
        match hear(reader, a_send(), &mut self.given) {
            Ok(_) => Heard::Done,
            Err(ClientFault::Refused(error)) => Heard::Refused(error),
            Err(ClientFault::NoReply) => Heard::Lost,
            Err(ClientFault::NoMemory) => Heard::Lost,
        }
    }

    /// Reads the replies to the sends after one that was refused with this error. Returns how the
    /// session ended.
    fn refused<R: Read>(
        &mut self,
        reader: &mut Instrumented<'_, R>,
        window: &Window,
        error: Errno,
    ) -> Cut
        requires { 0 < window.now.waiting }
        ensures ends { (waiting : List Sent) (left : Option (List ℕ)) → AreSnds waiting
            → window.now.waiting ≡ length waiting
            → HearsSend (heards.Refused error) left (R.remaining (stream_of reader.old))
            → HearsCut waiting left (R.remaining (stream_of reader.new)) window.now result }
        ensures chunk { self.new.chunk ≡ self.old.chunk }
        ensures same_reader { stream_name reader.new ≡ stream_name reader.old }
    {
        let mut cut = Cut {
            before: window.done,
            fault: ClientFault::Refused(error),
            after: 0,
            unknown: window.waiting - 1,
        };
        while cut.unknown > 0 {
            match self.hear_send(reader) {
                Heard::Done => cut.after += 1,
                Heard::Refused(_) => {}
                Heard::Lost => return cut,
            }
            cut.unknown -= 1;
        }
        cut
    }

    /// Reads the replies that are left, and ends the session like the lines of the input.
    fn finish<R: Read, W: Write>(
        &mut self,
        reader: &mut Instrumented<'_, R>,
        writer: &mut Instrumented<'_, W>,
        window: &mut Window,
        ended: Result<(), Unsent>,
    ) -> Result<(), Unsent>
        requires { window.old.done + window.old.waiting < 2 ^ 64 }
        ensures ends { (sending : ASending) (left taken fed unsent unfed : Option (List ℕ)) →
            Sends sending left (R.remaining (stream_of reader.old)) taken
            (W.contents (stream_of writer.old)) fed unsent window.old
            → EndsLines sending.wording ended (window.old.done + window.old.waiting) unsent unfed
            → SendsAll sending result left (R.remaining (stream_of reader.new)) taken
            (W.contents (stream_of writer.new)) fed unfed }
        ensures same_end { (result ≡ ended) ⊎ IfErr result IsCut }
        ensures chunk { self.new.chunk ≡ self.old.chunk }
        ensures same_reader { stream_name reader.new ≡ stream_name reader.old }
        ensures same_writer { stream_name writer.new ≡ stream_name writer.old }
    {
        self.drain(reader, writer, window, 0)?;
        ended
    }
}

/// The sends of a session.
#[derive(Clone, Copy)]
pub(crate) struct Window {
    /// The identifier of the queue.
    pub(crate) id: i32,
    /// The number of sends that were done.
    pub(crate) done: u64,
    /// The number of sends that were written and have no reply yet.
    pub(crate) waiting: u32,
}

impl Window {
    /// Returns a window without sends, to no queue yet.
    pub(crate) fn empty() -> Window
        ensures { result ≡ empty }
    {
        Window {
            id: 0,
            done: 0,
            waiting: 0,
        }
    }
}

/// Returns how a session ends that has no reply to the sends on their way.
fn lost(window: &Window) -> Cut
    ensures { result ≡ lost window.now }
{
    Cut {
        before: window.done,
        fault: ClientFault::NoReply,
        after: 0,
        unknown: window.waiting,
    }
}

/// Returns how many sends may stay on their way once this number is: fewer than a window, and none
/// if the next line was not read yet. If the window is full, half of it may.
pub(crate) fn kept(sending: &Sending, waiting: u32, has_line: bool) -> u32
    ensures { result < window_of sending.now }
{
    if sending.nowait || !has_line {
        0
    } else if waiting < WINDOW {
        waiting
    } else {
        WINDOW / 2
    }
}

/// Returns memory for the strings of an object: for an object of the maximum size, if lines are
/// objects. Fails with `NoMemory` if allocation fails.
fn scratch_for(alloc: Global, wording: Wording) -> Result<Scratch, NoMemory>
    ensures { IfOk result (λ scratch. strings_most wording ≤ room scratch) }
{
    let mut scratch = Scratch::new(alloc);
    match wording {
        Wording::Bodies { .. } => Ok(scratch),
        Wording::Objects => match scratch.reserve(OBJECT_BYTES) {
            Ok(()) => Ok(scratch),
            Err(_) => Err(NoMemory),
        },
    }
}
