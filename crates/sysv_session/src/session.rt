//! A session, from its hello to its end.
ghost use Rattle.std.specs.Prelude.{◌≡◌, ◌≢◌, ◌<◌, ◌≤◌, length, ◌-◌, ◌^◌, List, ℕ, Option, false, None, Some, IfErr};
ghost use Rattle.sysv_model.specs.Instrumented.{stream_of, KeepsStream};
ghost use Rattle.sysv_model.specs.declared.limits.TheConstants.{MESSAGE_BYTES};
ghost use Rattle.sysv_queue.specs.Tally.{taken_in};
ghost use Rattle.sysv_session.specs.Answers.{HasAnswer};
ghost use Rattle.sysv_session.specs.Failing.{ends_by_read, ends_by_write, is_failed_read, is_failed_write};
ghost use Rattle.sysv_session.specs.Session.{Serves};
ghost use Rattle.sysv_session.specs.Parse.{Parse, Follows, Takes};
ghost use Rattle.sysv_session.specs.HandedOver.{HandedOver, Proceeds};
ghost use Rattle.sysv_session.specs.TakenUp.{TakesUp};
ghost use Rattle.sysv_session.specs.Turn.{Answers};
ghost use Rattle.sysv_wire.specs.declared.frame.Version.{Version as Versions};

use crate::handler::{Handler, RequestOutcome};
use crate::served::{End, SESSION_REQUESTS, Served};
use crate::turn::{deliver, hello_reply, read_asked, read_hello, send};
use std::alloc::Global;
use std::io::{Read, Write};
use sysv_model::{Body, Cred, Instrumented, NoMemory};
use sysv_queue::Tally;
use sysv_wire::{Request, Version, one_answer_to_requests, one_request};

/// Runs one session to its end, and returns what the session did.
///
/// The session reads a hello and replies to it. It then reads requests, passes each to the handler
/// with the credentials of the hello, and writes the replies in order. Each reply is flushed before
/// the next request is read.
///
/// The session has the version of its hello, 1 or 2. In version 2 the reply to the hello states the
/// number of slots. A request that cannot be read, a request of another version and a later hello
/// end the session without a reply. So does a call that its client leaves while it waits.
///
/// Memory for two bodies is allocated before anything is read. If it is refused, the session ends
/// with `NoMemory`, and the reader, the writer and the handler are unchanged.
pub fn serve<R: Read, W: Write, K: Handler>(
    alloc: Global,
    reader: &mut R,
    writer: &mut W,
    handler: &mut K,
) -> Served
    ensures serves { Serves Version.Two K.meaning (K.slots handler.old) result
        handler.old handler.new (R.remaining reader.old) (R.remaining reader.new)
        (W.contents writer.old) (W.contents writer.new) }
    // The session ends as its input determines, unless it is cut short.
    ensures only { (input : List ℕ) (parse : Parse) → R.remaining reader.old ≡ Some input →
        Takes Version.Two input parse → Follows parse result }
    ensures memory { result.«end» ≡ End.NoMemory → (reader.new ≡ reader.old)
        × (writer.new ≡ writer.old) }
{
    let Ok(mut texts) = Texts::open(alloc) else {
        return Served {
            end: End::NoMemory,
            tally: Tally::open(),
            requests: 0,
        };
    };
    serve_instrumented(
        &mut texts,
        &mut Instrumented::new(reader),
        &mut Instrumented::new(writer),
        handler,
    )
}

/// Runs one session like `serve`, but with two bodies that exist already, whatever they hold, and
/// records which stream failed. Allocates nothing.
///
/// The reader fails if and only if the session ends with `Fault(Read)`, and the writer fails if and
/// only if it ends with `Write`.
pub fn serve_instrumented<R: Read, W: Write, K: Handler>(
    texts: &mut Texts,
    reader: &mut Instrumented<'_, R>,
    writer: &mut Instrumented<'_, W>,
    handler: &mut K,
) -> Served
    ensures serves { Serves Version.Two K.meaning (K.slots handler.old) result
        handler.old handler.new
        (R.remaining (stream_of reader.old)) (R.remaining (stream_of reader.new))
        (W.contents (stream_of writer.old)) (W.contents (stream_of writer.new)) }
    // The session ends as its input determines, unless it is cut short.
    ensures only { (input : List ℕ) (parse : Parse) →
        R.remaining (stream_of reader.old) ≡ Some input → Takes Version.Two input parse →
        Follows parse result }
    ensures memory { result.«end» ≢ End.NoMemory }
    // The streams stay the same, and each fails in this call if and only if the end says so.
    ensures reader { KeepsStream reader.old reader.new (is_failed_read result.«end») }
    ensures writer { KeepsStream writer.old writer.new (is_failed_write result.«end») }
{
    one_request();
    one_answer_to_requests();
    let slots = handler.slots();
    let mut session = Session::open(Version::Two);
    loop {
        if let Err(why) = serve_next(&mut session, slots, texts, reader, writer, handler) {
            return session.end(why);
        }
    }
}

/// Takes up what the input holds next, and answers it.
fn serve_next<R: Read, W: Write, K: Handler>(
    session: &mut Session,
    slots: u32,
    texts: &mut Texts,
    reader: &mut Instrumented<'_, R>,
    writer: &mut Instrumented<'_, W>,
    handler: &mut K,
) -> Result<(), End>
    requires room { taken_in session.old.tally < 2 ^ 64 - 1 }
    // Wherever the session began, it serves on or has served.
    ensures serves { (newest : Versions) (start : K) (left taken : Option (List ℕ)) →
        HandedOver newest K.meaning slots session.old start handler.old left
        (R.remaining (stream_of reader.old)) taken (W.contents (stream_of writer.old)) →
        Proceeds newest K.meaning slots result session.old.requests session.new start handler.new
        left (R.remaining (stream_of reader.new)) taken (W.contents (stream_of writer.new)) }
    ensures memory { IfErr result (λ why. why ≢ End.NoMemory) }
    ensures reader { KeepsStream reader.old reader.new (ends_by_read result) }
    ensures writer { KeepsStream writer.old writer.new (ends_by_write result) }
{
    texts.given.clear();
    match session.take_up(reader, &mut texts.asked)? {
        TakenUp::Hello(version) => {
            let outcome = RequestOutcome::Reply(hello_reply(version, slots));
            session.answer(writer, version, outcome, &texts.given)
        }
        TakenUp::Request(cred, request) => {
            let outcome = handler.call(cred, &request, &texts.asked, &mut texts.given);
            session.answer(writer, request.version, outcome, &texts.given)
        }
    }
}

/// The two bodies of a session: that of a request and that of its reply. Several sessions may use
/// them, one after another.
#[derive(Drop)]
pub struct Texts {
    asked: Body,
    given: Body,
}

impl Texts {
    /// Allocates two bodies.
    ///
    /// # Errors
    ///
    /// - `NoMemory` if allocation fails.
    pub fn open(alloc: Global) -> Result<Texts, NoMemory> {
        let asked = Body::open(alloc)?;
        let given = Body::open(alloc)?;
        Ok(Texts { asked, given })
    }
}

/// A pending session: what it has done so far.
#[derive(Drop)]
pub struct Session {
    /// The newest version that the session reads.
    pub newest: Version,
    /// The version and the credentials of the hello, once it was read.
    pub caller: Option<(Version, Cred)>,
    /// The messages that the handler returned, and what became of them.
    pub tally: Tally,
    /// The number of requests that were taken up, 0 to 4,294,967,295, including the hello.
    pub requests: u32,
}

impl Session {
    /// Returns a session that has read nothing. It reads versions up to `newest`.
    pub fn open(newest: Version) -> Session
        ensures newest { result.newest ≡ newest }
        ensures caller { result.caller ≡ None }
        ensures tally { result.tally ≡ record { written = 0; lost = 0 } }
        ensures count { result.requests ≡ 0 }
    {
        Session {
            newest,
            caller: None,
            tally: Tally::open(),
            requests: 0,
        }
    }

    /// Takes up what the input holds next: the hello, and then one request after another for the
    /// handler. `text` is then the body of the request.
    ///
    /// # Errors
    ///
    /// The session is unchanged.
    ///
    /// - `Ended` if the input ends before another request.
    /// - `NoHello` if the first request is not a hello.
    /// - `Fault` if there is no request, or one of another version or a later hello.
    /// - `Bound` if 4,294,967,295 requests were taken up. Nothing is read.
    #[inline(always)]
    pub fn take_up<R: Read>(
        &mut self,
        reader: &mut Instrumented<'_, R>,
        text: &mut Body,
    ) -> Result<TakenUp, End>
        ensures takes { TakesUp self.old self.new result (R.remaining (stream_of reader.old))
            (R.remaining (stream_of reader.new)) text.new }
        ensures reader { KeepsStream reader.old reader.new (ends_by_read result) }
        ensures write { ends_by_write result ≡ false }
    {
        let Some((version, cred)) = self.caller else {
            let (version, cred) = read_hello(self.newest, reader, text)?;
            self.caller = Some((version, cred));
            self.requests = 1;
            return Ok(TakenUp::Hello(version));
        };
        if self.requests >= SESSION_REQUESTS {
            return Err(End::Bound);
        }
        let Some(request) = read_asked(self.newest, reader, version, text)? else {
            return Err(End::Ended);
        };
        self.requests += 1;
        Ok(TakenUp::Request(cred, request))
    }

    /// Writes the outcome of a request of this version, and flushes it. A message counts as written
    /// if that succeeds, and otherwise as lost.
    ///
    /// # Errors
    ///
    /// - `Write` if the writer fails, takes no byte or cannot be flushed. It has taken a prefix of
    ///   the reply.
    /// - `Left` if the call was left. Nothing is written.
    ///
    /// # Conditions
    ///
    /// - A reply in the outcome is one that its operation has in its version.
    /// - `given` has at most 8,192 bytes.
    /// - The tally can count one more message.
    pub fn answer<W: Write>(
        &mut self,
        writer: &mut Instrumented<'_, W>,
        version: Version,
        outcome: RequestOutcome,
        given: &Body,
    ) -> Result<(), End>
        requires reply { HasAnswer outcome }
        requires text { length given.now ≤ MESSAGE_BYTES }
        requires room { taken_in self.old.tally < 2 ^ 64 - 1 }
        ensures answers { Answers result version outcome given.now
            (W.contents (stream_of writer.old)) (W.contents (stream_of writer.new))
            self.old.tally self.new.tally }
        ensures newest { self.new.newest ≡ self.old.newest }
        ensures caller { self.new.caller ≡ self.old.caller }
        ensures count { self.new.requests ≡ self.old.requests }
        ensures writer { KeepsStream writer.old writer.new (ends_by_write result) }
        ensures read { ends_by_read result ≡ false }
    {
        match outcome {
            RequestOutcome::Reply(reply) => {
                send(writer, &reply, given)?;
                Ok(())
            }
            RequestOutcome::Got(delivery) => {
                deliver(writer, version, delivery, given, &mut self.tally)
            }
            RequestOutcome::Left => Err(End::Left),
        }
    }

    /// Ends the session for this reason, and returns what it did.
    pub fn end(self, why: End) -> Served
        ensures { result ≡ record { «end» = why; tally = self.tally; requests = self.requests } }
    {
        Served {
            end: why,
            tally: self.tally,
            requests: self.requests,
        }
    }
}

/// What a session takes up.
#[derive(Clone, Copy, PartialEq, Eq, Debug)]
pub enum TakenUp {
    /// The hello, of this version.
    Hello(Version),
    /// A request for the handler, with the credentials of the hello.
    Request(Cred, Request),
}
