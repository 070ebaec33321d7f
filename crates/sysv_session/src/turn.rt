//! What a session reads and writes for one request.
ghost use Rattle.std.specs.Prelude.{◌≡◌, ◌<◌, ◌≤◌, ◌-◌, ◌^◌, false, is_err, length, OnOk, OnErr};
ghost use Rattle.std.specs.Io.KnownBytes.{Appends};
ghost use Rattle.sysv_model.specs.declared.limits.TheConstants.{MESSAGE_BYTES};
ghost use Rattle.sysv_queue.specs.Tally.{taken_in};
ghost use Rattle.sysv_session.specs.Answers.{message_reply as the_reply};
ghost use Rattle.sysv_model.specs.Instrumented.{stream_of, KeepsStream};
ghost use Rattle.sysv_session.specs.Failing.{ends_by_read, ends_by_write};
ghost use Rattle.sysv_session.specs.Input.{Greets, ReadsAsked};
ghost use Rattle.sysv_session.specs.Output.{hello_reply as the_hello_reply};
ghost use Rattle.sysv_session.specs.Turn.{Answers};
ghost use Rattle.sysv_wire.specs.Faults.{is_read_fault};
ghost use Rattle.sysv_wire.specs.Replies.{IsAnswer, reply_encoding};
ghost use Rattle.sysv_model.specs.Writing.{AppendsPrefix};

use crate::handler::RequestOutcome;
use crate::served::End;
use std::io::{Read, Write};
use sysv_model::{Body, Cred, Instrumented};
use sysv_queue::{Delivery, Tally};
use sysv_wire::{
    Ask, Fault, Op, Reply, ReplyContent, Request, Version, WriteFault, read_request_up_to,
    write_reply,
};

/// Reads the first request, of a version up to `newest`. Returns the version and the credentials of
/// the hello.
pub(crate) fn read_hello<R: Read>(
    newest: Version,
    reader: &mut Instrumented<'_, R>,
    text: &mut Body,
) -> Result<(Version, Cred), End>
    ensures greets { Greets newest result (R.remaining (stream_of reader.old))
        (R.remaining (stream_of reader.new)) }
    ensures stream { KeepsStream reader.old reader.new (ends_by_read result) }
    ensures write { ends_by_write result ≡ false }
{
    match read_request_up_to(newest, reader, text)? {
        Some(
            Request {
                version,
                ask: Ask::Hello(cred),
            },
        ) => Ok((version, cred)),
        Some(_) => Err(End::NoHello),
        None => Err(End::Ended),
    }
}

/// Returns the reply to a hello of this version.
pub fn hello_reply(version: Version, slots: u32) -> Reply
    ensures reply { result ≡ the_hello_reply version slots }
    ensures answer { IsAnswer result.version result.op result.result }
{
    let result = match version {
        Version::One => ReplyContent::Hello,
        Version::Two => ReplyContent::HelloSlots { slots },
        Version::Three => ReplyContent::HelloSlots { slots },
    };
    Reply {
        version,
        op: Op::Hello.number(),
        result,
    }
}

/// Reads a later request in a session of this version, which reads versions up to `newest`. Returns
/// `None` at the end of the input.
#[inline(always)]
pub(crate) fn read_asked<R: Read>(
    newest: Version,
    reader: &mut Instrumented<'_, R>,
    version: Version,
    text: &mut Body,
) -> Result<Option<Request>, Fault>
    ensures reads { ReadsAsked newest version (R.remaining (stream_of reader.old))
        (R.remaining (stream_of reader.new)) result text.new }
    ensures stream { KeepsStream reader.old reader.new (is_read_fault result) }
{
    match read_request_up_to(newest, reader, text)? {
        Some(request) if request.version != version => Err(Fault::BadField),
        Some(
            Request {
                ask: Ask::Hello(_),
                ..
            },
        ) => Err(Fault::BadOp),
        found => Ok(found),
    }
}

/// Writes a reply and flushes it.
pub(crate) fn send<W: Write>(
    writer: &mut Instrumented<'_, W>,
    reply: &Reply,
    text: &Body,
) -> Result<(), WriteFault>
    requires answer { IsAnswer reply.now.version reply.now.op reply.now.result }
    requires text { length text.now ≤ MESSAGE_BYTES }
    ensures ok { OnOk result (Appends (W.contents (stream_of writer.old))
        (W.contents (stream_of writer.new)) (reply_encoding reply.now text.now)) }
    ensures err { OnErr result (AppendsPrefix (W.contents (stream_of writer.old))
        (W.contents (stream_of writer.new)) (reply_encoding reply.now text.now)) }
    ensures stream { KeepsStream writer.old writer.new (is_err result) }
{
    write_reply(writer, reply, text)?;
    match writer.flush() {
        Ok(()) => Ok(()),
        Err(_) => Err(WriteFault),
    }
}

/// Returns the reply that carries the message.
pub(crate) fn message_reply(version: Version, delivery: &Delivery) -> Reply
    ensures { result ≡ the_reply version delivery.now.mtype }
{
    Reply {
        version,
        op: Op::Rcv.number(),
        result: ReplyContent::Rcv {
            mtype: delivery.mtype(),
        },
    }
}

/// Writes a message that the handler returned, and spends its delivery: as written if the reply was
/// written whole and flushed, otherwise as lost.
pub(crate) fn deliver<W: Write>(
    writer: &mut Instrumented<'_, W>,
    version: Version,
    delivery: Delivery,
    given: &Body,
    tally: &mut Tally,
) -> Result<(), End>
    requires text { length given.now ≤ MESSAGE_BYTES }
    requires room { taken_in tally.old < 2 ^ 64 - 1 }
    ensures answers { Answers result version (RequestOutcome.Got delivery) given.now
        (W.contents (stream_of writer.old))
        (W.contents (stream_of writer.new)) tally.old tally.new }
    ensures stream { KeepsStream writer.old writer.new (ends_by_write result) }
    ensures read { ends_by_read result ≡ false }
{
    let reply = message_reply(version, &delivery);
    match send(writer, &reply, given) {
        Ok(()) => {
            delivery.written(tally);
            Ok(())
        }
        Err(WriteFault) => {
            delivery.lost(tally);
            Err(End::Write)
        }
    }
}
