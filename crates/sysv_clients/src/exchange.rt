//! One request and its reply.
ghost use Rattle.std.specs.Prelude.{◌≡◌, is_err, OnOk, OnErr};
ghost use Rattle.std.specs.Io.KnownBytes.{Appends};
ghost use Rattle.sysv_clients.specs.Asks.{request_in, request_of};
ghost use Rattle.sysv_clients.specs.Blame.{ExchangedBy, HeardBy};
ghost use Rattle.sysv_clients.specs.Dialogue.{Exchanges, ExchangesIn, Hears, HearsIn};
ghost use Rattle.sysv_model.specs.Instrumented.{failures_of, stream_name, stream_of, KeepsStream};
ghost use Rattle.sysv_model.specs.Writing.{AppendsPrefix};
ghost use Rattle.sysv_wire.specs.Requests.{request_encoding};

use crate::fault::ClientFault;
use std::io::{Read, Write};
use sysv_model::{Body, Instrumented};
use sysv_wire::{
    Ask, ReplyContent, Request, Version, WriteFault, read_reply, read_reply_up_to, write_request,
};

/// The version in which clients write their requests, unless they hold messages.
const SPOKEN: Version = Version::Two;

/// Writes a request, flushes it and reads its reply. Returns the result of the operation; the body
/// of a message is then in `given`.
pub(crate) fn exchange<R: Read, W: Write>(
    reader: &mut Instrumented<'_, R>,
    writer: &mut Instrumented<'_, W>,
    ask: Ask,
    text: &Body,
    given: &mut Body,
) -> Result<ReplyContent, ClientFault>
    ensures exchanges { Exchanges (request_encoding (request_of ask) text.now) ask result
        (R.remaining (stream_of reader.old)) (R.remaining (stream_of reader.new))
        (W.contents (stream_of writer.old)) (W.contents (stream_of writer.new)) given.new }
    ensures same_reader { stream_name reader.new ≡ stream_name reader.old }
    ensures same_writer { stream_name writer.new ≡ stream_name writer.old }
    ensures failed { ExchangedBy ask result (failures_of reader.old) (failures_of reader.new)
        (failures_of writer.old) (failures_of writer.new)
        (R.remaining (stream_of reader.old)) (R.remaining (stream_of reader.new)) }
{
    match send(writer, ask, text) {
        Ok(()) => hear(reader, ask, given),
        Err(WriteFault) => Err(ClientFault::NoReply),
    }
}

/// Writes a request and reads its reply like `exchange`, from a reader whose failures are not
/// counted.
pub(crate) fn exchange_plain<R: Read, W: Write>(
    reader: &mut R,
    writer: &mut Instrumented<'_, W>,
    ask: Ask,
    text: &Body,
    given: &mut Body,
) -> Result<ReplyContent, ClientFault>
    ensures exchanges { Exchanges (request_encoding (request_of ask) text.now) ask result
        (R.remaining reader.old) (R.remaining reader.new)
        (W.contents (stream_of writer.old)) (W.contents (stream_of writer.new)) given.new }
    ensures same_writer { stream_name writer.new ≡ stream_name writer.old }
{
    match send(writer, ask, text) {
        Ok(()) => hear_plain(reader, ask, given),
        Err(WriteFault) => Err(ClientFault::NoReply),
    }
}

/// Writes a request and flushes it.
fn send<W: Write>(writer: &mut Instrumented<'_, W>, ask: Ask, text: &Body) -> Result<(), WriteFault>
    ensures ok { OnOk result (Appends (W.contents (stream_of writer.old))
        (W.contents (stream_of writer.new)) (request_encoding (request_of ask) text.now)) }
    ensures err { OnErr result (AppendsPrefix (W.contents (stream_of writer.old))
        (W.contents (stream_of writer.new)) (request_encoding (request_of ask) text.now)) }
    ensures stream { KeepsStream writer.old writer.new (is_err result) }
{
    send_in(SPOKEN, writer, ask, text)
}

/// Writes a request, and flushes nothing.
pub(crate) fn put<W: Write>(
    writer: &mut Instrumented<'_, W>,
    ask: Ask,
    text: &Body,
) -> Result<(), WriteFault>
    ensures ok { OnOk result (Appends (W.contents (stream_of writer.old))
        (W.contents (stream_of writer.new)) (request_encoding (request_of ask) text.now)) }
    ensures err { OnErr result (AppendsPrefix (W.contents (stream_of writer.old))
        (W.contents (stream_of writer.new)) (request_encoding (request_of ask) text.now)) }
    ensures stream { KeepsStream writer.old writer.new (is_err result) }
{
    put_in(SPOKEN, writer, ask, text)
}

/// Writes a request in this version, and flushes nothing.
fn put_in<W: Write>(
    version: Version,
    writer: &mut Instrumented<'_, W>,
    ask: Ask,
    text: &Body,
) -> Result<(), WriteFault>
    ensures ok { OnOk result (Appends (W.contents (stream_of writer.old))
        (W.contents (stream_of writer.new)) (request_encoding (request_in version ask) text.now)) }
    ensures err { OnErr result (AppendsPrefix (W.contents (stream_of writer.old))
        (W.contents (stream_of writer.new)) (request_encoding (request_in version ask) text.now)) }
    ensures stream { KeepsStream writer.old writer.new (is_err result) }
{
    let request = Request { version, ask };
    write_request(writer, &request, text)
}

/// Writes a request in this version, flushes it and reads its reply. Returns the result of the
/// operation; the body of a message is then in `given`.
pub(crate) fn exchange_in<R: Read, W: Write>(
    version: Version,
    reader: &mut R,
    writer: &mut Instrumented<'_, W>,
    ask: Ask,
    text: &Body,
    given: &mut Body,
) -> Result<ReplyContent, ClientFault>
    ensures exchanges { ExchangesIn version (request_encoding (request_in version ask) text.now) ask
        result (R.remaining reader.old) (R.remaining reader.new)
        (W.contents (stream_of writer.old)) (W.contents (stream_of writer.new)) given.new }
    ensures same_writer { stream_name writer.new ≡ stream_name writer.old }
{
    match send_in(version, writer, ask, text) {
        Ok(()) => hear_in(version, reader, ask, given),
        Err(WriteFault) => Err(ClientFault::NoReply),
    }
}

/// Writes a request in this version and flushes it.
fn send_in<W: Write>(
    version: Version,
    writer: &mut Instrumented<'_, W>,
    ask: Ask,
    text: &Body,
) -> Result<(), WriteFault>
    ensures ok { OnOk result (Appends (W.contents (stream_of writer.old))
        (W.contents (stream_of writer.new)) (request_encoding (request_in version ask) text.now)) }
    ensures err { OnErr result (AppendsPrefix (W.contents (stream_of writer.old))
        (W.contents (stream_of writer.new)) (request_encoding (request_in version ask) text.now)) }
    ensures stream { KeepsStream writer.old writer.new (is_err result) }
{
    put_in(version, writer, ask, text)?;
    match writer.flush() {
        Ok(()) => Ok(()),
        Err(_) => Err(WriteFault),
    }
}

/// Reads the reply in this version to a request.
fn hear_in<R: Read>(
    version: Version,
    reader: &mut R,
    ask: Ask,
    given: &mut Body,
) -> Result<ReplyContent, ClientFault>
    ensures { HearsIn version ask result (R.remaining reader.old) (R.remaining reader.new)
        given.new }
{
    match read_reply_up_to(version, &mut Instrumented::new(reader), given) {
        Ok(Some(reply)) if reply.version == version && reply.op == ask.op().number() =>
            match reply.result {
                ReplyContent::Refused(error) => Err(ClientFault::Refused(error)),
                answer => Ok(answer),
            },
        _ => Err(ClientFault::NoReply),
    }
}

/// Reads the reply to a request from a reader whose failures are not counted.
pub(crate) fn hear_plain<R: Read>(
    reader: &mut R,
    ask: Ask,
    given: &mut Body,
) -> Result<ReplyContent, ClientFault>
    ensures { Hears ask result (R.remaining reader.old) (R.remaining reader.new) given.new }
{
    hear(&mut Instrumented::new(reader), ask, given)
}

/// Reads the reply to a request.
pub(crate) fn hear<R: Read>(
    reader: &mut Instrumented<'_, R>,
    ask: Ask,
    given: &mut Body,
) -> Result<ReplyContent, ClientFault>
    ensures hears { Hears ask result (R.remaining (stream_of reader.old))
        (R.remaining (stream_of reader.new)) given.new }
    ensures same { stream_name reader.new ≡ stream_name reader.old }
    ensures failed { HeardBy ask result (failures_of reader.old) (failures_of reader.new)
        (R.remaining (stream_of reader.old)) (R.remaining (stream_of reader.new)) }
{
    match read_reply(reader, given) {
        Ok(Some(reply)) if reply.version == SPOKEN && reply.op == ask.op().number() =>
            match reply.result {
                ReplyContent::Refused(error) => Err(ClientFault::Refused(error)),
                answer => Ok(answer),
            },
        _ => Err(ClientFault::NoReply),
    }
}
