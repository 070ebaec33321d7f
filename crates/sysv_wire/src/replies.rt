//! Reads and writes replies.
ghost use Rattle.std.specs.Prelude.{◌≡◌, ◌≢◌, ◌≤◌, ◌+◌, ◌-◌, ◌++◌, ◌∷◌, ◌⊎◌, [], ℕ, List, Option, Some, Result, Err, length, ◌==◌, ◌↔◌, true, false, IsTrue, is_err, IfOk, IfErr, OnOk, OnErr};
ghost use Rattle.std.specs.Io.KnownBytes.{Appends, Consumes};
ghost use Rattle.sysv_model.specs.Instrumented.{stream_of, KeepsStream};
ghost use Rattle.sysv_model.specs.Writing.{AppendsPrefix};
ghost use Rattle.sysv_wire.specs.Faults.{Faults, is_read_fault};
ghost use Rattle.sysv_wire.specs.Frames.{Knows, op_number, version_number};
ghost use Rattle.sysv_wire.specs.declared.frame.Version.{Version as Versions};
ghost use Rattle.sysv_wire.specs.Numbers.{i64_bytes, u32_bytes};
ghost use Rattle.sysv_wire.specs.OneAnswer.{ReplyAt};
ghost use Rattle.sysv_wire.specs.Reading.{ReadsReply};
ghost use Rattle.sysv_wire.specs.Replies.{FitsContent, IsAnswer, IsAnswerLength, IsRestLength, count_fields, error_number, gives_text, hello_len as the_hello_len, content_fields, content_text, perm_fields, reply_encoding, row_fields, stat_fields, time_fields};
ghost use Rattle.sysv_wire.specs.ReplyFaults.{AnswerFault, RestFault};

use crate::content::{content_of, errno_of};
use crate::fault::Fault;
use crate::fields::Fields;
use crate::frame::{MAX_REPLY, Op, Version};
use crate::input::{fill_all, read_head, read_text};
use crate::number::only_i64;
use crate::output::write_both;
use crate::reply::{Reply, ReplyContent};
use std::io::{Read, Write};
use sysv_model::{Body, Instrumented, MESSAGE_BYTES, Perm, Row, Stat, WriteFault};

/// The maximum number of bytes in the fields of a reply, without its body.
const MAX_FIELDS: usize = 66;

/// The maximum number of bytes after the error of a reply.
const MAX_REST: usize = 8200;

/// Checks the head of a reply that a reader with this newest version reads: the version, then the
/// operation, and then the length, which must be one that the operation has with this error.
/// Returns the version, the operation and the number of bytes after the error.
fn judge(
    newest: Version,
    length: u32,
    version: u8,
    number: u8,
    error: u8,
) -> Result<(Version, Op, usize), Fault>
    requires { 3 ≤ length }
    ensures version { IfOk result (λ found. version_number found.0 ≡ version) }
    ensures op { IfOk result (λ found. op_number found.1 ≡ number) }
    ensures known { IfOk result (λ found. Knows newest found.0 found.1) }
    ensures rest { IfOk result (λ found. (found.2 ≡ length - 3)
        × IsRestLength found.0 found.1 error found.2) }
    ensures fault { IfErr result (AnswerFault newest length version number error) }
{
    let Some(version) = newest.up_to(version) else {
        return Err(Fault::BadField);
    };
    let Some(op) = Op::known(version, number) else {
        return Err(Fault::BadOp);
    };
    let rest = length as usize - 3;
    let is_wanted = if error == 0 {
        may_take(version, op, rest)
    } else {
        rest == 0
    };
    if is_wanted {
        Ok((version, op, rest))
    } else {
        Err(Fault::BadField)
    }
}

/// Returns the number of bytes after the error of a reply to a hello.
fn hello_len(version: Version) -> usize
    ensures { result ≡ the_hello_len version }
{
    match version {
        Version::One => 0,
        Version::Two => 4,
        Version::Three => 4,
    }
}

/// Returns whether the result of an operation may have `rest` bytes.
fn may_take(version: Version, op: Op, rest: usize) -> bool
    ensures { IsTrue result ↔ IsAnswerLength version op rest }
{
    match op {
        Op::Hello => rest == hello_len(version),
        Op::Get => rest == 4,
        Op::Snd => rest == 0,
        Op::Rcv => rest >= 8,
        Op::Stat => rest == 66,
        Op::Set => rest == 0,
        Op::Rm => rest == 0,
        Op::Row => rest == 1 || rest == 23,
        Op::Hold => rest >= 8,
        Op::Done => rest == 0,
        Op::Back => rest == 0,
    }
}

/// Reads `rest` bytes, the fields of the result of an operation other than a receive or a hold.
fn read_fields<R: Read>(
    reader: &mut Instrumented<'_, R>,
    version: Version,
    op: Op,
    rest: usize,
) -> Result<ReplyContent, Fault>
    requires len { IsAnswerLength version op rest }
    requires other { (op ≢ Op.Rcv) × (op ≢ Op.Hold) }
    ensures taken { IfOk result (λ content.
        Consumes (R.remaining (stream_of reader.old)) (R.remaining (stream_of reader.new))
        (content_fields content)) }
    ensures len { IfOk result (λ content. length (content_fields content) ≡ rest) }
    ensures answer { IfOk result (λ content. IsAnswer version (op_number op) content) }
    ensures fits { IfOk result FitsContent }
    ensures error { IfOk result (λ content. error_number content ≡ 0) }
    ensures text { IfOk result (λ content. gives_text content ≡ false) }
    ensures fault { IfErr result (λ fault.
        Faults (RestFault op 0 rest) fault (R.remaining (stream_of reader.old))
        (R.remaining (stream_of reader.new))) }
    ensures stream { KeepsStream reader.old reader.new (is_read_fault result) }
{
    let mut fields = [0; MAX_FIELDS];
    let fields = &mut fields[..rest];
    fill_all(reader, fields)?;
    content_of(version, op, fields)
}

/// Reads `rest` bytes, the type and the body of a message that a receive or a hold returns.
fn read_message<R: Read>(
    reader: &mut Instrumented<'_, R>,
    op: Op,
    rest: usize,
    text: &mut Body,
) -> Result<ReplyContent, Fault>
    requires least { 8 ≤ rest }
    requires most { rest ≤ MAX_REST }
    requires message { (op ≡ Op.Rcv) ⊎ (op ≡ Op.Hold) }
    requires empty { text.old ≡ [] }
    ensures taken { IfOk result (λ content.
        Consumes (R.remaining (stream_of reader.old)) (R.remaining (stream_of reader.new))
        (content_fields content ++ text.new)) }
    ensures len { IfOk result (λ content. length (content_fields content ++ text.new) ≡ rest) }
    ensures answer { (version : Versions) → IfOk result (λ content.
        IsAnswer version (op_number op) content) }
    ensures fits { IfOk result FitsContent }
    ensures error { IfOk result (λ content. error_number content ≡ 0) }
    ensures text { IfOk result (λ content. gives_text content ≡ true) }
    ensures fault { IfErr result (λ fault.
        Faults (RestFault op 0 rest) fault (R.remaining (stream_of reader.old))
        (R.remaining (stream_of reader.new))) }
    ensures stream { KeepsStream reader.old reader.new (is_read_fault result) }
{
    let mut bytes = [0; 8];
    fill_all(reader, &mut bytes)?;
    let mtype = only_i64(&bytes);
    read_text(reader, rest - 8, text)?;
    Ok(message_of(op, mtype))
}

/// Returns the result of a receive or a hold whose message has this type.
fn message_of(op: Op, mtype: i64) -> ReplyContent
    requires message { (op ≡ Op.Rcv) ⊎ (op ≡ Op.Hold) }
    ensures fields { content_fields result ≡ i64_bytes mtype }
    ensures answer { (version : Versions) → IsAnswer version (op_number op) result }
    ensures fits { FitsContent result }
    ensures error { error_number result ≡ 0 }
    ensures text { gives_text result ≡ true }
{
    match op {
        Op::Hold => ReplyContent::Hold { mtype },
        _ => ReplyContent::Rcv { mtype },
    }
}

/// Reads what follows the error of a reply.
fn read_rest<R: Read>(
    reader: &mut Instrumented<'_, R>,
    version: Version,
    op: Op,
    error: u8,
    rest: usize,
    text: &mut Body,
) -> Result<ReplyContent, Fault>
    requires len { IsRestLength version op error rest }
    requires most { rest ≤ MAX_REST }
    requires empty { text.old ≡ [] }
    ensures taken { IfOk result (λ content.
        Consumes (R.remaining (stream_of reader.old)) (R.remaining (stream_of reader.new))
        (content_fields content ++ content_text content text.new)) }
    ensures len { IfOk result (λ content.
        rest ≡ length (content_fields content ++ content_text content text.new)) }
    ensures answer { IfOk result (λ content. IsAnswer version (op_number op) content) }
    ensures fits { IfOk result FitsContent }
    ensures error { IfOk result (λ content. error_number content ≡ error) }
    ensures text { IfOk result (λ content. text.new ≡ content_text content text.new) }
    ensures fault { IfErr result (λ fault.
        Faults (RestFault op error rest) fault (R.remaining (stream_of reader.old))
        (R.remaining (stream_of reader.new))) }
    ensures stream { KeepsStream reader.old reader.new (is_read_fault result) }
{
    if error != 0 {
        let error = errno_of(error)?;
        return Ok(ReplyContent::Refused(error));
    }
    match op {
        Op::Rcv | Op::Hold => read_message(reader, op, rest, text),
        _ => read_fields(reader, version, op, rest),
    }
}

/// Reads one reply of version 1 or 2. Returns `None` if the input ends before its first byte.
///
/// The body of a received message is then in `text`. For any other reply and at the end of the
/// input, `text` is empty. After an error its contents are unspecified.
///
/// No byte after the reply is read, and after an error none after the bytes that caused it.
///
/// # Errors
///
/// The length is checked first, then the version, the operation, and the length for that operation
/// with this error. After the whole frame was read, the error, the mark of a row and the mode are
/// checked.
///
/// - `Truncated` if the input ends within the frame.
/// - `TooLong` if the length is above `MAX_REPLY`.
/// - `BadField` if the length is below `MIN_REPLY`, the version is neither 1 nor 2, the operation
///   does not have this length with this version and error, the error has no name, the mark of a
///   row is not the one for its length, or a mode is above 0o777.
/// - `BadOp` if the operation is above 7.
/// - `Read` if and only if the reader fails.
pub fn read_reply<R: Read>(
    reader: &mut Instrumented<'_, R>,
    text: &mut Body,
) -> Result<Option<Reply>, Fault>
    ensures reads { ReadsReply Version.Two (R.remaining (stream_of reader.old))
        (R.remaining (stream_of reader.new)) result text.new }
    // The result is the one that fits what the reader had left, unless the reader fails.
    ensures only { (input : List ℕ) (answer : Result (Option Reply) Fault) →
        R.remaining (stream_of reader.old) ≡ Some input → ReplyAt Version.Two input answer →
        (result ≡ answer) ⊎ (result ≡ Err Fault.Read) }
    // The reader stays the same, and fails in this call if and only if the result is `Read`.
    ensures stream { KeepsStream reader.old reader.new (is_read_fault result) }
{
    read_reply_up_to(Version::Two, reader, text)
}

/// Reads one reply of a version up to `newest`, like `read_reply`. The body of a held message is
/// then in `text` too.
///
/// # Errors
///
/// Those of `read_reply`, with these versions for 1 and 2, and the number of the version's last
/// operation for 7.
pub fn read_reply_up_to<R: Read>(
    newest: Version,
    reader: &mut Instrumented<'_, R>,
    text: &mut Body,
) -> Result<Option<Reply>, Fault>
    ensures reads { ReadsReply newest (R.remaining (stream_of reader.old))
        (R.remaining (stream_of reader.new)) result text.new }
    // The result is the one that fits what the reader had left, unless the reader fails.
    ensures only { (input : List ℕ) (answer : Result (Option Reply) Fault) →
        R.remaining (stream_of reader.old) ≡ Some input → ReplyAt newest input answer →
        (result ≡ answer) ⊎ (result ≡ Err Fault.Read) }
    // The reader stays the same, and fails in this call if and only if the result is `Read`.
    ensures stream { KeepsStream reader.old reader.new (is_read_fault result) }
{
    next_reply(newest, reader, text)
}

/// Reads one reply, like `read_reply_up_to`. The contract states only what was taken of the input.
fn next_reply<R: Read>(
    newest: Version,
    reader: &mut Instrumented<'_, R>,
    text: &mut Body,
) -> Result<Option<Reply>, Fault>
    ensures reads { ReadsReply newest (R.remaining (stream_of reader.old))
        (R.remaining (stream_of reader.new)) result text.new }
    ensures stream { KeepsStream reader.old reader.new (is_read_fault result) }
{
    text.clear();
    let mut head = [0; 3];
    let Some(length) = read_head(reader, MAX_REPLY, &mut head)? else {
        return Ok(None);
    };
    let (version, op, rest) = judge(newest, length, head[0], head[1], head[2])?;
    let result = read_rest(reader, version, op, head[2], rest, text)?;
    Ok(Some(Reply {
        version,
        op: op.number(),
        result,
    }))
}

/// Writes one reply, and the body in `text` if the reply carries a message. For any other reply
/// `text` is ignored. It calls only `write`, and flushes nothing.
///
/// # Errors
///
/// - `WriteFault` if and only if a write fails or takes no byte. The writer has then taken a prefix
///   of the reply.
///
/// # Conditions
///
/// - The reply is one that its operation has in its version.
/// - `text` has at most 8,192 bytes.
pub fn write_reply<W: Write>(
    writer: &mut Instrumented<'_, W>,
    reply: &Reply,
    text: &Body,
) -> Result<(), WriteFault>
    requires answer { IsAnswer reply.now.version reply.now.op reply.now.result }
    requires text { length text.now ≤ MESSAGE_BYTES }
    ensures ok { OnOk result (Appends (W.contents (stream_of writer.old))
        (W.contents (stream_of writer.new)) (reply_encoding reply.now text.now)) }
    ensures err { OnErr result (AppendsPrefix (W.contents (stream_of writer.old))
        (W.contents (stream_of writer.new)) (reply_encoding reply.now text.now)) }
    // The writer stays the same, and fails in this call if and only if the result is an error.
    ensures stream { KeepsStream writer.old writer.new (is_err result) }
{
    let mut head = Fields::new();
    if takes_text(&reply.result) {
        put_head(&mut head, reply, text.len());
        write_both(writer, head.bytes(), text)
    } else {
        put_head(&mut head, reply, 0);
        writer.write_out(head.bytes())
    }
}

/// Returns whether a reply has a body after its fields.
fn takes_text(content: &ReplyContent) -> bool
    ensures { result ≡ gives_text content.now }
{
    matches!(
        content,
        ReplyContent::Rcv { .. } | ReplyContent::Hold { .. }
    )
}

/// Returns the number of the error, 0 if there is none.
fn error_of(content: &ReplyContent) -> u8
    ensures { result ≡ error_number content.now }
{
    match content {
        ReplyContent::Refused(error) => error.number(),
        ReplyContent::Hello => 0,
        ReplyContent::HelloSlots { .. } => 0,
        ReplyContent::Get { .. } => 0,
        ReplyContent::Snd => 0,
        ReplyContent::Rcv { .. } => 0,
        ReplyContent::Stat(_) => 0,
        ReplyContent::Set => 0,
        ReplyContent::Rm => 0,
        ReplyContent::Row(_) => 0,
        ReplyContent::Hold { .. } => 0,
        ReplyContent::Done => 0,
        ReplyContent::Back => 0,
    }
}

/// Returns the number of bytes in the fields of a result, without its body.
#[tactic(auto, unfolding(crate::specs::Numbers::u16_bytes, crate::specs::Numbers::u32_bytes, crate::specs::Numbers::u64_bytes, crate::specs::Numbers::i32_bytes, crate::specs::Numbers::i64_bytes, crate::specs::Replies::perm_fields, crate::specs::Replies::count_fields, crate::specs::Replies::time_fields, crate::specs::Replies::stat_fields, crate::specs::Replies::row_fields))]
fn len_of(content: &ReplyContent) -> usize
    ensures fields { result ≡ length (content_fields content.now) }
    ensures most { result ≤ MAX_FIELDS }
{
    match content {
        ReplyContent::Refused(_) => 0,
        ReplyContent::Hello => 0,
        ReplyContent::HelloSlots { .. } => 4,
        ReplyContent::Get { .. } => 4,
        ReplyContent::Snd => 0,
        ReplyContent::Rcv { .. } => 8,
        ReplyContent::Stat(_) => 66,
        ReplyContent::Set => 0,
        ReplyContent::Rm => 0,
        ReplyContent::Row(None) => 1,
        ReplyContent::Row(Some(_)) => 23,
        ReplyContent::Hold { .. } => 8,
        ReplyContent::Done => 0,
        ReplyContent::Back => 0,
    }
}

/// Writes the length, version, operation, error and fields of a reply into an empty frame. The body
/// of the reply has `text_len` bytes.
fn put_head(frame: &mut Fields, reply: &Reply, text_len: usize)
    requires empty { frame.old ≡ [] }
    requires text { text_len ≤ MESSAGE_BYTES }
    ensures { frame.new ≡ u32_bytes (3 + length (content_fields reply.now.result) + text_len)
        ++ (version_number reply.now.version ∷ reply.now.op ∷ error_number reply.now.result
        ∷ content_fields reply.now.result) }
{
    frame.put_u32((3 + len_of(&reply.result) + text_len) as u32);
    frame.put_u8(reply.version.number());
    frame.put_u8(reply.op);
    frame.put_u8(error_of(&reply.result));
    put_fields(frame, &reply.result);
}

/// Appends the fields of a result.
fn put_fields(fields: &mut Fields, content: &ReplyContent)
    requires { length fields.old ≤ 7 }
    ensures { fields.new ≡ fields.old ++ content_fields content.now }
{
    match *content {
        ReplyContent::Refused(_) => {}
        ReplyContent::Hello => {}
        ReplyContent::HelloSlots { slots } => fields.put_u32(slots),
        ReplyContent::Get { id } => fields.put_i32(id),
        ReplyContent::Snd => {}
        ReplyContent::Rcv { mtype } => fields.put_i64(mtype),
        ReplyContent::Stat(stat) => put_stat(fields, stat),
        ReplyContent::Set => {}
        ReplyContent::Rm => {}
        ReplyContent::Row(None) => fields.put_u8(0),
        ReplyContent::Row(Some(row)) => {
            fields.put_u8(1);
            put_row(fields, row);
        }
        ReplyContent::Hold { mtype } => fields.put_i64(mtype),
        ReplyContent::Done => {}
        ReplyContent::Back => {}
    }
}

/// Appends a row.
#[tactic(auto, using(std::proofs::Common::append_assoc), unfolding(crate::specs::Replies::row_fields))]
fn put_row(fields: &mut Fields, row: Row)
    requires { length fields.old ≤ 8 }
    ensures after { fields.new ≡ fields.old ++ row_fields row }
    ensures len { length fields.new ≡ length fields.old + 22 }
{
    fields.put_i32(row.id);
    fields.put_i32(row.key);
    fields.put_u32(row.uid);
    fields.put_u16(row.mode);
    fields.put_u32(row.cbytes);
    fields.put_u32(row.qnum);
}

/// Appends a queue's attributes.
#[tactic(auto, using(std::proofs::Common::append_assoc), unfolding(crate::specs::Replies::stat_fields))]
fn put_stat(fields: &mut Fields, stat: Stat)
    requires { length fields.old ≤ 7 }
    ensures after { fields.new ≡ fields.old ++ stat_fields stat }
    ensures len { length fields.new ≡ length fields.old + 66 }
{
    fields.put_i32(stat.key);
    put_perm(fields, stat.perm);
    put_counts(fields, stat);
    put_times(fields, stat);
}

/// Appends the owner, creator and mode.
#[tactic(auto, using(std::proofs::Common::append_assoc), unfolding(crate::specs::Replies::perm_fields))]
fn put_perm(fields: &mut Fields, perm: Perm)
    requires { length fields.old ≤ 11 }
    ensures after { fields.new ≡ fields.old ++ perm_fields perm }
    ensures len { length fields.new ≡ length fields.old + 18 }
{
    fields.put_u32(perm.uid);
    fields.put_u32(perm.gid);
    fields.put_u32(perm.cuid);
    fields.put_u32(perm.cgid);
    fields.put_u16(perm.mode);
}

/// Appends the numbers of queued bytes and messages, the maximum number of bytes, and the processes
/// that sent and received last.
#[tactic(auto, using(std::proofs::Common::append_assoc), unfolding(crate::specs::Replies::count_fields))]
fn put_counts(fields: &mut Fields, stat: Stat)
    requires { length fields.old ≤ 29 }
    ensures after { fields.new ≡ fields.old ++ count_fields stat }
    ensures len { length fields.new ≡ length fields.old + 20 }
{
    fields.put_u32(stat.cbytes);
    fields.put_u32(stat.qnum);
    fields.put_u32(stat.qbytes);
    fields.put_u32(stat.lspid);
    fields.put_u32(stat.lrpid);
}

/// Appends the timestamps.
#[tactic(auto, using(std::proofs::Common::append_assoc), unfolding(crate::specs::Replies::time_fields))]
fn put_times(fields: &mut Fields, stat: Stat)
    requires { length fields.old ≤ 49 }
    ensures after { fields.new ≡ fields.old ++ time_fields stat }
    ensures len { length fields.new ≡ length fields.old + 24 }
{
    fields.put_u64(stat.stime);
    fields.put_u64(stat.rtime);
    fields.put_u64(stat.ctime);
}
