//! Reads and writes requests.
ghost use Rattle.std.specs.Prelude.{◌≡◌, ◌≤◌, ◌+◌, ◌-◌, ◌<◌, ◌++◌, ◌∷◌, ◌⊎◌, [], ℕ, List, Option, Some, Result, Err, length, is_err, IfOk, IfErr, OnOk, OnErr};
ghost use Rattle.std.specs.Io.KnownBytes.{Appends, Consumes};
ghost use Rattle.sysv_model.specs.Instrumented.{stream_of, KeepsStream};
ghost use Rattle.sysv_model.specs.Writing.{AppendsPrefix};
ghost use Rattle.sysv_wire.specs.Faults.{Faults, Breaks, IsShorter, OpFault, is_read_fault};
ghost use Rattle.sysv_wire.specs.Frames.{Knows, op_number, version_number};
ghost use Rattle.sysv_wire.specs.Numbers.{u32_bytes};
ghost use Rattle.sysv_wire.specs.OneAnswer.{RequestAt};
ghost use Rattle.sysv_wire.specs.Reading.{ReadsRequest};
ghost use Rattle.sysv_wire.specs.Requests.{FitsAsk, IsRequestLength, ask_fields, ask_text, fields_len, has_text, op_of, request_encoding};

use crate::fault::Fault;
use crate::fields::Fields;
use crate::frame::{MAX_REQUEST, Op, Version};
use crate::input::{fill_all, read_head, read_text};
use crate::number::{only_i32, only_u32, take_i32, take_i64, take_u32};
use crate::output::write_both;
use crate::request::{Ask, Request};
use bitflags::Flags as Set;
use std::io::{Read, Write};
use sysv_model::{BODY_ROOM, Body, Cred, Flags, Instrumented, SetTo, WriteFault};

/// The maximum number of bytes in the fields of a request, without its body.
const MAX_FIELDS: usize = 24;

/// Returns the number of bytes in the fields of a request, without its body.
fn len_of(op: Op) -> usize
    ensures { result ≡ fields_len op }
{
    match op {
        Op::Hello => 12,
        Op::Get => 8,
        Op::Snd => 16,
        Op::Rcv | Op::Set => 20,
        Op::Stat | Op::Rm | Op::Row => 4,
        Op::Hold => 24,
        Op::Done | Op::Back => 0,
    }
}

/// Returns whether a request has a body after its fields.
fn takes_text(op: Op) -> bool
    ensures { result ≡ has_text op }
{
    matches!(op, Op::Snd)
}

impl Version {
    /// Checks the head of a request that a reader with this newest version reads: the version, then
    /// the operation, and then the length, which must be one that the operation has.
    pub(crate) fn judge(self, length: u32, version: u8, number: u8) -> Result<(Version, Op), Fault>
        ensures version { IfOk result (λ found. version_number found.0 ≡ version) }
        ensures op { IfOk result (λ found. (op_number found.1 ≡ number)
            × IsRequestLength found.1 length) }
        ensures known { IfOk result (λ found. Knows self found.0 found.1) }
        ensures fault { IfErr result (OpFault self length version number) }
    {
        let Some(version) = self.up_to(version) else {
            return Err(Fault::BadField);
        };
        let Some(op) = Op::known(version, number) else {
            return Err(Fault::BadOp);
        };
        let length = length as usize;
        let least = 2 + len_of(op);
        let is_wanted = if takes_text(op) {
            length >= least
        } else {
            length == least
        };
        if is_wanted {
            Ok((version, op))
        } else {
            Err(Fault::BadField)
        }
    }
}

/// Returns the request with these fields.
fn ask_of(op: Op, fields: &[u8]) -> Ask
    requires { length fields.now ≡ fields_len op }
    ensures op { op_of result ≡ op }
    ensures encoded { fields.now ≡ ask_fields result }
    ensures fits { FitsAsk result }
{
    match op {
        Op::Hello => hello_of(fields),
        Op::Get => get_of(fields),
        Op::Snd => snd_of(fields),
        Op::Rcv => rcv_of(fields),
        Op::Stat => stat_of(fields),
        Op::Set => set_of(fields),
        Op::Rm => rm_of(fields),
        Op::Row => row_of(fields),
        Op::Hold => hold_of(fields),
        Op::Done => Ask::Done,
        Op::Back => Ask::Back,
    }
}

#[tactic(auto, unfolding(crate::specs::Requests::ask_fields))]
fn hello_of(fields: &[u8]) -> Ask
    requires { length fields.now ≡ fields_len Op.Hello }
    ensures op { op_of result ≡ Op.Hello }
    ensures encoded { fields.now ≡ ask_fields result }
    ensures fits { FitsAsk result }
{
    let (uid, fields) = take_u32(fields);
    let (gid, fields) = take_u32(fields);
    let pid = only_u32(fields);
    Ask::Hello(Cred { uid, gid, pid })
}

#[tactic(auto, unfolding(crate::specs::Requests::ask_fields))]
fn get_of(fields: &[u8]) -> Ask
    requires { length fields.now ≡ fields_len Op.Get }
    ensures op { op_of result ≡ Op.Get }
    ensures encoded { fields.now ≡ ask_fields result }
    ensures fits { FitsAsk result }
{
    let (key, fields) = take_i32(fields);
    let flags = Flags::from_bits_retain(only_u32(fields));
    Ask::Get { key, flags }
}

#[tactic(auto, unfolding(crate::specs::Requests::ask_fields))]
fn snd_of(fields: &[u8]) -> Ask
    requires { length fields.now ≡ fields_len Op.Snd }
    ensures op { op_of result ≡ Op.Snd }
    ensures encoded { fields.now ≡ ask_fields result }
    ensures fits { FitsAsk result }
{
    let (id, fields) = take_i32(fields);
    let (mtype, fields) = take_i64(fields);
    let flags = Flags::from_bits_retain(only_u32(fields));
    Ask::Snd { id, mtype, flags }
}

#[tactic(auto, unfolding(crate::specs::Requests::ask_fields))]
fn rcv_of(fields: &[u8]) -> Ask
    requires { length fields.now ≡ fields_len Op.Rcv }
    ensures op { op_of result ≡ Op.Rcv }
    ensures encoded { fields.now ≡ ask_fields result }
    ensures fits { FitsAsk result }
{
    let (id, fields) = take_i32(fields);
    let (size, fields) = take_u32(fields);
    let (mtype, fields) = take_i64(fields);
    let flags = Flags::from_bits_retain(only_u32(fields));
    Ask::Rcv {
        id,
        size,
        mtype,
        flags,
    }
}

#[tactic(auto, unfolding(crate::specs::Requests::ask_fields))]
fn stat_of(fields: &[u8]) -> Ask
    requires { length fields.now ≡ fields_len Op.Stat }
    ensures op { op_of result ≡ Op.Stat }
    ensures encoded { fields.now ≡ ask_fields result }
    ensures fits { FitsAsk result }
{
    Ask::Stat {
        id: only_i32(fields),
    }
}

#[tactic(auto, unfolding(crate::specs::Requests::ask_fields))]
fn set_of(fields: &[u8]) -> Ask
    requires { length fields.now ≡ fields_len Op.Set }
    ensures op { op_of result ≡ Op.Set }
    ensures encoded { fields.now ≡ ask_fields result }
    ensures fits { FitsAsk result }
{
    let (id, fields) = take_i32(fields);
    let (uid, fields) = take_u32(fields);
    let (gid, fields) = take_u32(fields);
    let (mode, fields) = take_u32(fields);
    let qbytes = only_u32(fields);
    let to = SetTo {
        uid,
        gid,
        mode,
        qbytes,
    };
    Ask::Set { id, to }
}

#[tactic(auto, unfolding(crate::specs::Requests::ask_fields))]
fn rm_of(fields: &[u8]) -> Ask
    requires { length fields.now ≡ fields_len Op.Rm }
    ensures op { op_of result ≡ Op.Rm }
    ensures encoded { fields.now ≡ ask_fields result }
    ensures fits { FitsAsk result }
{
    Ask::Rm {
        id: only_i32(fields),
    }
}

#[tactic(auto, unfolding(crate::specs::Requests::ask_fields))]
fn row_of(fields: &[u8]) -> Ask
    requires { length fields.now ≡ fields_len Op.Row }
    ensures op { op_of result ≡ Op.Row }
    ensures encoded { fields.now ≡ ask_fields result }
    ensures fits { FitsAsk result }
{
    Ask::Row {
        slot: only_u32(fields),
    }
}

#[tactic(auto, unfolding(crate::specs::Requests::ask_fields))]
fn hold_of(fields: &[u8]) -> Ask
    requires { length fields.now ≡ fields_len Op.Hold }
    ensures op { op_of result ≡ Op.Hold }
    ensures encoded { fields.now ≡ ask_fields result }
    ensures fits { FitsAsk result }
{
    let (id, fields) = take_i32(fields);
    let (size, fields) = take_u32(fields);
    let (mtype, fields) = take_i64(fields);
    let (flags, fields) = take_u32(fields);
    Ask::Hold {
        id,
        size,
        mtype,
        flags: Flags::from_bits_retain(flags),
        seconds: only_u32(fields),
    }
}

/// Reads the fields and the body of a request whose length is `whole`.
fn read_ask<R: Read>(
    reader: &mut Instrumented<'_, R>,
    whole: u32,
    op: Op,
    text: &mut Body,
) -> Result<Ask, Fault>
    requires wanted { IsRequestLength op whole }
    requires most { whole ≤ MAX_REQUEST }
    requires empty { text.old ≡ [] }
    ensures taken { IfOk result (λ ask.
        Consumes (R.remaining (stream_of reader.old)) (R.remaining (stream_of reader.new))
        (ask_fields ask ++ ask_text op text.new)) }
    ensures op { IfOk result (λ ask. op_of ask ≡ op) }
    ensures fits { IfOk result FitsAsk }
    ensures len { IfOk result (λ ask. whole ≡ 2 + length (ask_fields ask ++ ask_text op text.new)) }
    ensures text { OnOk result (text.new ≡ ask_text op text.new) }
    ensures fault { IfErr result (λ fault.
        Faults (Breaks (IsShorter (whole - 2))) fault (R.remaining (stream_of reader.old))
        (R.remaining (stream_of reader.new))) }
    ensures stream { KeepsStream reader.old reader.new (is_read_fault result) }
{
    let mut fields = [0; MAX_FIELDS];
    let len = len_of(op);
    let fields = &mut fields[..len];
    fill_all(reader, fields)?;
    let ask = ask_of(op, fields);
    if takes_text(op) {
        read_text(reader, whole as usize - 2 - len, text)?;
    }
    Ok(ask)
}

/// Reads one request of version 1 or 2. Returns `None` if the input ends before its first byte.
///
/// The body of a send is then in `text`. For any other request and at the end of the input, `text`
/// is empty. After an error its contents are unspecified.
///
/// No byte after the request is read, and after an error none after the bytes that caused it.
///
/// # Errors
///
/// The length is checked first, then the version, the operation, and the length for that operation.
///
/// - `Truncated` if the input ends within the frame.
/// - `TooLong` if the length is above `MAX_REQUEST`.
/// - `BadField` if the length is below `MIN_REQUEST`, the version is neither 1 nor 2, or the
///   operation does not have this length.
/// - `BadOp` if the operation is above 7.
/// - `Read` if and only if the reader fails.
pub fn read_request<R: Read>(
    reader: &mut Instrumented<'_, R>,
    text: &mut Body,
) -> Result<Option<Request>, Fault>
    ensures reads { ReadsRequest Version.Two (R.remaining (stream_of reader.old))
        (R.remaining (stream_of reader.new)) result text.new }
    // The result is the one that fits what the reader had left, unless the reader fails.
    ensures only { (input : List ℕ) (answer : Result (Option Request) Fault) →
        R.remaining (stream_of reader.old) ≡ Some input → RequestAt Version.Two input answer →
        (result ≡ answer) ⊎ (result ≡ Err Fault.Read) }
    // The reader stays the same, and fails in this call if and only if the result is `Read`.
    ensures stream { KeepsStream reader.old reader.new (is_read_fault result) }
{
    read_request_up_to(Version::Two, reader, text)
}

/// Reads one request of a version up to `newest`, like `read_request`.
///
/// # Errors
///
/// Those of `read_request`, with these versions for 1 and 2, and the number of the version's last
/// operation for 7.
pub fn read_request_up_to<R: Read>(
    newest: Version,
    reader: &mut Instrumented<'_, R>,
    text: &mut Body,
) -> Result<Option<Request>, Fault>
    ensures reads { ReadsRequest newest (R.remaining (stream_of reader.old))
        (R.remaining (stream_of reader.new)) result text.new }
    // The result is the one that fits what the reader had left, unless the reader fails.
    ensures only { (input : List ℕ) (answer : Result (Option Request) Fault) →
        R.remaining (stream_of reader.old) ≡ Some input → RequestAt newest input answer →
        (result ≡ answer) ⊎ (result ≡ Err Fault.Read) }
    // The reader stays the same, and fails in this call if and only if the result is `Read`.
    ensures stream { KeepsStream reader.old reader.new (is_read_fault result) }
{
    next_request(newest, reader, text)
}

/// Reads one request, like `read_request_up_to`. The contract states only what was taken of the
/// input.
fn next_request<R: Read>(
    newest: Version,
    reader: &mut Instrumented<'_, R>,
    text: &mut Body,
) -> Result<Option<Request>, Fault>
    ensures reads { ReadsRequest newest (R.remaining (stream_of reader.old))
        (R.remaining (stream_of reader.new)) result text.new }
    ensures stream { KeepsStream reader.old reader.new (is_read_fault result) }
{
    text.clear();
    let mut head = [0; 2];
    let Some(length) = read_head(reader, MAX_REQUEST, &mut head)? else {
        return Ok(None);
    };
    let (version, op) = newest.judge(length, head[0], head[1])?;
    let ask = read_ask(reader, length, op, text)?;
    Ok(Some(Request { version, ask }))
}

/// Writes one request, and the body in `text` if the request is a send. For any other request
/// `text` is ignored. It calls only `write`, and flushes nothing.
///
/// # Errors
///
/// - `WriteFault` if and only if a write fails or takes no byte. The writer has then taken a prefix
///   of the request.
pub fn write_request<W: Write>(
    writer: &mut Instrumented<'_, W>,
    request: &Request,
    text: &Body,
) -> Result<(), WriteFault>
    ensures ok { OnOk result (Appends (W.contents (stream_of writer.old))
        (W.contents (stream_of writer.new)) (request_encoding request.now text.now)) }
    ensures err { OnErr result (AppendsPrefix (W.contents (stream_of writer.old))
        (W.contents (stream_of writer.new)) (request_encoding request.now text.now)) }
    // The writer stays the same, and fails in this call if and only if the result is an error.
    ensures stream { KeepsStream writer.old writer.new (is_err result) }
{
    let op = request.ask.op();
    let fields = fields_of(&request.ask);
    if takes_text(op) {
        let head = head_of(request.version, op, &fields, text.len());
        write_both(writer, head.bytes(), text)
    } else {
        let head = head_of(request.version, op, &fields, 0);
        writer.write_out(head.bytes())
    }
}

/// Returns the length, version, operation and fields of a request whose body has `text_len` bytes.
fn head_of(version: Version, op: Op, fields: &Fields, text_len: usize) -> Fields
    requires fields { length fields.now ≤ MAX_FIELDS }
    requires text { text_len ≤ BODY_ROOM }
    ensures { result ≡ u32_bytes (2 + length fields.now + text_len)
        ++ (version_number version ∷ op_number op ∷ fields.now) }
{
    let mut frame = Fields::new();
    frame.put_u32((2 + fields.bytes().len() + text_len) as u32);
    frame.put_u8(version.number());
    frame.put_u8(op.number());
    frame.put(fields.bytes());
    frame
}

/// Returns the fields of a request.
#[tactic(auto, using(std::proofs::Common::append_assoc), unfolding(crate::specs::Requests::ask_fields))]
fn fields_of(ask: &Ask) -> Fields
    ensures fields { result ≡ ask_fields ask.now }
    ensures most { length result ≤ MAX_FIELDS }
{
    let mut fields = Fields::new();
    match *ask {
        Ask::Hello(cred) => put_cred(&mut fields, cred),
        Ask::Get { key, flags } => {
            fields.put_i32(key);
            fields.put_u32(flags.bits());
        }
        Ask::Snd { id, mtype, flags } => {
            fields.put_i32(id);
            fields.put_i64(mtype);
            fields.put_u32(flags.bits());
        }
        Ask::Rcv {
            id,
            size,
            mtype,
            flags,
        } => {
            fields.put_i32(id);
            fields.put_u32(size);
            fields.put_i64(mtype);
            fields.put_u32(flags.bits());
        }
        Ask::Stat { id } => fields.put_i32(id),
        Ask::Set { id, to } => {
            fields.put_i32(id);
            put_set(&mut fields, to);
        }
        Ask::Rm { id } => fields.put_i32(id),
        Ask::Row { slot } => fields.put_u32(slot),
        Ask::Hold {
            id,
            size,
            mtype,
            flags,
            seconds,
        } => {
            fields.put_i32(id);
            fields.put_u32(size);
            fields.put_i64(mtype);
            fields.put_u32(flags.bits());
            fields.put_u32(seconds);
        }
        Ask::Done | Ask::Back => {}
    }
    fields
}

/// Appends credentials.
#[tactic(auto, using(std::proofs::Common::append_assoc))]
fn put_cred(fields: &mut Fields, cred: Cred)
    requires { length fields.old ≤ 8 }
    ensures after { fields.new ≡ fields.old
        ++ (u32_bytes cred.uid ++ (u32_bytes cred.gid ++ u32_bytes cred.pid)) }
    ensures len { length fields.new ≡ length fields.old + 12 }
{
    fields.put_u32(cred.uid);
    fields.put_u32(cred.gid);
    fields.put_u32(cred.pid);
}

/// Appends the values of a set.
#[tactic(auto, using(std::proofs::Common::append_assoc))]
fn put_set(fields: &mut Fields, to: SetTo)
    requires { length fields.old ≤ 4 }
    ensures after { fields.new ≡ fields.old
        ++ (u32_bytes to.uid ++ (u32_bytes to.gid ++ (u32_bytes to.mode ++ u32_bytes to.qbytes))) }
    ensures len { length fields.new ≡ length fields.old + 16 }
{
    fields.put_u32(to.uid);
    fields.put_u32(to.gid);
    fields.put_u32(to.mode);
    fields.put_u32(to.qbytes);
}
