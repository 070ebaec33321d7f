//! The result in a reply, from its fields.
ghost use Rattle.std.specs.Prelude.{◌≡◌, ◌≢◌, ◌≤◌, ◌+◌, ◌++◌, ◌∷◌, ◌⊎◌, [], length, false, IfOk, IfErr};
ghost use Rattle.sysv_model.specs.Errors.{number_of};
ghost use Rattle.sysv_wire.specs.Frames.{op_number};
ghost use Rattle.sysv_wire.specs.declared.frame.Version.{Version as Versions};
ghost use Rattle.sysv_wire.specs.Replies.{FitsContent, FitsPerm, FitsRow, FitsStat, IsAnswer, IsAnswerLength, error_number, gives_text, content_fields, perm_fields, row_fields, stat_fields};
ghost use Rattle.sysv_wire.specs.ReplyFaults.{IsBadAnswer, IsBadMark, IsNoError, IsWideAt};

use crate::fault::Fault;
use crate::frame::{MAX_MODE, Op, Version};
use crate::number::{only_i32, only_u32, only_u64, take_i32, take_u16, take_u32, take_u64};
use crate::reply::ReplyContent;
use sysv_model::{Errno, Perm, Row, Stat};

/// Returns the error with this number, which is not 0.
pub(crate) fn errno_of(number: u8) -> Result<Errno, Fault>
    requires { number ≢ 0 }
    ensures ok { IfOk result (λ error. number_of error ≡ number) }
    ensures err { IfErr result (λ fault. (fault ≡ Fault.BadField) × IsNoError number) }
{
    match number {
        1 => Ok(Errno::EPERM),
        2 => Ok(Errno::ENOENT),
        7 => Ok(Errno::E2BIG),
        11 => Ok(Errno::EAGAIN),
        13 => Ok(Errno::EACCES),
        17 => Ok(Errno::EEXIST),
        22 => Ok(Errno::EINVAL),
        28 => Ok(Errno::ENOSPC),
        42 => Ok(Errno::ENOMSG),
        43 => Ok(Errno::EIDRM),
        75 => Ok(Errno::EOVERFLOW),
        _ => Err(Fault::BadField),
    }
}

/// Returns the result of an operation whose reply has no body, from its fields.
pub(crate) fn content_of(version: Version, op: Op, fields: &[u8]) -> Result<ReplyContent, Fault>
    requires len { IsAnswerLength version op (length fields.now) }
    requires other { (op ≢ Op.Rcv) × (op ≢ Op.Hold) }
    ensures answer { IfOk result (λ content. IsAnswer version (op_number op) content) }
    ensures fits { IfOk result FitsContent }
    ensures error { IfOk result (λ content. error_number content ≡ 0) }
    ensures text { IfOk result (λ content. gives_text content ≡ false) }
    ensures encoded { IfOk result (λ content. fields.now ≡ content_fields content) }
    ensures err { IfErr result (λ fault. (fault ≡ Fault.BadField) × IsBadAnswer op fields.now) }
{
    match op {
        Op::Hello => Ok(hello_of(version, fields)),
        Op::Get => Ok(ReplyContent::Get {
            id: only_i32(fields),
        }),
        Op::Snd => Ok(ReplyContent::Snd),
        Op::Rcv | Op::Hold => unreachable!(),
        Op::Stat => {
            let stat = stat_of(fields);
            if stat.perm.mode > MAX_MODE {
                return Err(Fault::BadField);
            }
            Ok(ReplyContent::Stat(stat))
        }
        Op::Set => Ok(ReplyContent::Set),
        Op::Rm => Ok(ReplyContent::Rm),
        Op::Row => match fields {
            [] => unreachable!(),
            [mark, rest @ ..] => marked_row(*mark, rest),
        },
        Op::Done => Ok(ReplyContent::Done),
        Op::Back => Ok(ReplyContent::Back),
    }
}

/// Returns the result of a hello in this version, from its fields.
fn hello_of(version: Version, fields: &[u8]) -> ReplyContent
    requires { IsAnswerLength version Op.Hello (length fields.now) }
    ensures answer { IsAnswer version 0 result }
    ensures fits { FitsContent result }
    ensures error { error_number result ≡ 0 }
    ensures text { gives_text result ≡ false }
    ensures encoded { fields.now ≡ content_fields result }
{
    match version {
        Version::One => ReplyContent::Hello,
        Version::Two | Version::Three => ReplyContent::HelloSlots {
            slots: only_u32(fields),
        },
    }
}

/// Returns the result of a request for a row, from the mark and the bytes after it.
fn marked_row(mark: u8, rest: &[u8]) -> Result<ReplyContent, Fault>
    requires { (length rest.now ≡ 0) ⊎ (length rest.now ≡ 22) }
    ensures answer { (version : Versions) → IfOk result (λ content. IsAnswer version 7 content) }
    ensures fits { IfOk result FitsContent }
    ensures error { IfOk result (λ content. error_number content ≡ 0) }
    ensures text { IfOk result (λ content. gives_text content ≡ false) }
    ensures encoded { IfOk result (λ content. mark ∷ rest.now ≡ content_fields content) }
    ensures err { IfErr result (λ fault. (fault ≡ Fault.BadField)
        × (IsBadMark (mark ∷ rest.now) ⊎ IsWideAt 13 (mark ∷ rest.now))) }
{
    if rest.is_empty() {
        return if mark == 0 {
            Ok(ReplyContent::Row(None))
        } else {
            Err(Fault::BadField)
        };
    }
    if mark != 1 {
        return Err(Fault::BadField);
    }
    let row = row_of(rest);
    if row.mode > MAX_MODE {
        return Err(Fault::BadField);
    }
    Ok(ReplyContent::Row(Some(row)))
}

/// Returns the row with these fields.
#[tactic(auto, unfolding(crate::specs::Replies::row_fields))]
fn row_of(fields: &[u8]) -> Row
    requires { length fields.now ≡ 22 }
    ensures encoded { fields.now ≡ row_fields result }
    ensures fits { FitsRow result }
{
    let (id, fields) = take_i32(fields);
    let (key, fields) = take_i32(fields);
    let (uid, fields) = take_u32(fields);
    let (mode, fields) = take_u16(fields);
    let (cbytes, fields) = take_u32(fields);
    let qnum = only_u32(fields);
    Row {
        id,
        key,
        uid,
        mode,
        cbytes,
        qnum,
    }
}

/// Returns the owner, creator and mode at the start of `fields`, and the bytes after them.
#[tactic(auto, using(std::proofs::Common::append_assoc), unfolding(crate::specs::Replies::perm_fields))]
fn take_perm(fields: &[u8]) -> (Perm, &[u8])
    requires { 18 ≤ length fields.now }
    ensures encoded { fields.now ≡ perm_fields result.0 ++ result.1.now }
    ensures fits { FitsPerm result.0 }
    ensures len { length fields.now ≡ 18 + length result.1.now }
{
    let (uid, fields) = take_u32(fields);
    let (gid, fields) = take_u32(fields);
    let (cuid, fields) = take_u32(fields);
    let (cgid, fields) = take_u32(fields);
    let (mode, fields) = take_u16(fields);
    let perm = Perm {
        uid,
        gid,
        cuid,
        cgid,
        mode,
    };
    (perm, fields)
}

/// Returns the attributes with these fields.
#[tactic(auto, using(std::proofs::Common::append_assoc), unfolding(crate::specs::Replies::stat_fields, crate::specs::Replies::count_fields, crate::specs::Replies::time_fields))]
fn stat_of(fields: &[u8]) -> Stat
    requires { length fields.now ≡ 66 }
    ensures encoded { fields.now ≡ stat_fields result }
    ensures fits { FitsStat result }
{
    let (key, fields) = take_i32(fields);
    let (perm, fields) = take_perm(fields);
    let (cbytes, fields) = take_u32(fields);
    let (qnum, fields) = take_u32(fields);
    let (qbytes, fields) = take_u32(fields);
    let (lspid, fields) = take_u32(fields);
    let (lrpid, fields) = take_u32(fields);
    let (stime, fields) = take_u64(fields);
    let (rtime, fields) = take_u64(fields);
    let ctime = only_u64(fields);
    Stat {
        key,
        perm,
        cbytes,
        qnum,
        qbytes,
        lspid,
        lrpid,
        stime,
        rtime,
        ctime,
    }
}
