//! Reads bytes from a reader, only by its `read`.
ghost use Rattle.std.specs.Prelude.{◌≡◌, ◌<◌, ◌≤◌, ◌++◌, [], ℕ, List, take, length, ⊤, IfOk, IfErr, OnOk, MatchOption};
ghost use Rattle.std.specs.Io.KnownBytes.{Consumes, IsAtEnd};
ghost use Rattle.sysv_model.specs.Instrumented.{stream_of, KeepsStream};
ghost use Rattle.sysv_wire.specs.Faults.{Faults, Breaks, HeadFault, LengthFault, IsPartLength, IsShorter, is_read_fault};
ghost use Rattle.sysv_wire.specs.Numbers.{u32_bytes};

use crate::fault::Fault;
use crate::number::take_u32;
use std::io::Read;
use sysv_model::{BLOCK_BYTES, BODY_ROOM, Body, Instrumented};

/// Reads until `bytes` is full or the input ends. Returns the number of bytes read.
pub(crate) fn fill<R: Read>(
    reader: &mut Instrumented<'_, R>,
    bytes: &mut [u8],
) -> Result<usize, Fault>
    ensures taken { IfOk result (λ count.
        Consumes (R.remaining (stream_of reader.old)) (R.remaining (stream_of reader.new))
        (take count bytes.new)) }
    ensures bound { IfOk result (λ count. count ≤ length bytes.new) }
    ensures end { IfOk result (λ count. count < length bytes.new →
        IsAtEnd (R.remaining (stream_of reader.new))) }
    ensures fault { IfErr result (λ fault.
        Faults (Breaks (λ _. ⊥)) fault (R.remaining (stream_of reader.old))
        (R.remaining (stream_of reader.new))) }
    ensures stream { KeepsStream reader.old reader.new (is_read_fault result) }
{
    let mut count = 0;
    while count < bytes.len() {
        match reader.read(&mut bytes[count..]) {
            Ok(0) => return Ok(count),
            Ok(more) => count += more,
            Err(_) => return Err(Fault::Read),
        }
    }
    Ok(count)
}

/// Reads until `bytes` is full. Fails with `Truncated` if the input ends before.
pub(crate) fn fill_all<R: Read>(
    reader: &mut Instrumented<'_, R>,
    bytes: &mut [u8],
) -> Result<(), Fault>
    ensures taken { OnOk result (Consumes (R.remaining (stream_of reader.old))
        (R.remaining (stream_of reader.new)) bytes.new) }
    ensures fault { IfErr result (λ fault.
        Faults (Breaks (IsShorter (length bytes.old))) fault (R.remaining (stream_of reader.old))
        (R.remaining (stream_of reader.new))) }
    ensures stream { KeepsStream reader.old reader.new (is_read_fault result) }
{
    let len = bytes.len();
    if fill(reader, bytes)? < len {
        return Err(Fault::Truncated);
    }
    Ok(())
}

/// Reads a length field. Returns `None` if the input ends before it.
fn read_length<R: Read>(reader: &mut Instrumented<'_, R>) -> Result<Option<u32>, Fault>
    ensures found { IfOk result (λ found. MatchOption found
        (Consumes (R.remaining (stream_of reader.old)) (R.remaining (stream_of reader.new)) []
        × IsAtEnd (R.remaining (stream_of reader.new)))
        (λ n. Consumes (R.remaining (stream_of reader.old)) (R.remaining (stream_of reader.new))
        (u32_bytes n))) }
    ensures fault { IfErr result (λ fault.
        Faults (Breaks IsPartLength) fault (R.remaining (stream_of reader.old))
        (R.remaining (stream_of reader.new))) }
    ensures stream { KeepsStream reader.old reader.new (is_read_fault result) }
{
    let mut bytes = [0; 4];
    match fill(reader, &mut bytes)? {
        0 => Ok(None),
        4 => {
            let (length, _) = take_u32(&bytes);
            Ok(Some(length))
        }
        _ => Err(Fault::Truncated),
    }
}

/// Checks a length against its limits.
pub(crate) fn check_length(length: u32, least: usize, most: u32) -> Result<(), Fault>
    ensures within { OnOk result ((least ≤ length) × (length ≤ most)) }
    ensures fault { IfErr result (λ fault. LengthFault least most length fault) }
{
    if length > most {
        return Err(Fault::TooLong);
    }
    if (length as usize) < least {
        return Err(Fault::BadField);
    }
    Ok(())
}

/// Reads the head of a frame: the length field, and the first bytes after it into `head`, whose
/// length is the minimum length of a frame. Returns `None` if the input ends before the frame.
pub(crate) fn read_head<R: Read>(
    reader: &mut Instrumented<'_, R>,
    most: u32,
    head: &mut [u8],
) -> Result<Option<u32>, Fault>
    ensures found { IfOk result (λ found. MatchOption found
        (Consumes (R.remaining (stream_of reader.old)) (R.remaining (stream_of reader.new)) []
        × IsAtEnd (R.remaining (stream_of reader.new)))
        (λ n. Consumes (R.remaining (stream_of reader.old)) (R.remaining (stream_of reader.new))
        (u32_bytes n ++ head.new) × (length head.old ≤ n) × (n ≤ most))) }
    ensures fault { IfErr result (λ fault.
        Faults (HeadFault (length head.old) most) fault (R.remaining (stream_of reader.old))
        (R.remaining (stream_of reader.new))) }
    ensures stream { KeepsStream reader.old reader.new (is_read_fault result) }
{
    let Some(length) = read_length(reader)? else {
        return Ok(None);
    };
    check_length(length, head.len(), most)?;
    fill_all(reader, head)?;
    Ok(Some(length))
}

/// Reads a body of `len` bytes into an empty `Body`.
pub(crate) fn read_text<R: Read>(
    reader: &mut Instrumented<'_, R>,
    len: usize,
    text: &mut Body,
) -> Result<(), Fault>
    requires empty { text.old ≡ [] }
    requires room { len ≤ BODY_ROOM }
    ensures taken { OnOk result (Consumes (R.remaining (stream_of reader.old))
        (R.remaining (stream_of reader.new)) text.new × (length text.new ≡ len)) }
    ensures fault { IfErr result (λ fault.
        Faults (Breaks (IsShorter len)) fault (R.remaining (stream_of reader.old))
        (R.remaining (stream_of reader.new))) }
    ensures stream { KeepsStream reader.old reader.new (is_read_fault result) }
{
    let mut piece = [0; BLOCK_BYTES];
    let mut left = len;
    while left > 0 {
        let room = left.min(BLOCK_BYTES);
        match reader.read(&mut piece[..room]) {
            Ok(0) => return Err(Fault::Truncated),
            Ok(count) => {
                text.push_piece(&piece[..count]);
                left -= count;
            }
            Err(_) => return Err(Fault::Read),
        }
    }
    Ok(())
}
