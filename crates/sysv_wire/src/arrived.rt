//! Whether bytes that have arrived hold a whole request.
ghost use Rattle.std.specs.Prelude.{◌⊎◌, IfOk, IfErr};
ghost use Rattle.sysv_wire.specs.Arrived.{EndsWithin, FrameAt, HoldsFault, HoldsRequest, ReadsAs};

use crate::fault::Fault;
use crate::frame::{LENGTH_BYTES, MAX_REQUEST, MIN_REQUEST, Version};
use crate::input::check_length;
use crate::number::take_u32;

/// What bytes that have arrived hold of the next request.
#[derive(Clone, Copy, PartialEq, Eq, Debug)]
pub enum FrameIn {
    /// A whole request.
    Whole {
        /// The number of bytes in its frame, including the length field.
        length: usize,
    },
    /// Bytes that begin no request.
    Refused {
        /// The fault: `TooLong`, `BadOp` or `BadField`.
        fault: Fault,
    },
    /// No bytes, or only a part of what a request begins with.
    More {
        /// The minimum number of bytes for another result, counted from the first byte.
        least: usize,
    },
}

/// Returns what `bytes` hold of the next request of version 1 or 2, if more bytes may follow them.
/// They are all that has arrived of the input after the request before.
///
/// - `Whole` if and only if they begin with a request's frame. Whatever follows them,
///   `read_request` returns this request, and takes no byte after its `length` bytes.
/// - `Refused` if and only if they alone decide that `read_request` fails with `fault`. It does,
///   whatever follows them.
/// - `More` otherwise. This stays the result until `least` bytes have arrived. If the input ends
///   here, `read_request` returns `None` if there are no bytes, and otherwise fails with
///   `Truncated`.
///
/// This is what `read_request` does unless its reader fails.
///
/// All that is examined is the first six bytes and the number of bytes. No value of a field or a
/// body is refused, so a request whose frame is whole has no fault.
pub fn frame_in(bytes: &[u8]) -> FrameIn
    ensures holds { FrameAt Version.Two bytes.now result }
    ensures reads { ReadsAs Version.Two bytes.now result }
{
    frame_in_up_to(Version::Two, bytes)
}

/// Returns what `bytes` hold of the next request of a version up to `newest`, like `frame_in`. This
/// is what `read_request_up_to` does unless its reader fails.
pub fn frame_in_up_to(newest: Version, bytes: &[u8]) -> FrameIn
    ensures holds { FrameAt newest bytes.now result }
    ensures reads { ReadsAs newest bytes.now result }
{
    match needed(newest, bytes) {
        Err(fault) => FrameIn::Refused { fault },
        Ok(least) if bytes.len() < least => FrameIn::More { least },
        Ok(length) => FrameIn::Whole { length },
    }
}

/// Returns the number of bytes with which the first part of the request that is not checked yet is
/// whole: the length field, the version and the operation, or the whole request.
fn needed(newest: Version, bytes: &[u8]) -> Result<usize, Fault>
    ensures ok { IfOk result (λ n.
        EndsWithin newest n bytes.now ⊎ HoldsRequest newest n bytes.now) }
    ensures err { IfErr result (λ fault. HoldsFault newest fault bytes.now) }
{
    if bytes.len() < LENGTH_BYTES {
        return Ok(LENGTH_BYTES);
    }
    let (length, content) = take_u32(bytes);
    let least = MIN_REQUEST as usize;
    check_length(length, least, MAX_REQUEST)?;
    if content.len() < least {
        return Ok(LENGTH_BYTES + least);
    }
    newest.judge(length, content[0], content[1])?;
    Ok(LENGTH_BYTES + length as usize)
}
