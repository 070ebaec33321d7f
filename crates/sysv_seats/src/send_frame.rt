//! The body in the frame of a send.

ghost use Rattle.std.specs.Prelude.{◌≡◌, ◌≤◌, ℕ, List, length};
ghost use Rattle.sysv_model.specs.declared.limits.TheConstants.{BODY_ROOM};
ghost use Rattle.sysv_wire.specs.Requests.{op_of, request_encoding};

use sysv_model::Body;
use sysv_wire::{Op, Request};

/// The number of bytes in a frame before its fields: the length field, the version and the
/// operation.
const HEAD_BYTES: usize = 6;

/// The number of bytes in the fields of a send: the identifier, the type and the flags.
const SND_FIELDS: usize = 16;

/// Copies the body of a send from its frame to `text`, and replaces all of `text`. If `frame` is
/// not the whole frame of a send, the contents of `text` are unspecified.
pub fn snd_text(frame: &[u8], text: &mut Body)
    ensures { (request : Request) (body : List ℕ) → op_of request.ask ≡ Op.Snd →
        length body ≤ BODY_ROOM → frame.now ≡ request_encoding request body → text.new ≡ body }
{
    text.clear();
    if let Some(body) = frame.get(HEAD_BYTES + SND_FIELDS..) {
        text.push_piece(body);
    }
}
