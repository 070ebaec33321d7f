//! The requests for rows that an `ipcs` writes together.
ghost use Rattle.std.specs.Prelude.{◌+◌, ◌<◌, ◌≤◌, is_err, OnOk, OnErr};
ghost use Rattle.std.specs.Io.KnownBytes.{Appends};
ghost use Rattle.sysv_clients.specs.Rows.{RequestsAhead, rows_encoding};
ghost use Rattle.sysv_clients.specs.declared.command.TheConstants.{MAX_ROWS, ROW_WINDOW};
ghost use Rattle.sysv_model.specs.Instrumented.{KeepsStream, stream_of};
ghost use Rattle.sysv_model.specs.Writing.{AppendsPrefix};

use crate::command::ROW_WINDOW;
use crate::exchange::put;
use std::io::Write;
use sysv_model::{Body, Instrumented};
use sysv_wire::{Ask, WriteFault};

/// Requests the next rows if no request is on its way: those from `slot` on, a window at most, and
/// none from `rows` on. Those from `slot` to before `sent` are on their way already. Returns the
/// slot after the last one whose row is requested.
pub(crate) fn request_ahead<W: Write>(
    writer: &mut Instrumented<'_, W>,
    text: &Body,
    slot: u32,
    sent: u32,
    rows: u32,
) -> Result<u32, WriteFault>
    requires within { slot < rows }
    requires bound { rows ≤ MAX_ROWS }
    requires after { slot ≤ sent }
    requires before { sent ≤ rows }
    requires few { sent ≤ slot + ROW_WINDOW }
    ensures requests { RequestsAhead text.now slot sent rows result
        (W.contents (stream_of writer.old)) (W.contents (stream_of writer.new)) }
    ensures stream { KeepsStream writer.old writer.new (is_err result) }
{
    if slot < sent {
        return Ok(sent);
    }
    let next = rows.min(slot + ROW_WINDOW);
    request_rows(writer, text, slot, next)?;
    Ok(next)
}

/// Requests the rows from the slot `from` to before the slot `to`, and then flushes the requests.
fn request_rows<W: Write>(
    writer: &mut Instrumented<'_, W>,
    text: &Body,
    from: u32,
    to: u32,
) -> Result<(), WriteFault>
    requires { from ≤ to }
    ensures ok { OnOk result (Appends (W.contents (stream_of writer.old))
        (W.contents (stream_of writer.new)) (rows_encoding from to text.now)) }
    ensures err { OnErr result (AppendsPrefix (W.contents (stream_of writer.old))
        (W.contents (stream_of writer.new)) (rows_encoding from to text.now)) }
    ensures stream { KeepsStream writer.old writer.new (is_err result) }
{
    for slot in from..to {
        put(writer, Ask::Row { slot }, text)?;
    }
    match writer.flush() {
        Ok(()) => Ok(()),
        Err(_) => Err(WriteFault),
    }
}
