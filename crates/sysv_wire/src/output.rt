//! Writes message bodies, and frames that end with a body.
ghost use Rattle.std.specs.Prelude.{◌++◌, is_err, OnOk, OnErr};
ghost use Rattle.std.specs.Io.KnownBytes.{Appends};
ghost use Rattle.sysv_model.specs.Instrumented.{stream_of, KeepsStream};
ghost use Rattle.sysv_model.specs.Writing.{AppendsPrefix};

use std::io::Write;
use sysv_model::{BLOCK_BYTES, Body, Instrumented, WriteFault};

/// Writes a message body, block by block.
pub(crate) fn write_text<W: Write>(
    writer: &mut Instrumented<'_, W>,
    text: &Body,
) -> Result<(), WriteFault>
    ensures ok { OnOk result (Appends (W.contents (stream_of writer.old))
        (W.contents (stream_of writer.new)) text.now) }
    ensures err { OnErr result (AppendsPrefix (W.contents (stream_of writer.old))
        (W.contents (stream_of writer.new)) text.now) }
    ensures stream { KeepsStream writer.old writer.new (is_err result) }
{
    let blocks = text.len().div_ceil(BLOCK_BYTES) as u32;
    for k in 0..blocks {
        writer.write_out(text.block(k))?;
    }
    Ok(())
}

/// Writes the bytes of a frame before its body, and then the body.
pub(crate) fn write_both<W: Write>(
    writer: &mut Instrumented<'_, W>,
    front: &[u8],
    text: &Body,
) -> Result<(), WriteFault>
    ensures ok { OnOk result (Appends (W.contents (stream_of writer.old))
        (W.contents (stream_of writer.new)) (front.now ++ text.now)) }
    ensures err { OnErr result (AppendsPrefix (W.contents (stream_of writer.old))
        (W.contents (stream_of writer.new)) (front.now ++ text.now)) }
    ensures stream { KeepsStream writer.old writer.new (is_err result) }
{
    writer.write_out(front)?;
    write_text(writer, text)
}
