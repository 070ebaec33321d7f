//! Output to a user.
ghost use Rattle.std.specs.Prelude.{OnOk, OnErr, is_err};
ghost use Rattle.std.specs.Io.KnownBytes.{Appends};
ghost use Rattle.sysv_clients.specs.Run.{Shows};
ghost use Rattle.sysv_model.specs.Instrumented.{KeepsStream, stream_of};
ghost use Rattle.sysv_model.specs.Writing.{AppendsPrefix};

use std::io::Write;
use sysv_model::{Instrumented, WriteFault};

/// Writes `text` to the screen and flushes it. Returns the status `due`, or 1 if the screen fails.
pub(crate) fn show<S: Write>(screen: &mut S, text: &[u8], due: i32) -> i32
    ensures { Shows result due text.now (S.contents screen.old) (S.contents screen.new) }
{
    match print(screen, text) {
        Ok(()) => due,
        Err(WriteFault) => 1,
    }
}

/// Writes `text` and flushes it.
pub(crate) fn print<S: Write>(screen: &mut S, text: &[u8]) -> Result<(), WriteFault>
    ensures ok { OnOk result (Appends (S.contents screen.old) (S.contents screen.new) text.now) }
    ensures err { OnErr result (AppendsPrefix (S.contents screen.old)
        (S.contents screen.new) text.now) }
{
    print_instrumented(&mut Instrumented::new(screen), text)
}

/// Writes `text` and flushes it. It fails exactly if the screen does.
pub(crate) fn print_instrumented<S: Write>(
    screen: &mut Instrumented<'_, S>,
    text: &[u8],
) -> Result<(), WriteFault>
    ensures ok { OnOk result (Appends (S.contents (stream_of screen.old))
        (S.contents (stream_of screen.new)) text.now) }
    ensures err { OnErr result (AppendsPrefix (S.contents (stream_of screen.old))
        (S.contents (stream_of screen.new)) text.now) }
    ensures kept { KeepsStream screen.old screen.new (is_err result) }
{
    screen.write_out(text)?;
    match screen.flush() {
        Ok(()) => Ok(()),
        Err(_) => Err(WriteFault),
    }
}
