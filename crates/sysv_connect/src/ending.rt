//! How a program ends: its exit status, and the line of a fault.
ghost use Rattle.std.specs.Prelude.{◌≡◌};
ghost use Rattle.std.specs.Process.{exit_status};
ghost use Rattle.sysv_connect.specs.Ends.{Fails};
ghost use Rattle.sysv_model.specs.Writing.{AppendsPrefix};

use crate::screen::put;
use std::io::Write;
use std::process::ExitCode;

/// The exit status if a request was refused or a fault occurred.
pub const FAULT: u8 = 1;

/// The exit status if a call was left because the time of `--wait` was over.
pub(crate) const TIMED_OUT: u8 = 3;

/// Shows the line of a fault. If the screen fails, a prefix of it is shown. Returns the status of a
/// fault.
pub fn say<S: Write>(screen: &mut S, line: &str) -> ExitCode
    ensures fails { Fails result }
    ensures status { exit_status result ≡ FAULT }
    ensures told { AppendsPrefix (S.contents screen.old) (S.contents screen.new) line.now }
{
    put(screen, line.as_bytes());
    ExitCode::from(FAULT)
}
