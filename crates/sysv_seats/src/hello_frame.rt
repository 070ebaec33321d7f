//! The credentials in the frame of a hello.
ghost use Rattle.std.specs.Prelude.{◌≡◌, ◌≤◌, ◌<◌, ◌+◌, ◌++◌, ℕ, List, length, take, drop};
ghost use Rattle.std.specs.Int.{w32, from_be_bytes};
ghost use Rattle.sysv_session.specs.Input.{hello_encoding};
ghost use Rattle.sysv_wire.specs.Requests.{FitsAsk};
ghost use Rattle.sysv_wire.specs.declared.frame.Version.{Version as Known};
ghost use Rattle.sysv_wire.specs.declared.request.Ask.TheVariants as asks;

use sysv_model::Cred;

/// Where the fields of a hello begin in its frame: the user, the group and the process.
const UID: usize = 6;

const GID: usize = 10;

const PID: usize = 14;

/// Returns the credentials in the frame of a hello, with which `bytes` begin. If they do not begin
/// with one, the result is unspecified.
pub fn hello_cred(bytes: &[u8]) -> Cred
    ensures { (version : Known) (cred : Cred) (later : List ℕ) → FitsAsk (asks.Hello cred) →
        bytes.now ≡ hello_encoding version cred ++ later → result ≡ cred }
{
    Cred {
        uid: number_at(bytes, UID),
        gid: number_at(bytes, GID),
        pid: number_at(bytes, PID),
    }
}

/// Returns the number in the four bytes that begin there, or 0 if there are fewer.
fn number_at(bytes: &[u8], at: usize) -> u32
    requires { at ≤ 14 }
    ensures { at + 4 ≤ length bytes.now →
        result ≡ from_be_bytes w32 (take 4 (drop at bytes.now)) }
{
    match bytes.get(at..at + 4) {
        Some(four) => u32::from_be_bytes([four[0], four[1], four[2], four[3]]),
        None => 0,
    }
}
