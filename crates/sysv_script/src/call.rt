//! The calls that a line can start.
ghost use Rattle.std.specs.Prelude.{◌≤◌, ℕ, List, pos, codes, IfSome, MatchOption};
ghost use Rattle.sysv_words.specs.Words.{IsNumeralOf};
ghost use Rattle.sysv_steps.specs.Call.{SystemCall};
ghost use Rattle.sysv_script.specs.Lines.{SaysText, SaysNamed, SaysCall};
ghost use Rattle.sysv_script.specs.SaidBy.{FitsBody, CallFits, call_asked, text_bytes};

use sysv_model::{BODY_ROOM, Flags, SetTo};
use sysv_steps::Call;
use sysv_words::{Octal, Reads, first, split_at_mark};

/// The body of a message, at most 8,256 bytes.
#[derive(Clone, Copy)]
pub enum Text<'a> {
    /// These bytes.
    Given(&'a [u8]),
    /// This number of letters x.
    Letters(usize),
}

/// Returns the call with this name and these arguments, or `None` if the words are not a call.
pub(crate) fn call_of(words: &[u8]) -> Option<Call<Text<'_>, ()>>
    ensures says { MatchOption result ((asked : SystemCall) →
        ¬ SaysCall words.now asked) (λ call. SaysCall words.now (call_asked call)) }
    ensures fits { IfSome result CallFits }
{
    let (name, arguments) = split_at_mark(words, b' ')?;
    named(name, arguments)
}

/// Returns the call of this name with these arguments.
fn named<'a>(name: &[u8], arguments: &'a [u8]) -> Option<Call<Text<'a>, ()>>
    ensures says { MatchOption result ((asked : SystemCall) →
        ¬ SaysNamed name.now arguments.now asked) (λ call.
        SaysNamed name.now arguments.now (call_asked call)) }
    ensures fits { IfSome result CallFits }
{
    if name == b"get".as_slice() {
        get_of(arguments)
    } else if name == b"snd".as_slice() {
        send_of(arguments)
    } else if name == b"rcv".as_slice() {
        receive_of(arguments)
    } else if name == b"stat".as_slice() {
        stat_of(arguments)
    } else if name == b"set".as_slice() {
        set_of(arguments)
    } else if name == b"rm".as_slice() {
        remove_of(arguments)
    } else {
        None
    }
}

/// Reads `KEY FLAGS`.
fn get_of(arguments: &[u8]) -> Option<Call<Text<'_>, ()>>
    ensures says { MatchOption result ((asked : SystemCall) →
        ¬ SaysNamed (codes "get") arguments.now asked) (λ call.
        SaysNamed (codes "get") arguments.now (call_asked call)) }
    ensures fits { IfSome result CallFits }
{
    let (key, flags) = <(i32, Flags)>::read(arguments)?;
    Some(Call::Get { key, flags })
}

/// Reads `ID MTYPE FLAGS BODY`.
fn send_of(arguments: &[u8]) -> Option<Call<Text<'_>, ()>>
    ensures says { MatchOption result ((asked : SystemCall) →
        ¬ SaysNamed (codes "snd") arguments.now asked) (λ call.
        SaysNamed (codes "snd") arguments.now (call_asked call)) }
    ensures fits { IfSome result CallFits }
{
    let (id, rest) = first::<i32>(arguments)?;
    let (mtype, rest) = first::<i64>(rest)?;
    let (flags, text) = first::<Flags>(rest)?;
    let body = text_of(text)?;
    Some(Call::Send {
        id,
        mtype,
        flags,
        body,
    })
}

/// Reads `ID SIZE MTYPE FLAGS`.
fn receive_of(arguments: &[u8]) -> Option<Call<Text<'_>, ()>>
    ensures says { MatchOption result ((asked : SystemCall) →
        ¬ SaysNamed (codes "rcv") arguments.now asked) (λ call.
        SaysNamed (codes "rcv") arguments.now (call_asked call)) }
    ensures fits { IfSome result CallFits }
{
    let (id, (size, (mtype, flags))) = <(i32, (u32, (i64, Flags)))>::read(arguments)?;
    Some(Call::Receive {
        id,
        size,
        mtype,
        flags,
        body: (),
    })
}

/// Reads `ID`.
fn stat_of(arguments: &[u8]) -> Option<Call<Text<'_>, ()>>
    ensures says { MatchOption result ((asked : SystemCall) →
        ¬ SaysNamed (codes "stat") arguments.now asked) (λ call.
        SaysNamed (codes "stat") arguments.now (call_asked call)) }
    ensures fits { IfSome result CallFits }
{
    let id = i32::read(arguments)?;
    Some(Call::Stat { id })
}

/// Reads `ID UID GID MODE QBYTES`.
fn set_of(arguments: &[u8]) -> Option<Call<Text<'_>, ()>>
    ensures says { MatchOption result ((asked : SystemCall) →
        ¬ SaysNamed (codes "set") arguments.now asked) (λ call.
        SaysNamed (codes "set") arguments.now (call_asked call)) }
    ensures fits { IfSome result CallFits }
{
    let (id, (uid, (gid, (Octal(mode), qbytes)))) = <(i32, (u32, (u32, (Octal, u32))))>::read(
        arguments,
    )?;
    Some(Call::Set {
        id,
        to: SetTo {
            uid,
            gid,
            mode,
            qbytes,
        },
    })
}

/// Reads `ID`.
fn remove_of(arguments: &[u8]) -> Option<Call<Text<'_>, ()>>
    ensures says { MatchOption result ((asked : SystemCall) →
        ¬ SaysNamed (codes "rm") arguments.now asked) (λ call.
        SaysNamed (codes "rm") arguments.now (call_asked call)) }
    ensures fits { IfSome result CallFits }
{
    let id = i32::read(arguments)?;
    Some(Call::Remove { id })
}

/// Reads `=` and the bytes of the body, or `*N` for N letters x.
fn text_of(body: &[u8]) -> Option<Text<'_>>
    ensures says { MatchOption result ((text : List ℕ) → SaysText body.now text →
        ⊥) (λ said. SaysText body.now (text_bytes said)) }
    ensures fits { IfSome result FitsBody }
{
    match body {
        [b'=', text @ ..] if text.len() <= BODY_ROOM => Some(Text::Given(text)),
        [b'*', count @ ..] => Some(Text::Letters(letters_of(count)?)),
        _ => None,
    }
}

/// Reads the number of letters, 0 to 8,256.
fn letters_of(word: &[u8]) -> Option<usize>
    ensures { MatchOption result ((count : ℕ) →
        ¬ (IsNumeralOf word.now (pos count) × (count ≤ BODY_ROOM))) (λ count.
        IsNumeralOf word.now (pos count) × (count ≤ BODY_ROOM)) }
{
    match u32::read(word) {
        Some(count) if count as usize <= BODY_ROOM => Some(count as usize),
        _ => None,
    }
}
