//! The flags of a call, as a script writes them.
ghost use Rattle.std.specs.Prelude.{ℕ, MatchOption};
ghost use Rattle.sysv_words.specs.FlagNames.{HasName, NamesMode, NamesFlag, ListsFlags, IsFlagList};

use crate::octal::octal_number;
use crate::reads::Reads;
use crate::word::split_at_mark;
use bitflags::Flags as _;
use sysv_model::Flags;

/// Reads `-` as no flags, or a list of names and octal modes separated by `+`.
impl Reads for Flags {
    ghost says = { IsFlagList };

    fn read(word: &[u8]) -> Option<Flags> {
        if word == b"-".as_slice() {
            Some(Flags::empty())
        } else {
            listed_flags(word)
        }
    }
}

/// Returns the flags of a list of names and octal modes separated by `+`, or `None` if `list` is
/// not such a list.
fn listed_flags(list: &[u8]) -> Option<Flags>
    ensures { MatchOption result ((bits : ℕ) → ListsFlags list.now bits →
        ⊥) (λ flags. ListsFlags list.now flags.0) }
{
    let mut flags = Flags::empty();
    let mut rest = list;
    while let Some((name, behind)) = split_at_mark(rest, b'+') {
        flags = flags.union(flag_of(name)?);
        rest = behind;
    }
    Some(flags.union(flag_of(rest)?))
}

/// Returns the flag of a name, or the bits of an octal mode. Returns `None` for any other name.
fn flag_of(name: &[u8]) -> Option<Flags>
    ensures { MatchOption result ((bits : ℕ) → NamesFlag name.now bits →
        ⊥) (λ flags. NamesFlag name.now flags.0) }
{
    match named_flag(name) {
        Some(flag) => Some(flag),
        None => mode_bits(name),
    }
}

/// Returns the bits of an octal mode: a `0` and up to three more octal digits. Returns `None` for
/// any other name.
fn mode_bits(name: &[u8]) -> Option<Flags>
    ensures { MatchOption result ((bits : ℕ) →
        ¬ NamesMode name.now bits) (λ mode. NamesMode name.now mode.0) }
{
    if name.first() != Some(&b'0') {
        return None;
    }
    octal_number(name).map(Flags::from_bits_retain)
}

/// Returns the flag that has this name, if there is one.
fn named_flag(name: &[u8]) -> Option<Flags>
    ensures { MatchOption result ((bits : ℕ) →
        ¬ HasName name.now bits) (λ flag. HasName name.now flag.0) }
{
    if name == b"CREAT".as_slice() {
        Some(Flags::IPC_CREAT)
    } else if name == b"EXCL".as_slice() {
        Some(Flags::IPC_EXCL)
    } else if name == b"NOWAIT".as_slice() {
        Some(Flags::IPC_NOWAIT)
    } else if name == b"NOERROR".as_slice() {
        Some(Flags::MSG_NOERROR)
    } else if name == b"EXCEPT".as_slice() {
        Some(Flags::MSG_EXCEPT)
    } else {
        None
    }
}
