//! Parses the words of a command line: keys, identifiers and types. The numbers of other options
//! are parsed by `sysv_words`.
ghost use Rattle.std.specs.Prelude.{◌≤◌, ℕ, ℤ, MatchOption, length};
ghost use Rattle.std.specs.Option.{SomeIff};
ghost use Rattle.std.specs.Str.Parse.{IsNumeral, digits_value};
ghost use Rattle.sysv_clients.specs.Words.{IsHexKey, IsId, IsKey, IsPerms, IsType};

use std::str;
use sysv_words::Reads;

/// Parses a key: a decimal number from 1 to 2147483647, or `0x` and one to eight hexadecimal
/// digits, which are the key's 32 bits. Returns `None` for any other word, and for key 0.
pub fn key_of(word: &[u8]) -> Option<i32>
    ensures { MatchOption result ((key : ℤ) → ¬ IsKey word.now key) (IsKey word.now) }
{
    let key = match word {
        [b'0', b'x', digits @ ..] => hex_number(digits)?.cast_signed(),
        _ => id_of(word)?,
    };
    if key == 0 {
        return None;
    }
    Some(key)
}

/// Parses an identifier: a decimal number from 0 to 2147483647. Returns `None` for any other word.
pub fn id_of(word: &[u8]) -> Option<i32>
    ensures { MatchOption result ((id : ℤ) → ¬ IsId word.now id) (IsId word.now) }
{
    match i32::read(word) {
        Some(id) if id >= 0 => Some(id),
        _ => None,
    }
}

/// Parses a message type: a decimal number from 1 to 9223372036854775807. Returns `None` for any
/// other word.
pub fn type_of(word: &[u8]) -> Option<i64>
    ensures { MatchOption result ((mtype : ℤ) → ¬ IsType word.now mtype) (IsType word.now) }
{
    match i64::read(word) {
        Some(mtype) if mtype >= 1 => Some(mtype),
        _ => None,
    }
}

/// Parses one to eight hexadecimal digits. Returns `None` for anything else.
fn hex_number(digits: &[u8]) -> Option<u32>
    ensures { SomeIff result (IsNumeral 16 digits.now
        × (length digits.now ≤ 8)) (digits_value 16 digits.now) }
{
    if digits.len() > 8 || digits.first() == Some(&b'+') {
        return None;
    }
    match str::from_utf8(digits) {
        Ok(digits) => u32::from_str_radix(digits, 16).ok(),
        Err(_) => None,
    }
}

/// Parses a key as its 32 bits: `0x` and one to eight hexadecimal digits. Returns `None` for any
/// other word.
pub(crate) fn hex_key(word: &[u8]) -> Option<i32>
    ensures { MatchOption result ((key : ℤ) → ¬ IsHexKey word.now key) (IsHexKey word.now) }
{
    match word {
        [b'0', b'x', digits @ ..] => Some(hex_number(digits)?.cast_signed()),
        _ => None,
    }
}

/// Parses the mode of a queue: three octal digits. Returns `None` for any other word.
pub(crate) fn perms_of(word: &[u8]) -> Option<u32>
    ensures { MatchOption result ((mode : ℕ) → ¬ IsPerms word.now mode) (IsPerms word.now) }
{
    if word.len() != 3 || word.first() == Some(&b'+') {
        return None;
    }
    match str::from_utf8(word) {
        Ok(digits) => u32::from_str_radix(digits, 8).ok(),
        Err(_) => None,
    }
}
