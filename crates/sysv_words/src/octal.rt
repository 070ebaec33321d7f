//! Octal numerals.
ghost use Rattle.std.specs.Prelude.{ℕ, ◌≤◌, length, MatchOption};
ghost use Rattle.std.specs.Option.{SomeIff};
ghost use Rattle.std.specs.Str.Parse.{IsNumeral, digits_value};
ghost use Rattle.sysv_words.specs.Octal.{IsOctal};

use crate::reads::Reads;
use std::str;

/// The permission bits of a queue, 0 to 0777, written as one to four octal digits.
#[derive(Clone, Copy)]
pub struct Octal(pub u32);

impl Reads for Octal {
    ghost says = { IsOctal };

    fn read(word: &[u8]) -> Option<Octal> {
        match octal_number(word) {
            Some(mode) if mode <= 0o777 => Some(Octal(mode)),
            _ => None,
        }
    }
}

/// Returns the number of one to four octal digits. Returns `None` for anything else.
pub(crate) fn octal_number(digits: &[u8]) -> Option<u32>
    ensures { SomeIff result (IsNumeral 8 digits.now
        × (length digits.now ≤ 4)) (digits_value 8 digits.now) }
{
    if digits.len() > 4 || digits.first() == Some(&b'+') {
        return None;
    }
    match str::from_utf8(digits) {
        Ok(digits) => u32::from_str_radix(digits, 8).ok(),
        Err(_) => None,
    }
}
