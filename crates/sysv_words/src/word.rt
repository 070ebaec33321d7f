//! Words and numerals of a line.
ghost use Rattle.std.specs.Prelude.{◌^◌, ◌<◌, MatchOption, Contains};
ghost use Rattle.std.specs.Option.{SomeIff};
ghost use Rattle.std.specs.Int.{w64};
ghost use Rattle.std.specs.Int.RustNames.{FitsSigned};
ghost use Rattle.std.specs.Str.Parse.{IsNumeral, digits_value};
ghost use Rattle.sysv_words.specs.Words.{SplitsAt, IsNumber, number_in};

use std::str;

/// Returns the bytes before the first `mark` and the bytes after it, or `None` if `text` does not
/// contain `mark`.
pub fn split_at_mark(text: &[u8], mark: u8) -> Option<(&[u8], &[u8])>
    ensures { MatchOption result (¬ (Contains text.now mark)) (λ split.
        SplitsAt mark text.now split.0.now split.1.now) }
{
    let place = text.iter().position(|byte| *byte == mark)?;
    Some((&text[..place], &text[place + 1..]))
}

/// Returns the number of a numeral: decimal digits, with or without a minus before them. Returns
/// `None` for any other word, and for a number below -2^63 or above 2^63 - 1.
pub(crate) fn number(word: &[u8]) -> Option<i64>
    ensures { SomeIff result (IsNumber word.now
        × FitsSigned w64 (number_in word.now)) (number_in word.now) }
{
    if word.first() == Some(&b'+') {
        return None;
    }
    match str::from_utf8(word) {
        Ok(word) => word.parse().ok(),
        Err(_) => None,
    }
}

/// Returns the number of decimal digits. Returns `None` for any other word, and for a number above
/// 2^64 - 1.
pub(crate) fn natural(word: &[u8]) -> Option<u64>
    ensures { SomeIff result (IsNumeral 10 word.now
        × (digits_value 10 word.now < 2 ^ 64)) (digits_value 10 word.now) }
{
    if word.first() == Some(&b'+') {
        return None;
    }
    match str::from_utf8(word) {
        Ok(word) => word.parse().ok(),
        Err(_) => None,
    }
}
