//! The values of words.
ghost use Rattle.std.specs.Prelude.{ℕ, List, MatchOption};
ghost use Rattle.sysv_words.specs.Words.{Pair, SaysFirst, SaysNoFirst, IsInt32, IsInt64, IsNat32, IsNat64};

use crate::word::{natural, number, split_at_mark};

/// A kind of value that a word, or several words separated by one space, can have.
pub trait Reads: Sized {
    /// Which words have which value.
    ghost says: { List ℕ → Self → Type 0 };

    /// Returns the value of the words, or `None` if they have no value of this kind.
    fn read(words: &[u8]) -> Option<Self>
        ensures { MatchOption result ((value : Self) → ¬ says words.now value) (says words.now) };
}

/// Reads a word with one value, a space, and words with another value.
impl<A: Reads + Drop, B: Reads + Drop> Reads for (A, B) {
    ghost says = { Pair A.says B.says };

    fn read(words: &[u8]) -> Option<(A, B)> {
        let (one, rest) = first::<A>(words)?;
        let other = B::read(rest)?;
        Some((one, other))
    }
}

/// Returns the value of the first word and the words after its space. Returns `None` if there is
/// only one word, or if the first word has no value of this kind.
pub fn first<T: Reads + Drop>(words: &[u8]) -> Option<(T, &[u8])>
    ensures { MatchOption result (SaysNoFirst T.says words.now) (λ found.
        SaysFirst T.says words.now found.0 found.1.now) }
{
    let (word, rest) = split_at_mark(words, b' ')?;
    let value = T::read(word)?;
    Some((value, rest))
}

impl Reads for i64 {
    ghost says = { IsInt64 };

    fn read(word: &[u8]) -> Option<i64> {
        number(word)
    }
}

impl Reads for i32 {
    ghost says = { IsInt32 };

    fn read(word: &[u8]) -> Option<i32> {
        match number(word) {
            Some(value) => i32::try_from(value).ok(),
            None => None,
        }
    }
}

impl Reads for u64 {
    ghost says = { IsNat64 };

    fn read(word: &[u8]) -> Option<u64> {
        match number(word) {
            Some(value) => u64::try_from(value).ok(),
            None => natural(word),
        }
    }
}

impl Reads for u32 {
    ghost says = { IsNat32 };

    fn read(word: &[u8]) -> Option<u32> {
        match number(word) {
            Some(value) => u32::try_from(value).ok(),
            None => None,
        }
    }
}
