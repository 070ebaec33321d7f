//! Laws that are statements over definitions alone.

ghost use Rattle.sysv_words.specs.OneSplit.{OneSplit};
ghost use Rattle.sysv_words.specs.Readings.{WordsAreRead};

/// States that a text splits at a mark in exactly one way if it contains the mark, and in no way if
/// it does not.
pub fn one_split()
    ensures { OneSplit }
{}

/// States that a word has at most one value of each kind, and that it is decided whether it has
/// one.
pub fn words_are_read()
    ensures { WordsAreRead }
{}
