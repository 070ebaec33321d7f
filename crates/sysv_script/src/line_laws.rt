//! Laws that are statements over definitions alone.

ghost use Rattle.std.specs.Prelude.{◌≡◌};
ghost use Rattle.sysv_script.specs.OneLine.{OneSaying, EachLineIsDecided};
ghost use Rattle.sysv_script.specs.declared.actor.TheConstants.{SCRIPT_ACTORS};
ghost use Rattle.sysv_script.specs.declared.line.TheConstants.{LINE_BYTES};

use sysv_words::words_are_read;

/// States that a line has at most one meaning.
pub fn one_saying()
    ensures { OneSaying }
{
    words_are_read();
}

/// States that a line has a meaning or has none.
pub fn each_line_is_decided()
    ensures { EachLineIsDecided }
{
    words_are_read();
}

/// States how many actors a script has, and how many bytes a line may have.
pub fn numerals_of_lines()
    ensures actors { SCRIPT_ACTORS ≡ 16 }
    ensures line { LINE_BYTES ≡ 9000 }
{}
