//! Laws over the definitions alone: the numerals of the limits of a script, its streams and its
//! stage.

ghost use Rattle.std.specs.Prelude.{◌≡◌};
ghost use Rattle.sysv_script.specs.declared.fault.TheConstants.{SCRIPT_LINES};
ghost use Rattle.sysv_script.specs.declared.input.TheConstants.{INPUT_ROOM};
ghost use Rattle.sysv_script.specs.declared.output.TheConstants.{MOST_COMPOSED, OUTPUT_ROOM};
ghost use Rattle.sysv_script.specs.declared.stage.TheConstants.{MAX_STEPS, SCRIPT_BLOCKS};

/// States how many lines a script may have, the capacity of the input and of the output in bytes,
/// and how many bytes are composed at most before a line is run.
pub fn numerals_of_streams()
    ensures lines { SCRIPT_LINES ≡ 1000000 }
    ensures input { INPUT_ROOM ≡ 9001 }
    ensures output { OUTPUT_ROOM ≡ 65536 }
    ensures composed { MOST_COMPOSED ≡ 57136 }
{}

/// States how many blocks the pool of a script has if no line gives its size, and how many steps a
/// line makes of a call at most.
pub fn numerals_of_stages()
    ensures blocks { SCRIPT_BLOCKS ≡ 1024 }
    ensures steps { MAX_STEPS ≡ 16 }
{}
