//! Laws about what a text prints, and about the worlds to which it leads.

ghost use Rattle.sysv_script.specs.EachText.{EachTextPrints};
ghost use Rattle.sysv_script.specs.ObeyingRun.{EachScriptObeys};
ghost use Rattle.sysv_script.specs.OneText.{OneText};
ghost use Rattle.sysv_script.specs.ScriptRun.{EachScriptIsARun};

use crate::{each_line_is_decided, one_saying};
use sysv_core::{each_world_is_sound, every_run_obeys, one_step, some_step};
use sysv_words::one_split;

/// States that a text prints one thing only from a script state, which is a world with its actors'
/// credentials, and ends in one way, and that what it has printed before a line is a prefix of
/// that.
pub fn one_text()
    ensures { OneText }
{
    each_world_is_sound();
    one_step();
    one_saying();
    one_split();
}

/// States that each text prints something: it runs to its end, to a bad line, or to a line after
/// line 1,000,000.
pub fn each_text_prints()
    ensures { EachTextPrints }
{
    each_world_is_sound();
    some_step();
    each_line_is_decided();
    one_split();
}

/// States that the world before and after each line of a script is one to which a run leads from an
/// opening, so that what is stated of each run is stated of it, and that the lines print the
/// results of the calls of that run, in their order, and no other results.
pub fn each_script_is_a_run()
    ensures { EachScriptIsARun }
{}

/// States that what a script writes are the results of a run of its world, in their order, and no
/// other results, and that the world to which the run leads obeys the laws of the headline.
pub fn each_script_obeys()
    ensures { EachScriptObeys }
{
    every_run_obeys();
    each_script_is_a_run();
}
