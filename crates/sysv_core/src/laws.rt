//! Laws that are statements over definitions alone.

ghost use Rattle.sysv_core.specs.Headline.{EveryRunObeys};
ghost use Rattle.sysv_core.specs.Sound.{OpensSound, StaysSound};
ghost use Rattle.sysv_core.specs.OneRun.{OneStep, OnePreset, OneRun};
ghost use Rattle.sysv_core.specs.SomeRun.{SomeStep, SomePreset, SomeRun};
ghost use Rattle.sysv_core.specs.WorkedRun.{WorkedRun, NoWrongReply, ExactFit};
ghost use Rattle.sysv_core.specs.WorkedSelection.{WorkedSelection};
ghost use Rattle.sysv_core.specs.WorkedAnswers.{WorkedAnswers};
ghost use Rattle.sysv_core.specs.WorkedWaits.{WorkedWaits};

use sysv_keys::{registry_law, unused_slots};
use sysv_objects::{legal_turns, one_legal_op};
use sysv_pool::pool_law;
use sysv_queue::{blocks_kept, queue_law, removed_for_good, stays_right};
use sysv_steps::{
    after_removal, each_answer_is_right, each_has_one_effect, each_holds_its_blocks,
    each_holds_what_it_was_asked, each_op_is_asked_for, waits_for_its_refusal,
};

/// States the headline: every list of transitions leads from every opening only to worlds that obey
/// the laws.
pub fn every_run_obeys()
    ensures { EveryRunObeys }
{
    each_world_is_sound();
    legal_turns();
    queue_law();
    registry_law();
    pool_law();
    each_op_is_asked_for();
    each_answer_is_right();
    each_has_one_effect();
    stays_right();
    waits_for_its_refusal();
    each_holds_what_it_was_asked();
    removed_for_good();
    after_removal();
}

/// States that a world in which nothing has happened is sound, and that each transition in a sound
/// world leads to a sound world.
pub fn each_world_is_sound()
    ensures opens { OpensSound }
    ensures stays { StaysSound }
{
    legal_turns();
    unused_slots();
    blocks_kept();
    pool_law();
    each_holds_its_blocks();
}

/// States that an event leads from a sound world to at most one world, with one result, and that a
/// preset leads from a world to at most one world, with one result.
pub fn one_step()
    ensures step { OneStep }
    ensures preset { OnePreset }
{
    each_world_is_sound();
    one_legal_op();
}

/// States that each event and each preset leads from a sound world to a sound world.
pub fn some_step()
    ensures step { SomeStep }
    ensures preset { SomePreset }
{
    each_world_is_sound();
    one_legal_op();
    unused_slots();
}

/// States that each list of transitions leads from each opening to a world.
pub fn some_run()
    ensures { SomeRun }
{
    each_world_is_sound();
    legal_turns();
    one_legal_op();
    unused_slots();
}

/// States that a list of transitions leads from a sound world to at most one world, with one list
/// of endings.
pub fn one_run()
    ensures { OneRun }
{
    each_world_is_sound();
    one_legal_op();
}

/// States that the worked run is a run of the definitions, with its endings in their places.
pub fn worked_run()
    ensures { WorkedRun }
{}

/// States that wrong replies are not legal at the turns of the worked run.
pub fn no_wrong_reply()
    ensures { NoWrongReply }
{}

/// States which replies are legal at one point of the worked run, by selection by type, MSG_NOERROR
/// and permission, and that the replies of wrong rules are not.
pub fn worked_selection()
    ensures { WorkedSelection }
{}

/// States that at a send of the worked run the answer law admits what happened and refuses what did
/// not.
pub fn worked_answers()
    ensures { WorkedAnswers }
{
    each_op_is_asked_for();
    each_answer_is_right();
}

/// States that the laws of waits and removals admit a receive that waits rightly and then reports a
/// removal. They refuse a receive that keeps waiting, one that reports something else, and an
/// identifier that is installed again.
pub fn worked_waits()
    ensures { WorkedWaits }
{}

/// States that two messages of 8,192 bytes fill a queue to the byte.
pub fn exact_fit()
    ensures { ExactFit }
{}
