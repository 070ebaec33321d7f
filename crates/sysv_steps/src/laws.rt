//! Laws that are statements over definitions alone.

ghost use Rattle.sysv_steps.specs.AfterRemoval.{EachIsToldOfRemoval};
ghost use Rattle.sysv_steps.specs.Answers.{EachAnswerIsRight};
ghost use Rattle.sysv_steps.specs.AsksFor.{EachOpIsAskedFor};
ghost use Rattle.sysv_steps.specs.Effects.{EachHasOneEffect};
ghost use Rattle.sysv_steps.specs.HeldBlocks.{EachHoldsItsBlocks, EachStepKeepsItsBlocks};
ghost use Rattle.sysv_steps.specs.HoldsAsked.{EachHoldsWhatItWasAsked};
ghost use Rattle.sysv_steps.specs.MayWait.{EachWaitsWhereItMay};
ghost use Rattle.sysv_steps.specs.OneAnswer.{OneAnswer};
ghost use Rattle.sysv_steps.specs.ReadLast.{EachWaitsAboveWhatItRead};
ghost use Rattle.sysv_steps.specs.Tended.{EachIsTended};
ghost use Rattle.sysv_steps.specs.WaitsFor.{EachWaitsForItsRefusal};
ghost use Rattle.sysv_steps.specs.WorkedPlays.{WorkedPlays};

/// States that the result of a call that plays to its end is right for its arguments and its own
/// turns.
pub fn each_answer_is_right()
    ensures { EachAnswerIsRight }
{}

/// States that a call, over or pending, has had at most one effect: it made one identifier, put
/// one message on a queue, took one message, changed the attributes of one queue, or removed one
/// queue.
pub fn each_has_one_effect()
    ensures { EachHasOneEffect }
{}

/// States what a send or a receive reports after it found its identifier gone: EIDRM if it had come
/// to the queue before, else EINVAL. It makes no further turn at a slot.
pub fn after_removal()
    ensures { EachIsToldOfRemoval }
{}

/// States that a call that waits was refused for want of what it waits for, and that its goal is
/// one more than the count that was reported to it. The goal of a send that waits for blocks is one
/// more than the released count that it read last.
pub fn waits_for_its_refusal()
    ensures { EachWaitsForItsRefusal }
{}

/// States that a send waits for blocks until the released count is above the value that it read
/// last: at its start, or at the end of a wait for blocks.
pub fn waits_above_what_it_read()
    ensures { EachWaitsAboveWhatItRead }
{}

/// States that a send or a receive with IPC_NOWAIT never waits, and that no `msgctl` call waits.
pub fn waits_where_it_may()
    ensures { EachWaitsWhereItMay }
{}

/// States that a call settles or gives up each identifier that the registry made for it, and
/// forgets each identifier whose queue it removed, or is still before that step.
pub fn each_is_tended()
    ensures { EachIsTended }
{}

/// States that a call neither makes nor loses a block of the pool, along its play and at each step,
/// and that a send before its place holds the number of blocks that its body needs.
pub fn each_holds_its_blocks()
    ensures play { EachHoldsItsBlocks }
    ensures step { EachStepKeepsItsBlocks }
{}

/// States that the credentials and arguments that a call holds are those with which it began,
/// before each step and in each wait.
pub fn each_holds_what_it_was_asked()
    ensures { EachHoldsWhatItWasAsked }
{}

/// States that each turn of a call requests what the arguments of the call name, and nothing else.
pub fn each_op_is_asked_for()
    ensures { EachOpIsAskedFor }
{}

/// States that the same call with the same turns has one result, whatever the released count was at
/// its start.
pub fn one_answer()
    ensures { OneAnswer }
{}

/// States what the laws of a call admit and refuse, at worked calls.
pub fn worked_plays()
    ensures { WorkedPlays }
{
    each_answer_is_right();
    each_has_one_effect();
    after_removal();
    each_is_tended();
}
