//! Laws over the definitions alone. Each function's contract is its law.

ghost use Rattle.sysv_service.specs.SeenHistories.{EachKnowsItsOwn, ObeysIfOpen};
ghost use Rattle.sysv_service.specs.Overflows.{EachOverflowIsAtAWornGate, EachStopOverflowsAtAWornGate};
ghost use Rattle.sysv_service.specs.OwnTurns.{EachPlaysItsOwn};
ghost use Rattle.sysv_service.specs.RightAnswers.{EachRunAnswersRight};
ghost use Rattle.sysv_steps.specs.Stepping.{no_moment};
ghost use Rattle.sysv_service.specs.Retried.{EachRetryIsAtItsGoal, EachRunRetriesAtItsGoal};

use crate::pass::Pass;
use crate::{each_seat_obeys, own_turns_are_last, seen_histories};
use sysv_steps::{Clock, each_answer_is_right};

/// States that what each seat of a pass has seen is legal, and that the seat knows exactly its own
/// turns in it, whatever calls were made with the pass, and whether it was opened, split off or
/// joined. If nothing had happened at the objects when the service was opened, what the seat has
/// seen of its object obeys the law of that object.
pub fn each_pass_obeys(pass: &Pass)
    ensures knows { EachKnowsItsOwn pass.now.seats }
    ensures obeys { ObeysIfOpen pass.now.seats }
{
    each_seat_obeys(&pass.seats);
}

/// States that a call that found no gate worn out returns what a call of System V queues returns
/// for the turns that it made itself.
pub fn each_run_answers_right<C: Clock>(clock: &C)
    ensures stamped { EachRunAnswersRight (C.may clock.now) }
    ensures unstamped { EachRunAnswersRight no_moment }
{
    each_answer_is_right();
}

/// States that a call that fails with `EOVERFLOW` has found the gate of an object worn out, and
/// that the pass's seat there is marked. A get must be made with a pass of a service at whose
/// objects nothing had happened when it was opened.
///
/// The clause `stops` states that a stop fails with `EOVERFLOW` if and only if it found the gate of
/// a slot worn out, and that the pass's seat at a slot is marked then.
pub fn each_overflow_is_at_a_worn_gate<C: Clock>(clock: &C)
    ensures stamped { EachOverflowIsAtAWornGate (C.may clock.now) }
    ensures unstamped { EachOverflowIsAtAWornGate no_moment }
    ensures stops { EachStopOverflowsAtAWornGate }
{
    seen_histories();
    own_turns_are_last();
    each_answer_is_right();
}

/// States that a call adds to its pass's turns, in the one order of all turns, exactly the turns
/// that it made, in order, and that it is played along them. A step or a wait at a worn gate occurs
/// only if the call has no turn left at that object and the pass's seat there is marked. If the
/// call found no gate worn out, it is played by the step table alone. If the pass is unmarked after
/// the call, the call found no gate worn out.
pub fn each_plays_its_own<C: Clock>(clock: &C)
    ensures stamped { EachPlaysItsOwn (C.may clock.now) }
    ensures unstamped { EachPlaysItsOwn no_moment }
{}

/// States that a call that waited for room, for a message or for a settled key makes its next turn
/// at an object whose count is at least the goal of the wait. Of a wait for blocks it states
/// nothing.
pub fn each_retry_is_at_its_goal<C: Clock>(clock: &C)
    ensures { EachRetryIsAtItsGoal (C.may clock.now) }
{}

/// States the same of each run of a call: a call whose wait for room, for a message or for a
/// settled key ended, and which has only read counts since, makes its next turn at an object whose
/// count is at least the goal of the wait.
pub fn each_run_retries_at_its_goal<C: Clock>(clock: &C)
    ensures { EachRunRetriesAtItsGoal (C.may clock.now) }
{}
