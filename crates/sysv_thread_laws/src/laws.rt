//! Laws of executions.

ghost use Rattle.sysv_service.specs.TurnsLeft.{NoMarkWithTurnsLeft};
ghost use Rattle.sysv_steps.specs.Stepping.{no_moment};
ghost use Rattle.sysv_thread_laws.specs.AfterStop.{EveryStopEmpties};
ghost use Rattle.sysv_thread_laws.specs.AtRest.{OrdersAtRest};
ghost use Rattle.sysv_thread_laws.specs.Team.{EveryLastPassIsWhole, EveryServiceIsARun};
ghost use Rattle.sysv_thread_laws.specs.Hiring.{EveryHiringObeys, EveryStopRemoves};
ghost use Rattle.sysv_thread_laws.specs.Lifetime.{EachRunIsAtAnyMoment, EveryServiceObeys};
ghost use Rattle.sysv_thread_laws.specs.OnThreads.{EachForgetTakesItsRow, EveryThreadedRunObeys};
ghost use Rattle.sysv_thread_laws.specs.Order.{NoCallReadsARow};
ghost use Rattle.sysv_thread_laws.specs.OrderIsRun.{EveryOrderIsARun};
ghost use Rattle.sysv_thread_laws.specs.OwnSteps.{EachCallComesToFewGates, EachCallComesToRest, EachCallMakesFewTurns, EachNumberIsReached};
ghost use Rattle.sysv_thread_laws.specs.ParkedOnThreads.{EveryOrderParksRightly, EveryThreadedRunParksRightly};
ghost use Rattle.sysv_thread_laws.specs.Permitted.{EveryOrderIsPermitted, EveryRunIsPermitted, EveryThreadedRunIsPermitted};
ghost use Rattle.sysv_thread_laws.specs.Points.{EachPointParksRightly};
ghost use Rattle.sysv_thread_laws.specs.PoolWhole.{EveryHiringLeavesThePoolWhole, EveryPoolIsWhole, NoHiringLeavesAGateHeld};
ghost use Rattle.sysv_thread_laws.specs.RunIsExecution.{EachRunIsAnExecution};
ghost use Rattle.sysv_thread_laws.specs.WorkedTeam.{WorkedTeam};
ghost use Rattle.sysv_thread_laws.specs.WorkedOrder.{WorkedOrder};

use sysv_core::{each_world_is_sound, every_run_obeys, some_step};
use sysv_keys::registry_law;
use sysv_objects::legal_turns;
use sysv_pool::pool_law;
use sysv_queue::{blocks_kept, queue_law, removed_for_good, stays_right};
use sysv_service::seen_histories;
use sysv_steps::{
    Clock, after_removal, each_answer_is_right, each_has_one_effect, each_holds_its_blocks,
    each_holds_what_it_was_asked, each_op_is_asked_for, one_answer, waits_for_its_refusal,
};

/// States the headline of threads: every list of moments leads from every opening only to worlds
/// that obey the laws of the headline, except that of waits, which
/// `every_threaded_run_parks_rightly` has. A call may read any released count at its start, and any
/// value that is at least the goal may end a wait.
pub fn every_threaded_run_obeys()
    ensures { EveryThreadedRunObeys }
{
    each_world_is_sound();
    legal_turns();
    blocks_kept();
    pool_law();
    each_holds_its_blocks();
    queue_law();
    registry_law();
    each_op_is_asked_for();
    each_answer_is_right();
    each_has_one_effect();
    removed_for_good();
    after_removal();
}

/// States that each forget in an execution takes a row away: the row of the identifier that was
/// removed, which exists until then.
pub fn each_forget_takes_its_row()
    ensures { EachForgetTakesItsRow }
{
    every_threaded_run_obeys();
}

/// States that each run of a world without a preset is an execution.
pub fn each_run_is_an_execution()
    ensures { EachRunIsAnExecution }
{}

/// States that every order of turns with legal replies, with the calls that its passes made, is a
/// execution: a list of moments leads to a world that has the turns of the order and the calls with
/// their results, and that obeys the laws.
pub fn every_order_is_a_run()
    ensures { EveryOrderIsARun }
{
    every_threaded_run_obeys();
    one_answer();
}

/// States that no call reads a row, so a turn that reads one belongs to no call.
pub fn no_call_reads_a_row()
    ensures { NoCallReadsARow }
{}

/// States that, when no call of an order is pending, each block is free or under a queued
/// message, and each row is settled and its queue is live.
pub fn orders_at_rest()
    ensures { OrdersAtRest }
{
    every_order_is_a_run();
}

/// States that, after all passes of a service were joined into one, the order of all turns that its
/// close finds is a run with all calls that its passes made, if each reply in it is legal and no
/// call found a gate worn out. The one pass that is left has the whole service.
pub fn every_joined_service_is_a_run()
    ensures run { EveryServiceIsARun }
    ensures whole { EveryLastPassIsWhole }
{
    every_order_is_a_run();
    orders_at_rest();
}

/// States that an order in which the turns of three passes interleave, with a receive that waited
/// and one that was left, is legal and is a run with the calls that made it. Calls that do not
/// belong to the order are refused.
pub fn worked_order()
    ensures { WorkedOrder }
{
    legal_turns();
    each_answer_is_right();
    every_order_is_a_run();
    orders_at_rest();
}

/// States that the worked order is that of a service of three passes: it is opened, two passes are
/// split off, calls are made, and all passes are joined. Without one of the calls, that is not so.
pub fn worked_team()
    ensures { WorkedTeam }
{
    worked_order();
    every_joined_service_is_a_run();
}

/// States that the calls of all passes of a service are one run of a world. The service was opened,
/// its passes did what they did, all of them were joined into one, and the service was closed with
/// that one. Then the calls of all passes are all that made the order of turns that is found there,
/// that order is a run of a world with them, and it obeys the headline of threads. This holds if no
/// call found a gate worn out, whatever clock each call had.
pub fn every_service_obeys<C: Clock>(clock: &C)
    ensures obeys { EveryServiceObeys }
    ensures stamped { EachRunIsAtAnyMoment (C.may clock.now) }
    ensures unstamped { EachRunIsAtAnyMoment no_moment }
{
    every_joined_service_is_a_run();
}

/// States the same of a service whose first pass gave a pass to each worker and took all of them
/// back. The calls of the workers, and those that the first pass made afterwards, are all that made
/// the order of turns that is found at the close. That order is a run of a world with them, and it
/// obeys the headline of threads. This holds if fewer than 2^62 turns were made at each object,
/// with tickets from 0 on: then no call found a gate worn out.
///
/// The clause `stops` states that a stop makes removals, and no other call. The clause `unmarked`
/// states that after so few turns no seat with which the service is closed is marked, if these
/// seats have the whole service.
pub fn every_hiring_obeys()
    ensures obeys { EveryHiringObeys }
    ensures stops { EveryStopRemoves }
    ensures unmarked { NoMarkWithTurnsLeft }
{
    every_joined_service_is_a_run();
}

/// States that no gate is held and all blocks of the pool are free after the close of a service, if
/// all passes have been joined, each of their calls is over or was left at a wait, and no call
/// found a gate worn out.
///
/// The clause `hired` states the same of a service whose first pass gave a pass to each worker and
/// took all of them back, if fewer than 2^62 turns were made at each object, with tickets from 0
/// on. The clause `none_held` states that no gate is held after the close of such a service, also
/// if calls found gates worn out.
pub fn every_pool_is_whole()
    ensures whole { EveryPoolIsWhole }
    ensures hired { EveryHiringLeavesThePoolWhole }
    ensures none_held { NoHiringLeavesAGateHeld }
{
    seen_histories();
    every_joined_service_is_a_run();
}

/// States that each send that was accepted, each message that was taken, each report of attributes,
/// each queue that was found, each change and each removal was permitted: the queue was live at
/// that turn, and its permissions allowed it to the credentials with which the call was started.
///
/// The clause `runs` states this of every world to which a run leads, `threads` of every execution,
/// and `orders` of every order of turns with legal replies.
pub fn each_effect_is_permitted()
    ensures runs { EveryRunIsPermitted }
    ensures threads { EveryThreadedRunIsPermitted }
    ensures orders { EveryOrderIsPermitted }
{
    every_run_obeys();
    every_threaded_run_obeys();
    each_op_is_asked_for();
}

/// States that a call makes at most four turns from its start, or from the end of a wait, to its
/// end or to its next wait: a msgsnd four, a msgget and an IPC_RMID three, a msgrcv and an IPC_SET
/// two, and an IPC_STAT one.
///
/// The clause `reached` states that no smaller numbers would do. The clauses `gates` and
/// `unstamped` state the same bound for the calls of a service: a call comes to no more gates than
/// that, also if it finds gates worn out. The one is about calls with this clock, the other about
/// calls that use no time.
pub fn each_call_makes_few_turns<C: Clock>(clock: &C)
    ensures table { EachCallMakesFewTurns }
    ensures reached { EachNumberIsReached }
    ensures gates { EachCallComesToFewGates (C.may clock.now) }
    ensures unstamped { EachCallComesToFewGates no_moment }
{}

/// States that a call of a world is over or waits after at most this number of its own steps, if no
/// other call makes a step between them. It does not state that a wait ends.
pub fn each_call_comes_to_rest()
    ensures { EachCallComesToRest }
{
    each_world_is_sound();
    some_step();
}

/// States that a stop leaves no queue and no message, if the service is closed after it and the
/// first pass, which made the stop, had taken back the passes of all workers. This holds if fewer
/// than 2^62 turns were made at each object, with tickets from 0 on. The stop then found no gate
/// worn out.
pub fn every_stop_empties()
    ensures { EveryStopEmpties }
{
    each_world_is_sound();
    legal_turns();
    blocks_kept();
    pool_law();
    each_holds_its_blocks();
    queue_law();
    registry_law();
    each_op_is_asked_for();
    each_answer_is_right();
    each_has_one_effect();
    removed_for_good();
    after_removal();
    seen_histories();
    every_hiring_obeys();
}

/// States that each call of an execution that waits below its goal has the reason that the headline
/// names: a receive has nothing to take, a send has no room, and a get waits for a row that another
/// call still has to settle or forget. For a send that waits for blocks this holds if it had read
/// no more of the released count than there was when it last looked at its queue. Too few blocks
/// are free even if it had read no more than there was at its refused reserve.
pub fn every_threaded_run_parks_rightly()
    ensures { EveryThreadedRunParksRightly }
{
    each_world_is_sound();
    legal_turns();
    blocks_kept();
    pool_law();
    each_holds_its_blocks();
    queue_law();
    registry_law();
    each_op_is_asked_for();
    each_answer_is_right();
    each_has_one_effect();
    removed_for_good();
    after_removal();
    stays_right();
    waits_for_its_refusal();
    each_holds_what_it_was_asked();
    every_threaded_run_obeys();
}

/// States the same of the calls of an order of turns that are in a wait or were left at one.
pub fn every_order_parks_rightly()
    ensures { EveryOrderParksRightly }
{
    every_threaded_run_parks_rightly();
}

/// States the same after each part of an order of turns, with the calls as they were then: the part
/// is a run with these calls, and each of them that waits below its goal has its reason.
pub fn each_point_parks_rightly()
    ensures { EachPointParksRightly }
{
    every_order_is_a_run();
    every_order_parks_rightly();
}
