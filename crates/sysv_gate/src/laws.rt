//! Laws about all seats of a gate together. Each function does nothing: its contract is the law.
ghost use Rattle.sysv_gate.specs.History.{Moves};
ghost use Rattle.sysv_gate.specs.Gates.{KnowsItsOwn};
ghost use Rattle.sysv_gate.specs.Laws.{OneTurnAtATime, NoTurnOfTwoSeats, OneHistory, MarkedOnlyWhenWorn, CountsOutsideATurn};

use crate::gate::seat::Seat;
use crate::object::Object;

/// States that at most one seat is in its turn at once.
pub fn one_turn_at_a_time<O: Object>()
    ensures { OneTurnAtATime (Moves O.meaning O.counted) }
{}

/// States that no turn belongs to two seats.
pub fn no_turn_of_two_seats<O: Object>()
    ensures { NoTurnOfTwoSeats (Moves O.meaning O.counted) }
{}

/// States that all seats have seen prefixes of one history.
pub fn one_history<O: Object>()
    ensures { OneHistory (Moves O.meaning O.counted) }
{}

/// States that a seat is marked as worn only if all tickets below 2^62 are drawn.
pub fn marked_only_when_worn<O: Object>()
    ensures { MarkedOnlyWhenWorn (Moves O.meaning O.counted) }
{}

/// States that outside a turn the two words have the counts of the object after all turns.
pub fn counts_outside_a_turn<O: Object>()
    ensures { CountsOutsideATurn (Moves O.meaning O.counted) O.counted }
{}

/// States that the history that a seat has seen is legal, whatever calls were made with the seat,
/// and that the seat knows exactly its own turns in it, each once.
pub fn each_seat_knows_its_own<O: Object>(seat: &Seat<O>)
    ensures { KnowsItsOwn (Moves O.meaning O.counted) seat.now }
{
    let _ = &seat.token;
}
