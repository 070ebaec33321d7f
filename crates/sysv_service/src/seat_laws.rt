//! Laws over the definitions alone. Each function's contract is its law.

ghost use Rattle.sysv_service.specs.Ordered.{OrdersAreOfTeams};
ghost use Rattle.sysv_service.specs.SeenHistories.{SeenHistories, SeenHistoriesObey, EachKnowsItsOwn, ObeysIfOpen, OwnTurnsAreLast};

use crate::seats::Seats;
use sysv_bank::each_seat_of_a_bank_knows_its_own;
use sysv_keys::registry_law;
use sysv_pool::pool_law;
use sysv_queue::queue_law;

/// States that a legal history that a seat has seen of an object is one that the object represents,
/// if nothing had happened at the object when its gate was opened. So each reply in it is the legal
/// one.
pub fn seen_histories()
    ensures { SeenHistories }
{}

/// States that a legal history that a seat has seen of an object obeys the law of that object (the
/// queue law, the registry law or the pool law), if nothing had happened at the object when its
/// gate was opened.
pub fn seen_histories_obey()
    ensures { SeenHistoriesObey }
{
    seen_histories();
    queue_law();
    registry_law();
    pool_law();
}

/// States that the histories that the seats have seen are legal, whatever calls were made with
/// them, and that each seat knows exactly its own turns in its history, each once. If nothing had
/// happened at the objects when the gates were opened, each history obeys the law of its object.
pub fn each_seat_obeys(seats: &Seats)
    ensures knows { EachKnowsItsOwn seats.now }
    ensures obeys { ObeysIfOpen seats.now }
{
    each_seat_of_a_bank_knows_its_own(&seats.seat);
    seen_histories_obey();
}

/// States that a turn of a seat's own is the last entry of what the seat has seen afterwards, after
/// all that it had seen before.
pub fn own_turns_are_last()
    ensures { OwnTurnsAreLast }
{}

/// States that what a bank of these objects promises of its passes and of the order of its turns is
/// what a pass of a service does, in turns of the world. The replies in the order that is found
/// when the bank is closed are legal, if nothing had happened at the objects when the gates were
/// opened.
pub fn orders_are_of_teams()
    ensures { OrdersAreOfTeams }
{}
