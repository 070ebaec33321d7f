//! The numbers of the doorbells on which threads sleep at a place.
ghost use Rattle.std.specs.Prelude.{◌<◌};

use crate::count::Count;

/// The doorbell of the threads that wait for their turn without a ticket.
pub(crate) const ENTRANCE: u32 = 0;

/// The doorbell of the threads that wait for the first count.
pub(crate) const ARRIVED: u32 = 1;

/// The doorbell of the threads that wait for the second count.
pub(crate) const FREED: u32 = 2;

/// The first doorbell of the threads that wait for their turn with a ticket.
const TURNS: u32 = 3;

/// The number of doorbells for turns. A thread sleeps on the doorbell of its ticket. So the end of
/// a turn wakes only the next thread, as long as at most 32 threads wait.
const TURN_DOORBELLS: u64 = 32;

/// The number of all doorbells of a place.
pub(crate) const DOORBELLS: u32 = 35;

/// Returns the doorbell of the ticket.
pub(crate) fn of_ticket(ticket: u64) -> u32
    ensures { result < 35 }
{
    TURNS + (ticket % TURN_DOORBELLS) as u32
}

/// Returns the doorbell of the threads that wait for the count.
pub(crate) fn of_count(count: Count) -> u32
    ensures { result < 35 }
{
    match count {
        Count::Arrived => ARRIVED,
        Count::Freed => FREED,
    }
}
