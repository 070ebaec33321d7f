//! Laws about the seats of a bank. Each function does nothing: its contract is the law.
ghost use Rattle.sysv_gate.specs.History.{Moves};
ghost use Rattle.sysv_bank.specs.Banks.{EachKnowsItsOwn};
ghost use Rattle.sysv_bank.specs.Passes.{SeenInOrder, KnowsItsTurns};
ghost use Rattle.sysv_bank.specs.Laws.{OneOrder};

use crate::seat::BankSeat;
use sysv_gate::Object;

/// States that the history that the seat has seen at each place is legal, whatever calls were made
/// with the seat, and that the seat knows exactly its own turns in it, each once.
pub fn each_seat_of_a_bank_knows_its_own<O: Object>(seat: &BankSeat<O>)
    ensures { EachKnowsItsOwn (Moves O.meaning O.counted) seat.now.seats }
{
    let _ = &seat.token;
}

/// States that what the seat has seen at each place is a prefix of that place's part of the order
/// that it has seen.
pub fn each_place_is_in_the_order<O: Object>(seat: &BankSeat<O>)
    ensures { SeenInOrder seat.now }
{
    let _ = &seat.token;
}

/// States that the seat makes its turns under one number at all places, and that it knows exactly
/// the turns of the order that were made under its numbers, place by place, each once.
pub fn each_pass_knows_its_turns<O: Object>(seat: &BankSeat<O>)
    ensures { KnowsItsTurns seat.now }
{
    let _ = &seat.token;
}

/// States that of the orders that any two seats of one bank have seen, one is a prefix of the
/// other.
pub fn one_order<O: Object>()
    ensures { OneOrder (Moves O.meaning O.counted) O.counted }
{}
