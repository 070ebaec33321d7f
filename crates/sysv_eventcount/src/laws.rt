//! Two laws about all seats of an eventcount or a sequencer together.
ghost use Rattle.sysv_eventcount.specs.Laws.{NoNumberInTwoSeats, NoValueIsInvented};

/// States that no number is in the lists of two seats. The function does nothing: its contract is
/// the law.
pub fn no_number_in_two_seats()
    ensures { NoNumberInTwoSeats }
{}

/// States that the word is at least every value that any seat has seen. The function does nothing:
/// its contract is the law.
pub fn no_value_is_invented()
    ensures { NoValueIsInvented }
{}
