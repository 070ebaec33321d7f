//! Laws about the definitions.
ghost use Rattle.sysv_seats.specs.Fates.{EachMessageIsSpentOrHeld};
ghost use Rattle.sysv_seats.specs.GivingBack.{EachReturnCanBeLeft};

/// States what becomes of the messages that sessions hold: each message that a hold gave was spent by a
/// done that was answered with 0, or given back, by a back or since its time was over, or is held at the
/// end of its session.
pub fn each_message_is_spent_or_held()
    ensures { EachMessageIsSpentOrHeld }
{}

/// States that what gives a message back can be left while it waits. The message is then still held.
pub fn each_return_can_be_left()
    ensures { EachReturnCanBeLeft }
{}
