//! What holds while a thread sleeps.
ghost use Rattle.sysv_doorbells.specs.Laws.{NoWakeUpIsLost};

/// States that no wake-up is lost. Suppose that a thread is ready to sleep on the number of strokes
/// that it has read, that no stroke has been made since, and that nobody is in the middle of a ring
/// of that doorbell. Then nobody has rung it since, and the next one to ring makes a stroke. The
/// function does nothing: its contract is the law.
pub fn no_wake_up_is_lost()
    ensures { NoWakeUpIsLost }
{}
