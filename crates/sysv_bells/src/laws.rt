//! What holds while the sleeper sleeps.
ghost use Rattle.sysv_bells.specs.Laws.{NoWakeUpIsLost};

/// States that no wake-up is lost: if the sleeper sleeps, no teller has taken its word that it
/// sleeps, and no teller is in the middle of a call, then nothing is told that the sleeper has not
/// taken, and nobody has rung. The function does nothing: its contract is the law.
pub fn no_wake_up_is_lost()
    ensures { NoWakeUpIsLost }
{}
