//! The state of a pending call.

ghost use Rattle.std.specs.Prelude.{◌≡◌, Err};
ghost use Rattle.sysv_steps.specs.Next.{gone as finds_gone};

use sysv_model::Errno;

/// The state of a call after its start or after a step.
///
/// Each of the six calls has its own steps `S`, its own waits `W` and its own result `T`, so a call
/// is never before a step, in a wait or at an end of another call. A step is one turn at the
/// registry, at the slot of the call's queue or at the pool. What a call holds before a step can be
/// neither dropped nor copied.
pub enum State<S, W, T> {
    /// The call is before this step.
    Goes(S),
    /// The call waits for a count.
    Waits(W),
    /// The call is over, with this result.
    Over(Result<T, Errno>),
}

/// The wait of a call that never waits.
#[derive(Clone, Copy)]
pub enum NoWait {}

impl<S, W, T> State<S, W, T> {
    /// Returns the state of a call that was refused with `errno`.
    pub(crate) fn refused(errno: Errno) -> State<S, W, T>
        ensures { result ≡ State.Over (Err errno) }
    {
        State::Over(Err(errno))
    }

    /// Returns the state of a call that is over because its identifier is not live (POSIX.1-2017,
    /// `msgsnd` and `msgrcv`, ERRORS).
    pub(crate) fn refused_as_gone(live_seen: bool) -> State<S, W, T>
        ensures { result ≡ State.Over (Err (finds_gone live_seen)) }
    {
        State::refused(gone(live_seen))
    }
}

/// Returns the error of a call whose identifier is not live: EIDRM if the call had found it live
/// before, because it was removed since, else EINVAL (POSIX.1-2017, `msgsnd` and `msgrcv`, ERRORS).
pub(crate) fn gone(live_seen: bool) -> Errno
    ensures { result ≡ finds_gone live_seen }
{
    if live_seen {
        Errno::EIDRM
    } else {
        Errno::EINVAL
    }
}
