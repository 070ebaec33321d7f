//! How long a client waits for a reply.
ghost use Rattle.std.specs.Prelude.{◌≡◌};
ghost use Rattle.sysv_connect.specs.Patience.{limit_of, may_wait};

use sysv_clients::Task;

/// How long a reply is waited for if no call of the command waits and `--wait` states no time, in
/// milliseconds. A server replies much sooner. A socket of another program may never reply.
pub(crate) const REPLY_MILLIS: u64 = 60_000;

/// How long a client waits for a reply.
#[derive(Clone, Copy, PartialEq, Eq, Debug)]
pub(crate) struct Patience {
    /// The number of milliseconds that each reply is waited for at most.
    pub(crate) limit: Option<u64>,
    /// Whether a call may be left after that time.
    pub(crate) may_leave: bool,
}

impl Patience {
    /// Returns the patience of a task with this time of `--wait`, if it has one.
    pub(crate) fn of(task: &Task<'_>, wait: Option<u64>) -> Patience
        ensures { result.limit ≡ limit_of task.now wait }
    {
        let waits = may_wait(task);
        Patience {
            limit: match wait {
                None if !waits => Some(REPLY_MILLIS),
                wait => wait,
            },
            may_leave: waits && wait.is_some(),
        }
    }
}

/// Returns whether a task has a call that may wait: for a message, or for room.
fn may_wait(task: &Task<'_>) -> bool
    ensures { result ≡ may_wait task.now }
{
    match *task {
        Task::Send { nowait, .. } => !nowait,
        Task::Receive(receipt) => !receipt.nowait,
        Task::List(_) | Task::Show(_) | Task::Remove(_) | Task::Make(_) => false,
    }
}
