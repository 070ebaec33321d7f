//! A queue that is being made: its key has an identifier, which is not settled yet.
ghost use Rattle.std.specs.Prelude.{◌≡◌};

use crate::pieces::make_queue;
use std::alloc::Global;
use std::process::Abort;
use std::sync::Wait;
use std::sync::atomic::AtomicBool;
use std::sync::atomic::Ordering::SeqCst;
use std::thread;
use sysv_seats::ServiceHandler;
use sysv_service::Clock;

/// The key of the queue.
pub(crate) const KEY: i32 = 4;

/// The maximum number of looks for which the call that makes the queue is held.
const LOOKS: u32 = 10_000_000;

/// How far the call is that makes the queue, and its clock.
#[derive(Drop)]
pub(crate) struct Stage {
    /// Whether the call has the identifier of its queue.
    begun: AtomicBool,
    /// Whether the call may go on.
    released: AtomicBool,
    /// Whether the call is over.
    over: AtomicBool,
}

impl Stage {
    pub(crate) fn new() -> Stage {
        Stage {
            begun: AtomicBool::new(false),
            released: AtomicBool::new(false),
            over: AtomicBool::new(false),
        }
    }

    /// Waits until the call has the identifier of its queue. Then it is held.
    pub(crate) fn await_begun(&self, rt: &impl Wait) {
        await_flag(rt, &self.begun);
    }

    /// Has the call settle its queue, and waits until it is over.
    pub(crate) fn finish(&self, rt: &impl Wait) {
        self.released.store(true, SeqCst);
        await_flag(rt, &self.over);
    }

    /// Makes the queue with identifier 0 on a new service.
    pub(crate) fn make<R: Abort + Wait>(
        &self,
        rt: &R,
        alloc: Global,
        maker: &mut ServiceHandler<'_, Stage, R>,
    )
        ensures { maker.new.service ≡ maker.old.service }
    {
        make_queue(rt, alloc, maker, KEY, 0);
        self.over.store(true, SeqCst);
    }
}

/// Waits until the flag is set.
fn await_flag(rt: &impl Wait, flag: &AtomicBool) {
    for _ in rt.forever() {
        if flag.load(SeqCst) {
            return;
        }
        thread::yield_now();
    }
}

/// The clock of the call that makes the queue, which it holds. A get reads the clock for the times of
/// its queue, after it has made the identifier, and before it settles it.
impl Clock for Stage {
    ghost may = { λ _ _. Unit {0} };

    fn now(&self) -> u64 {
        self.begun.store(true, SeqCst);
        for _ in 0..LOOKS {
            if self.released.load(SeqCst) {
                break;
            }
            thread::yield_now();
        }
        7
    }
}
