//! Workers that wait before their first items.
ghost use Rattle.std.specs.Prelude.{◌≡◌};

use super::*;
use std::sync::atomic::Ordering::SeqCst;
use std::sync::atomic::{AtomicBool, AtomicU64};
use std::thread;

/// The maximum number of looks of a wait.
const LOOKS: u32 = 10_000_000;

/// A job whose workers wait until the source is called, or until the job is called off.
#[derive(Drop)]
pub(crate) struct Awaited {
    begun: AtomicBool,
    /// The number of workers that have waited, and of waits that were given up.
    waited: AtomicU64,
    given_up: AtomicU64,
}

impl Awaited {
    pub(crate) fn new() -> Awaited {
        Awaited {
            begun: AtomicBool::new(false),
            waited: AtomicU64::new(0),
            given_up: AtomicU64::new(0),
        }
    }

    /// Returns the number of waits that were given up.
    pub(crate) fn given_up(&self) -> u64 {
        self.given_up.load(SeqCst)
    }
}

impl Job<Ticket, u64> for Awaited {
    ghost fits = { λ _ _. Unit {0} };

    ghost runs = { λ _ before _ after. after.number ≡ before.number };

    fn await_first(&self, _state: &Ticket) {
        self.waited.fetch_add(1, SeqCst);
        for _ in 0..LOOKS {
            if self.begun.load(SeqCst) {
                return;
            }
            thread::yield_now();
        }
        self.given_up.fetch_add(1, SeqCst);
    }

    fn call_off(&self) {
        self.begun.store(true, SeqCst);
    }

    fn run(&self, state: &mut Ticket, _item: u64) {
        state.items = state.items.saturating_add(1);
    }
}

/// A source whose first call ends the waits of a job.
#[derive(Drop)]
pub(crate) struct Beginning<'a> {
    pub(crate) job: &'a Awaited,
    pub(crate) numbers: Numbers,
}

impl Source<u64> for Beginning<'_> {
    ghost gives = { λ _ _ _. Unit {0} };

    fn next(&mut self) -> Option<u64> {
        self.job.begun.store(true, SeqCst);
        self.numbers.next()
    }
}

#[test]
fn each_worker_waits_once(rt: HostRuntime) {
    let job = Awaited::new();
    let mut source = Beginning {
        job: &job,
        numbers: Numbers::below(10),
    };
    let states = tickets(&rt, rt.alloc(), 3);
    match run_workers(&rt, rt.alloc(), states, &mut source, &job) {
        Ok(states) => assert_is(&rt, items_of(&rt, states, 3), 10),
        Err(refused) => panic!(rt; "{}", refused.why),
    }
    assert_is(&rt, job.waited.load(SeqCst), 3);
    assert_is(&rt, job.given_up(), 0);
}
