//! A count under a lock, as one writes it with std. Eventcounts are compared with it.
use std::sync::{Condvar, Mutex, Wait};

/// A number that only rises, under a lock.
#[derive(Drop)]
pub(crate) struct LockedCount {
    value: Mutex<u64>,
    advanced: Condvar,
}

impl LockedCount {
    /// Returns a count whose value is `first`.
    pub(crate) fn new(first: u64) -> LockedCount {
        LockedCount {
            value: Mutex::new(first),
            advanced: Condvar::new(),
        }
    }

    /// Adds one, and wakes all threads that wait.
    pub(crate) fn advance(&self, rt: &impl Wait) {
        let mut value = self.value.lock(rt);
        *value = value.wrapping_add(1);
        drop(value);
        self.advanced.notify_all();
    }

    /// Waits until the count is at least `goal`.
    pub(crate) fn await_at_least(&self, rt: &impl Wait, goal: u64) {
        let mut value = self.value.lock(rt);
        for _ in rt.forever() {
            if *value >= goal {
                return;
            }
            value = self.advanced.wait(rt, value);
        }
        unreachable!()
    }
}
