//! Two workers run at once.
ghost use Rattle.std.specs.Prelude.{◌≡◌};

use super::*;
use std::sync::atomic::AtomicBool;
use std::sync::atomic::Ordering::SeqCst;
use std::thread;

/// The maximum number of looks for which an item is held.
const LOOKS: u32 = 10_000_000;

/// A job that holds item 0 until item 1 was run.
#[derive(Drop)]
struct Held {
    second: AtomicBool,
    late: AtomicBool,
}

impl Job<Ticket, u64> for Held {
    ghost fits = { λ _ _. Unit {0} };

    ghost runs = { λ _ before _ after. after.number ≡ before.number };

    fn run(&self, state: &mut Ticket, item: u64) {
        state.items = state.items.saturating_add(1);
        if item != 0 {
            self.second.store(true, SeqCst);
            return;
        }
        for _ in 0..LOOKS {
            if self.second.load(SeqCst) {
                return;
            }
            thread::yield_now();
        }
        self.late.store(true, SeqCst);
    }
}

#[test]
fn one_item_waits_for_another(rt: HostRuntime) {
    let job = Held {
        second: AtomicBool::new(false),
        late: AtomicBool::new(false),
    };
    let mut source = Numbers::below(2);
    let states = tickets(&rt, rt.alloc(), 2);
    let left = ran(&rt, rt.alloc(), states, &mut source, &job);
    assert_is(&rt, items_of(&rt, left, 2), 2);
    assert!(rt; !job.late.load(SeqCst));
    assert_is(&rt, source.asked, 3);
}
