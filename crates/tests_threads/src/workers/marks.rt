//! Each item is run once.
use super::*;

/// The number of items.
const ITEMS: u64 = 1_000;

/// How often each item was run with a state.
#[derive(Drop)]
struct Marks {
    marks: [u8; 1_000],
}

/// A job that marks each item.
#[derive(Drop)]
struct Marking;

impl Job<Marks, u64> for Marking {
    ghost fits = { λ _ _. Unit {0} };

    ghost runs = { λ _ _ _ _. Unit {0} };

    fn run(&self, state: &mut Marks, item: u64) {
        if let Some(mark) = state.marks.get_mut(item as usize) {
            *mark = mark.saturating_add(1);
        }
    }
}

fn unmarked() -> Marks {
    Marks { marks: [0; 1_000] }
}

/// Returns four states without a mark. Tolerates one refusal of memory.
fn four(rt: &impl Abort, alloc: Global) -> Vec<Marks> {
    match Vec::from_array(alloc, [unmarked(), unmarked(), unmarked(), unmarked()]) {
        Ok(states) => states,
        Err(_) => {
            Vec::from_array(alloc, [unmarked(), unmarked(), unmarked(), unmarked()]).expect(
                rt, "memory",
            )
        }
    }
}

#[test]
fn each_item_is_run_once(rt: HostRuntime) {
    let mut source = Numbers::below(ITEMS);
    let states = four(&rt, rt.alloc());
    let left = ran(&rt, rt.alloc(), states, &mut source, &Marking);
    assert_is(&rt, left.len(), 4);
    let mut all = [0_u8; 1_000];
    for state in &left {
        for (sum, mark) in all.iter_mut().zip(state.marks.iter()) {
            *sum = sum.saturating_add(*mark);
        }
    }
    assert!(rt; all.iter().all(|mark| *mark == 1));
    assert_is(&rt, source.asked, ITEMS + 1);
}
