//! The lowest and highest numbers of states, and a source with no item.
ghost use Rattle.std.specs.Prelude.{◌≡◌, ◌≤◌};

use super::*;

/// A job that counts its items.
#[derive(Drop)]
struct Counting;

impl Job<Ticket, u64> for Counting {
    ghost fits = { λ _ _. Unit {0} };

    ghost runs = { λ _ before _ after. after.number ≡ before.number };

    fn run(&self, state: &mut Ticket, _item: u64) {
        state.items = state.items.saturating_add(1);
    }
}

/// Asserts that this number of states is refused.
fn are_refused<R: Threads + Wait + Abort + Sync>(rt: &R, alloc: Global, count: usize)
    requires { count ≤ 17 }
{
    let mut source = Numbers::below(5);
    let states = tickets(rt, alloc, count);
    match run_workers(rt, alloc, states, &mut source, &Counting) {
        Ok(_) => panic!(rt; "{count} states"),
        Err(refused) => {
            let WorkersRefused { why, states } = refused;
            assert_is(rt, why, WorkersFault::BadCount);
            assert_is(rt, items_of(rt, states, count as u64), 0);
            assert_is(rt, source.asked, 0);
        }
    }
}

/// Asserts that this number of states runs all items.
fn are_run<R: Threads + Wait + Abort + Sync>(rt: &R, alloc: Global, count: usize)
    requires { count ≤ 17 }
{
    let mut source = Numbers::below(400);
    let states = tickets(rt, alloc, count);
    let left = ran(rt, alloc, states, &mut source, &Counting);
    assert_is(rt, items_of(rt, left, count as u64), 400);
}

#[test]
fn a_number_of_states_out_of_range(rt: HostRuntime) {
    are_refused(&rt, rt.alloc(), 0);
    are_refused(&rt, rt.alloc(), 17);
}

#[test]
fn one_state_and_sixteen(rt: HostRuntime) {
    are_run(&rt, rt.alloc(), 1);
    are_run(&rt, rt.alloc(), 16);
}

#[test]
fn a_source_with_nothing(rt: HostRuntime) {
    let mut source = Numbers::below(0);
    let states = tickets(&rt, rt.alloc(), 3);
    let left = ran(&rt, rt.alloc(), states, &mut source, &Counting);
    assert_is(&rt, items_of(&rt, left, 3), 0);
    assert_is(&rt, source.asked, 1);
}
