//! Each call that allocates, with a growth of it refused: it then returns `NoMemory`, and its
//! arguments are handed back unchanged.

use crate::gate::came_back;
use crate::parts::{LIMIT, assert_is};
use crate::sum::Sum;
use std::process::Abort;
use sysv_bank::Bank;
use sysv_gate::{Gate, Object, OpenRefused};
use tests_kit::mark;

/// Asserts that the object is unchanged.
fn assert_is_new(rt: &impl Abort, object: &Sum, sum: u64) {
    assert_eq!(rt; (object.sum, object.counts()), (sum, (0, 0)));
}

#[test]
fn gate_open(rt: HostRuntime) {
    let _marked = mark(rt.alloc());
    match Gate::open(rt.alloc(), Sum::new(7)) {
        Ok((gate, mut seat)) => {
            assert_is(&rt, gate.try_call(&mut seat, 1).ok(), Some(7));
            assert_is(&rt, gate.close(seat).turns, 1);
        }
        Err(OpenRefused::NoMemory(back)) => assert_is_new(&rt, &back, 7),
        Err(OpenRefused::BadStart(_)) => panic!(rt; "the start is 0"),
    }
}

#[test]
fn gate_starting_at(rt: HostRuntime) {
    let _marked = mark(rt.alloc());
    match Gate::starting_at(rt.alloc(), Sum::new(7), LIMIT - 1) {
        Ok((gate, mut seat)) => {
            assert_is(&rt, gate.call(&rt, &mut seat, 1).ok(), Some(7));
            assert_is(&rt, came_back(gate.call(&rt, &mut seat, 2)), Some(2));
            assert_is(&rt, gate.close(seat).turns, 1);
        }
        Err(OpenRefused::NoMemory(back)) => assert_is_new(&rt, &back, 7),
        Err(OpenRefused::BadStart(_)) => panic!(rt; "the start is below the limit"),
    }
}

// The objects are handed back in their order.
#[test]
fn bank_open(rt: HostRuntime) {
    let Ok(objects) = Vec::from_array(rt.alloc(), [Sum::new(10), Sum::new(20)]) else {
        return;
    };
    let _marked = mark(rt.alloc());
    match Bank::open(rt.alloc(), objects, 0) {
        Ok((bank, mut seat)) => {
            assert_is(&rt, bank.try_call(1, &mut seat, 1).ok(), Some(20));
            assert_is(&rt, bank.close(seat).len(), 2);
        }
        Err(OpenRefused::NoMemory(back)) => {
            let mut sums = back.iter().map(|sum| sum.sum);
            let found = (sums.next(), sums.next(), sums.next());
            assert_is(&rt, found, (Some(10), Some(20), None));
        }
        Err(OpenRefused::BadStart(_)) => panic!(rt; "the start is 0"),
    }
}

// The seat works as before, and its turns and those of the other seat are counted.
#[test]
fn bank_split(rt: HostRuntime) {
    let Ok(objects) = Vec::from_array(rt.alloc(), [Sum::new(10), Sum::new(20)]) else {
        return;
    };
    let Ok((bank, mut seat)) = Bank::open(rt.alloc(), objects, 0) else {
        return;
    };
    let _marked = mark(rt.alloc());
    let mut other = bank.split(rt.alloc(), &mut seat).expect(&rt, "a split");
    assert_is(&rt, bank.try_call(1, &mut other, 5).ok(), Some(20));
    bank.join(&mut seat, other);
    assert_is(&rt, bank.try_call(1, &mut seat, 1).ok(), Some(25));
    assert_is(&rt, bank.try_call(0, &mut seat, 1).ok(), Some(10));
    let closings = bank.close(seat);
    let mut turns = closings.iter().map(|closing| closing.turns);
    let found = (turns.next(), turns.next(), turns.next());
    assert_is(&rt, found, (Some(1), Some(2), None));
}
