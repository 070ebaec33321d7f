//! Gates used by one thread.
ghost use Rattle.std.specs.Prelude.{◌≡◌, ℕ, ◌+◌, ◌%◌, ◌^◌, ◌≤◌, ◌<◌, IfSome};

mod pool;
mod threads;

use crate::parts::{LIMIT, assert_is};
use crate::sum::Sum;
use std::test::Fail;
use sysv_gate::{Awaited, Gate, Object, OpenRefused, Seat, TryRefused, Worn};

fn opened(rt: &HostRuntime, first: u64) -> Option<(Gate<Sum>, Seat<Sum>)>
    ensures { IfSome result (λ o. o.1.gate ≡ o.0) }
{
    Gate::starting_at(rt.alloc(), Sum::new(0), first).ok()
}

/// Returns the call that was handed back because the gate is worn out.
pub(crate) fn came_back<R: Drop>(called: Result<R, Worn<u8>>) -> Option<u8> {
    match called {
        Ok(_) => None,
        Err(worn) => Some(worn.call),
    }
}

/// Returns the call of a try that was handed back because the gate is worn out.
pub(crate) fn worn_of<R: Drop>(tried: Result<R, TryRefused<u8>>) -> Option<u8> {
    match tried {
        Err(TryRefused::Worn(call)) => Some(call),
        _ => None,
    }
}

#[test]
fn calls_are_served_in_turn(rt: HostRuntime) -> Result<(), Fail> {
    let Ok((gate, mut seat)) = Gate::open(rt.alloc(), Sum::new(0)) else {
        return Err("no memory".into());
    };
    let first = gate.call(&rt, &mut seat, 5).ok();
    let second = gate.call(&rt, &mut seat, 7).ok();
    let third = gate.try_call(&mut seat, 3).ok();
    gate.wake(&rt);
    let closing = gate.close(seat);
    assert_is(&rt, (first, second, third), (Some(0), Some(5), Some(12)));
    assert_is(&rt, closing.turns, 3);
    assert!(rt; closing.rest.is_none());
    let sum = closing.object.ok_or("the object is at home")?;
    assert_is(&rt, (sum.sum, sum.counts()), (15, (3, 0)));
    Ok(())
}

#[test]
fn the_last_ticket_is_served(rt: HostRuntime) -> Result<(), Fail> {
    let (gate, mut seat) = opened(&rt, LIMIT - 1).ok_or("no memory")?;
    assert_is(&rt, gate.call(&rt, &mut seat, 9).ok(), Some(0));
    assert_is(&rt, came_back(gate.call(&rt, &mut seat, 8)), Some(8));
    assert_is(&rt, worn_of(gate.try_call(&mut seat, 4)), Some(4));
    let closing = gate.close(seat);
    assert_is(
        &rt,
        (closing.turns, closing.object.map(|sum| sum.sum)),
        (1, Some(9)),
    );
    Ok(())
}

#[test]
fn a_worn_gate_serves_nothing(rt: HostRuntime) -> Result<(), Fail> {
    let (gate, mut seat) = opened(&rt, LIMIT).ok_or("no memory")?;
    assert_is(&rt, came_back(gate.call(&rt, &mut seat, 5)), Some(5));
    assert_is(&rt, worn_of(gate.try_call(&mut seat, 6)), Some(6));
    let closing = gate.close(seat);
    assert_is(
        &rt,
        (closing.turns, closing.object.map(|sum| sum.sum)),
        (0, Some(0)),
    );
    Ok(())
}

#[test]
fn a_start_above_the_limit_is_refused(rt: HostRuntime) {
    for first in [LIMIT + 1, u64::MAX] {
        match Gate::starting_at(rt.alloc(), Sum::new(3), first) {
            Err(OpenRefused::BadStart(back)) => assert_is(&rt, back.sum, 3),
            _ => panic!(rt; "the start is above the limit"),
        }
    }
}

// A gate is opened and closed: not every opening is refused memory.
#[test]
fn always_no_memory(rt: HostRuntime) -> Result<(), Fail> {
    let (gate, seat) = opened(&rt, 0).ok_or("no memory")?;
    assert_is(&rt, gate.close(seat).turns, 0);
    Ok(())
}

// A single try has its turn: not every try is busy.
#[test]
fn try_call_always_busy(rt: HostRuntime) -> Result<(), Fail> {
    let (gate, mut seat) = opened(&rt, 0).ok_or("no memory")?;
    let reply = gate.try_call(&mut seat, 3).ok();
    assert_is(&rt, (reply, gate.close(seat).turns), (Some(0), 1));
    Ok(())
}

/// A slip that can be neither dropped nor copied.
struct Slip {
    number: u32,
}

/// Keeps one slip: each call hands one in, and the previous slip is handed back.
struct Drawer {
    kept: Slip,
}

impl Object for Drawer {
    type Call = Slip;

    type Reply = Slip;

    ghost meaning = { λ before call reply after. (reply ≡ before.kept) × (after.kept ≡ call) };

    ghost counted = { λ _. (0, 0) };

    fn apply(&mut self, call: Slip) -> Slip {
        std::mem::replace(&mut self.kept, call)
    }

    fn counts(&self) -> (u64, u64) {
        (0, 0)
    }
}

/// Spends a slip, and returns its number.
fn number_of(slip: Slip) -> u32 {
    let Slip { number } = slip;
    number
}

#[test]
fn what_cannot_be_dropped_goes_through(rt: HostRuntime) {
    let drawer = Drawer {
        kept: Slip { number: 1 },
    };
    match Gate::starting_at(rt.alloc(), drawer, LIMIT - 1) {
        Ok((gate, mut seat)) => {
            match gate.try_call(&mut seat, Slip { number: 2 }) {
                Ok(slip) => assert_is(&rt, number_of(slip), 1),
                Err(TryRefused::Busy(slip) | TryRefused::Worn(slip)) => {
                    assert_is(&rt, number_of(slip), 0);
                }
            }
            let closing = gate.close(seat);
            assert_is(&rt, number_in(closing.object), 2);
            assert_is(&rt, number_in(closing.rest), 0);
        }
        Err(OpenRefused::NoMemory(drawer) | OpenRefused::BadStart(drawer)) => {
            assert_is(&rt, number_in(Some(drawer)), 1);
        }
    }
}

/// Spends the slip that a drawer keeps. Returns its number, or 0 if there is no drawer.
fn number_in(drawer: Option<Drawer>) -> u32 {
    match drawer {
        Some(Drawer { kept }) => number_of(kept),
        None => 0,
    }
}

// A seat that was split off sees what its origin has seen, and a join combines the turns of both.
#[test]
fn seats_come_and_go(rt: HostRuntime) -> Result<(), Fail> {
    let (gate, mut seat) = opened(&rt, 100).ok_or("no memory")?;
    assert_is(&rt, gate.try_call(&mut seat, 1).ok(), Some(0));
    let mut other = gate.split(&mut seat);
    assert_is(&rt, gate.try_call(&mut other, 2).ok(), Some(1));
    assert_is(&rt, gate.call(&rt, &mut seat, 3).ok(), Some(3));
    let third = gate.split(&mut other);
    gate.join(&mut seat, other);
    gate.join(&mut seat, third);
    assert_is(&rt, gate.try_call(&mut seat, 4).ok(), Some(6));
    let closing = gate.close(seat);
    assert_is(
        &rt,
        (closing.turns, closing.object.map(|sum| sum.sum)),
        (4, Some(10)),
    );
    Ok(())
}

// The first count rises at odd numbers, and the second at even numbers.
#[test]
fn counts_are_announced(rt: HostRuntime) -> Result<(), Fail> {
    let (gate, mut seat) = opened(&rt, 0).ok_or("no memory")?;
    assert_is(
        &rt,
        (gate.arrived(&mut seat), gate.freed(&mut seat)),
        (0, 0),
    );
    let mut other = gate.split(&mut seat);
    assert_is(&rt, gate.call(&rt, &mut seat, 5).ok(), Some(0));
    assert_is(&rt, gate.call(&rt, &mut seat, 7).ok(), Some(5));
    assert_is(&rt, gate.call(&rt, &mut seat, 4).ok(), Some(12));
    assert_is(
        &rt,
        (gate.arrived(&mut seat), gate.freed(&mut seat)),
        (2, 1),
    );
    assert_is(
        &rt,
        gate.await_arrived(&rt, &mut seat, 2),
        Awaited::Reached(2),
    );
    assert_is(
        &rt,
        (gate.arrived(&mut other), gate.freed(&mut other)),
        (2, 1),
    );
    assert_is(&rt, gate.try_call(&mut other, 2).ok(), Some(16));
    assert_is(
        &rt,
        gate.await_freed(&rt, &mut seat, 1),
        Awaited::Reached(2),
    );
    gate.join(&mut seat, other);
    assert_is(&rt, gate.close(seat).turns, 4);
    Ok(())
}

// At a worn gate, a wait for a reached count is answered, and any other wait is given up.
#[test]
fn a_wait_at_a_worn_gate_ends(rt: HostRuntime) -> Result<(), Fail> {
    let (gate, mut seat) = opened(&rt, LIMIT - 1).ok_or("no memory")?;
    assert_is(&rt, gate.call(&rt, &mut seat, 9).ok(), Some(0));
    assert_is(
        &rt,
        gate.await_arrived(&rt, &mut seat, 1),
        Awaited::Reached(1),
    );
    assert_is(&rt, gate.await_arrived(&rt, &mut seat, 2), Awaited::Worn);
    assert_is(
        &rt,
        gate.await_freed(&rt, &mut seat, 0),
        Awaited::Reached(0),
    );
    assert_is(&rt, gate.await_freed(&rt, &mut seat, 1), Awaited::Worn);
    assert_is(&rt, gate.close(seat).turns, 1);
    Ok(())
}
