//! Threads that have slept are no longer counted as sleepers. A run counts the wakes after the
//! mark, and expects none.
ghost use Rattle.std.specs.Prelude.{◌≡◌};

use super::{Role, Slow, told_to_four, wait_out_a_turn};
use crate::gate::opened;
use crate::parts::assert_is;
use std::sync::Wait;
use std::test::Fail;
use sysv_gate::{Gate, Seat};
use tests_kit::mark;

/// The number of calls that follow. It is above the number of doorbells for turns.
const CALLS: u64 = 64;

// A thread has slept at each of the doorbells for counts.
#[test]
fn counts(rt: HostRuntime) -> Result<(), Fail> {
    let (gate, mut seat) = opened(&rt, 0).ok_or("no memory")?;
    let roles = [
        Role::NotesTime,
        Role::NotesTime,
        Role::WaitsForFreed(1),
        Role::RaisesBoth,
    ];
    let [_, _, freed, raised] = told_to_four(&rt, &gate, &mut seat, roles);
    let _marked = mark(rt.alloc());
    let odd = gate.call(&rt, &mut seat, 1).ok();
    let even = gate.call(&rt, &mut seat, 2).ok();
    assert_is(&rt, (freed, raised), (Some(1), Some(1)));
    assert_is(&rt, (odd, even), (Some(3), Some(4)));
    assert_is(&rt, gate.close(seat).turns, 4);
    Ok(())
}

/// Returns whether each call was answered.
fn call_often(rt: &impl Wait, gate: &Gate<Slow>, seat: &mut Seat<Slow>) -> bool
    requires { seat.old.gate ≡ gate.now }
    ensures { seat.new.gate ≡ gate.now }
{
    for _ in 0..CALLS {
        if gate.call(rt, seat, 0).is_err() {
            return false;
        }
    }
    true
}

// A thread has slept until its turn came.
#[test]
fn turns(rt: HostRuntime) -> Result<(), Fail> {
    let Ok((gate, mut seat)) = Gate::open(rt.alloc(), Slow { slow: 0 }) else {
        return Err("no memory".into());
    };
    let slow = gate.split(&mut seat);
    let waiting = gate.split(&mut seat);
    let (held, used) = wait_out_a_turn(&rt, &gate, slow, waiting);
    let _marked = mark(rt.alloc());
    let called = call_often(&rt, &gate, &mut seat);
    let closing = gate.close(seat);
    assert!(rt; held && used.is_some() && called);
    assert_is(&rt, closing.turns, 2 + CALLS);
    Ok(())
}
