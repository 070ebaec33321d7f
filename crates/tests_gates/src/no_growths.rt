//! Calls that allocate nothing. A run counts the growths after the mark, refuses each, and expects
//! none.

use crate::parts::assert_is;
use crate::sum::Sum;
use sysv_gate::{Awaited, Gate};
use tests_kit::mark;

#[test]
fn gate(rt: HostRuntime) {
    let Ok((gate, mut seat)) = Gate::open(rt.alloc(), Sum::new(0)) else {
        return;
    };
    let _marked = mark(rt.alloc());
    assert_is(&rt, gate.call(&rt, &mut seat, 5).ok(), Some(0));
    assert_is(&rt, gate.try_call(&mut seat, 4).ok(), Some(5));
    gate.wake(&rt);
    let mut other = gate.split(&mut seat);
    assert_is(&rt, gate.call(&rt, &mut other, 3).ok(), Some(9));
    let counts = (gate.arrived(&mut seat), gate.freed(&mut seat));
    assert_is(&rt, counts, (2, 1));
    let arrived = gate.await_arrived(&rt, &mut seat, 2);
    assert_is(&rt, arrived, Awaited::Reached(2));
    let freed = gate.await_freed(&rt, &mut other, 1);
    assert_is(&rt, freed, Awaited::Reached(1));
    gate.join(&mut seat, other);
    let closing = gate.close(seat);
    let sum = closing.object.map(|sum| sum.sum);
    assert_is(&rt, (closing.turns, sum), (3, Some(12)));
}
