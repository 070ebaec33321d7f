//! The example in the documentation of the gates, line by line.
use crate::sum::Sum;
use std::test::Fail;
use sysv_gate::Gate;

#[test]
fn two_seats_call_an_object(rt: HostRuntime) -> Result<(), Fail> {
    let opened = Gate::open(rt.alloc(), Sum::new(0)).ok();
    let (gate, mut seat) = opened.ok_or("no memory")?;
    let mut other = gate.split(&mut seat);
    // In one thread:
    let before = gate.call(&rt, &mut seat, 5).ok();
    // In another:
    let after = gate.call(&rt, &mut other, 7).ok();
    gate.join(&mut seat, other);
    let closing = gate.close(seat);
    assert_eq!(rt; (before, after, closing.turns), (Some(0), Some(5), 2));
    Ok(())
}
