//! Doorbells, used by one thread.
use sysv_doorbells::Doorbells;

#[test]
fn a_ring_ends_the_sleep_of_who_has_entered(rt: HostRuntime) {
    let doorbells = Doorbells::open(rt.alloc(), 3).expect(&rt, "memory");
    assert!(&rt; !doorbells.has_sleepers().0);
    assert!(&rt; !doorbells.ring(1).0);
    let one = doorbells.enter(1);
    let other = doorbells.enter(1);
    assert!(&rt; doorbells.has_sleepers().0);
    assert!(&rt; !doorbells.ring(2).0);
    assert!(&rt; doorbells.ring(1).0);
    doorbells.sleep(&rt, &one);
    doorbells.sleep(&rt, &other);
    doorbells.leave(one);
    assert!(&rt; doorbells.ring(1).0);
    doorbells.leave(other);
    assert!(&rt; !doorbells.ring(1).0);
    assert!(&rt; !doorbells.has_sleepers().0);
}

#[test]
fn one_is_called_at_a_time(rt: HostRuntime) {
    let doorbells = Doorbells::open(rt.alloc(), 1).expect(&rt, "memory");
    assert!(&rt; !doorbells.call_one().0);
    let one = doorbells.enter(0);
    assert!(&rt; doorbells.call_one().0);
    assert!(&rt; !doorbells.call_one().0);
    let other = doorbells.enter(0);
    assert!(&rt; doorbells.call_one().0);
    doorbells.sleep(&rt, &one);
    doorbells.sleep(&rt, &other);
    doorbells.leave(one);
    assert!(&rt; doorbells.call_one().0);
    doorbells.leave(other);
    assert!(&rt; !doorbells.call_one().0);
}
