//! The words that wake a sleeper, used by one thread.
use sysv_bells::Bells;

#[test]
fn a_ring_wakes_a_sleeper_once(rt: HostRuntime) {
    let (bells, mut sleeper) = Bells::open(rt.alloc(), 9).expect(&rt, "memory");
    let mut one = bells.teller(&mut sleeper);
    let mut other = bells.another_teller(&mut one);
    assert!(&rt; bells.fall_asleep(&mut sleeper));
    assert!(&rt; bells.tell(&mut one, 70));
    assert!(&rt; !bells.ring(&mut other));
    assert!(&rt; bells.has_come());
    assert!(&rt; bells.wake_up(&mut sleeper));
    let mut changes = [1; 9];
    bells.take_changes(&mut sleeper, &mut changes);
    assert_eq!(&rt; changes, [1, 65, 1, 1, 1, 1, 1, 1, 1]);
    assert!(&rt; !bells.wake_up(&mut sleeper));
}

#[test]
fn what_is_told_before_the_sleep_keeps_the_sleeper_awake(rt: HostRuntime) {
    let (bells, mut sleeper) = Bells::open(rt.alloc(), 9).expect(&rt, "memory");
    let mut teller = bells.teller(&mut sleeper);
    assert!(&rt; !bells.tell(&mut teller, 575));
    assert!(&rt; !bells.tell(&mut teller, 575));
    assert!(&rt; !bells.tell(&mut teller, 576));
    assert!(&rt; !bells.fall_asleep(&mut sleeper));
    assert!(&rt; bells.wake_up(&mut sleeper));
    let mut changes = [0; 9];
    bells.take_changes(&mut sleeper, &mut changes);
    assert_eq!(&rt; changes, [0, 0, 0, 0, 0, 0, 0, 0, 1 << 63]);
    bells.stay_awake(&mut sleeper);
    assert!(&rt; !bells.fall_asleep(&mut sleeper));
}

#[test]
fn a_teller_needs_no_seat(rt: HostRuntime) {
    let (bells, mut sleeper) = Bells::open(rt.alloc(), 1).expect(&rt, "memory");
    assert!(&rt; !bells.tell_anew(5).0);
    assert!(&rt; bells.wake_up(&mut sleeper));
    let mut changes = [0];
    bells.take_changes(&mut sleeper, &mut changes);
    assert_eq!(&rt; changes, [32]);
    assert!(&rt; bells.fall_asleep(&mut sleeper));
    assert!(&rt; bells.ring_anew().0);
    assert!(&rt; !bells.tell_anew(5).0);
}
