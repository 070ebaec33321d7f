//! What a worker is told by the words of its alarm, and then heeds.
use sysv_bells::Bells;
use sysv_parking::{Agenda, CHANGE_WORDS, Change, Changes};

#[test]
fn a_worker_heeds_what_it_was_told(rt: HostRuntime) {
    let (bells, mut sleeper) = Bells::open(rt.alloc(), CHANGE_WORDS).expect(&rt, "memory");
    let mut agenda = Agenda::open(rt.alloc(), 0, 4).expect(&rt, "memory");
    let mut teller = bells.teller(&mut sleeper);
    let room = Change::Room { slot: 3 }.number().expect(&rt, "a number");
    let blocks = Change::Blocks.number().expect(&rt, "a number");
    bells.tell(&mut teller, room);
    bells.tell(&mut teller, blocks);
    assert!(&rt; bells.wake_up(&mut sleeper));
    agenda.take_told(&bells, &mut sleeper);
    assert!(&rt; agenda.has_more());
    assert_eq!(&rt; agenda.heed_change(), Some(Change::Room { slot: 3 }));
    assert_eq!(&rt; agenda.heed_change(), Some(Change::Blocks));
    assert!(&rt; !agenda.has_more());
}

#[test]
fn what_is_told_twice_is_one_change(rt: HostRuntime) {
    let (bells, mut sleeper) = Bells::open(rt.alloc(), CHANGE_WORDS).expect(&rt, "memory");
    let mut changes = Changes::none();
    let mut teller = bells.teller(&mut sleeper);
    let number = Change::Settled.number().expect(&rt, "a number");
    bells.tell(&mut teller, number);
    bells.tell(&mut teller, number);
    assert!(&rt; bells.wake_up(&mut sleeper));
    changes.take_told(&bells, &mut sleeper);
    assert_eq!(&rt; changes.take(), Some(Change::Settled));
    assert_eq!(&rt; changes.take(), None);
}
