//! Steps of a world, which allocate nothing. A run counts the growths after the mark, refuses each,
//! and expects none.
use super::*;
use tests_kit::mark;

/// Reads and changes the queue's attributes.
fn control(rt: &impl Abort, world: &mut World) {
    let stat = stat_of(rt, world, 2);
    assert_is(rt, (stat.key, stat.qnum), (7, 0));
    let to = SetTo {
        uid: 1000,
        gid: 1000,
        mode: 0o640,
        qbytes: 9,
    };
    assert_makes(rt, world, 2, Call::Set { id: 0, to }, Outcome::Zero);
}

#[test]
fn step_of_world(rt: HostRuntime) {
    let alloc = rt.alloc();
    let mut world = world_at(&rt, alloc, 0, 0);
    let sent = send(&rt, alloc, 1, 5, b"hello");
    let left = send(&rt, alloc, 2, 6, b"left");
    let received = receive(&rt, alloc, 3);
    let _marked = mark(alloc);
    assert_makes(&rt, &mut world, 1, get_or_make(7), Outcome::Id(0));
    assert_nothing(&rt, world.step(sent));
    assert_ends(&rt, &mut world, (1, Outcome::Zero, None));
    assert_nothing(&rt, world.step(received));
    let got = Outcome::Got { mtype: 5, len: 5 };
    assert_ends(&rt, &mut world, (3, got, Some(b"hello")));
    control(&rt, &mut world);
    assert_nothing(&rt, world.step(left));
    assert_ends(&rt, &mut world, (2, Outcome::Zero, None));
    assert_makes(&rt, &mut world, 1, Call::Remove { id: 0 }, Outcome::Zero);
    assert_is(&rt, world.end(), 128);
}
