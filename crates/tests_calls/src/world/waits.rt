//! Calls that wait, and what ends their waits.

use super::*;

/// Has the actor receive at most nine bytes of this type from queue 0, and wait for a message.
fn receive_waiting(rt: &impl Abort, alloc: Global, world: &mut World, actor: u32, mtype: i64) {
    let call = receive_of(rt, alloc, 9, mtype, flags(0));
    assert_nothing(rt, world.step(start(actor, call)));
    for _ in 0..3 {
        assert_nothing(rt, world.step(step(actor)));
    }
    assert_waits(rt, world, actor);
}

/// Returns a send to queue 0 that waits for room.
fn send_waiting(rt: &impl Abort, alloc: Global, mtype: i64, text: &[u8]) -> Call {
    Call::Send {
        id: 0,
        mtype,
        flags: flags(0),
        body: body_of(rt, alloc, text),
    }
}

#[test]
fn one_of_two_receivers_is_given_the_message(rt: HostRuntime) {
    let alloc = rt.alloc();
    let mut world = world_with_queue(&rt, alloc, 4);
    receive_waiting(&rt, alloc, &mut world, 2, 3);
    receive_waiting(&rt, alloc, &mut world, 3, 3);
    assert_sends_type(&rt, alloc, &mut world, 1, 3, b"x");
    let got = Outcome::Got { mtype: 3, len: 1 };
    assert_ends(&rt, &mut world, (2, got, Some(b"x")));
    for _ in 0..3 {
        assert_nothing(&rt, world.step(step(3)));
    }
    assert_waits(&rt, &world, 3);
    assert_is(&rt, world.end(), 1024);
}

#[test]
fn a_removal_ends_all_waits(rt: HostRuntime) {
    let alloc = rt.alloc();
    let mut world = world_at(&rt, alloc, 0, 0);
    assert_makes(&rt, &mut world, 1, get_or_make(7), Outcome::Id(0));
    let to = SetTo {
        uid: 1000,
        gid: 1000,
        mode: 0o600,
        qbytes: 1,
    };
    assert_makes(&rt, &mut world, 1, Call::Set { id: 0, to }, Outcome::Zero);
    let call = send_waiting(&rt, alloc, 1, b"ab");
    assert_nothing(&rt, world.step(start(2, call)));
    assert_nothing(&rt, world.step(step(2)));
    assert_nothing(&rt, world.step(step(2)));
    assert_waits(&rt, &world, 2);
    receive_waiting(&rt, alloc, &mut world, 3, 0);
    let removed = make(&rt, &mut world, 1, Call::Remove { id: 0 });
    assert_is(&rt, removed, Outcome::Zero);
    let gone = Outcome::Refused(Errno::EIDRM);
    assert_nothing(&rt, world.step(step(2)));
    assert_answer(&rt, world.step(step(2)), (2, gone, None));
    assert_nothing(&rt, world.step(step(3)));
    assert_answer(&rt, world.step(step(3)), (3, gone, Some(b"")));
    let call = send_waiting(&rt, alloc, 1, b"ab");
    let invalid = Outcome::Refused(Errno::EINVAL);
    assert_makes(&rt, &mut world, 2, call, invalid);
    assert_makes(&rt, &mut world, 1, get_or_make(7), Outcome::Id(256));
    assert_is(&rt, world.end(), 128);
}

#[test]
fn a_taken_message_makes_room(rt: HostRuntime) {
    let alloc = rt.alloc();
    let mut world = world_with_queue(&rt, alloc, 2);
    let bytes = [b'x'; 8192];
    assert_sends(&rt, alloc, &mut world, 1, &bytes);
    assert_sends(&rt, alloc, &mut world, 1, &bytes);
    let call = send_waiting(&rt, alloc, 4, b"y");
    assert_nothing(&rt, world.step(start(2, call)));
    assert_nothing(&rt, world.step(step(2)));
    assert_nothing(&rt, world.step(step(2)));
    assert_waits(&rt, &world, 2);
    let call = receive_of(&rt, alloc, 9000, 0, Flags::IPC_NOWAIT);
    let got = Outcome::Got {
        mtype: 7,
        len: 8192,
    };
    assert_makes(&rt, &mut world, 1, call, got);
    assert_is(&rt, go(&rt, &mut world, 2), Outcome::Zero);
    assert_is(&rt, world.end(), 1024);
}

fn assert_worn(rt: &impl Abort, stepped: Stepped) {
    assert!(rt; matches!(&stepped, Stepped::Worn));
}

#[test]
fn the_last_steps_of_a_world(rt: HostRuntime) {
    let alloc = rt.alloc();
    let mut world = world_at(&rt, alloc, (1 << 62) - 1, 0);
    assert_nothing(&rt, world.step(start(1, get_or_make(0))));
    assert_worn(&rt, world.step(step(1)));
    assert_is(&rt, world.end(), 128);
    let mut world = world_at(&rt, alloc, (1 << 62) - 3, 0);
    assert_is(&rt, world.preset(), true);
    receive_waiting(&rt, alloc, &mut world, 1, 0);
    assert_nothing(&rt, world.step(step(1)));
    assert_nothing(&rt, world.step(start(2, get_or_make(0))));
    assert_worn(&rt, world.step(step(1)));
    assert_worn(&rt, world.step(step(2)));
    assert_is(&rt, world.preset(), false);
    assert_is(&rt, world.end(), 128);
}
