//! Calls that run short of blocks, and what ends their waits.

use super::*;

/// Returns a send of this body to a queue.
fn send_to(rt: &impl Abort, alloc: Global, id: i32, mtype: i64, text: &[u8], flags: Flags) -> Call {
    Call::Send {
        id,
        mtype,
        flags,
        body: body_of(rt, alloc, text),
    }
}

#[test]
fn a_send_is_refused_where_no_block_is_free(rt: HostRuntime) {
    let alloc = rt.alloc();
    let mut world = world_at(&rt, alloc, 0, 0);
    assert_that(&rt, world.preset());
    let again = Outcome::Refused(Errno::EAGAIN);
    assert_sends(&rt, alloc, &mut world, 1, &[b'x'; 8192]);
    let call = send_to(&rt, alloc, 0, 1, b"x", Flags::IPC_NOWAIT);
    assert_makes(&rt, &mut world, 1, call, again);
    assert_sends_type(&rt, alloc, &mut world, 1, 2, b"");
    let call = receive_of(&rt, alloc, 0, 2, Flags::IPC_NOWAIT);
    let got = Outcome::Got { mtype: 2, len: 0 };
    assert_makes(&rt, &mut world, 2, call, got);
    assert_is(&rt, world.end(), 128);
}

#[test]
fn a_send_waits_for_the_blocks_of_another_queue(rt: HostRuntime) {
    let alloc = rt.alloc();
    let mut world = world_at(&rt, alloc, 0, 0);
    assert_makes(&rt, &mut world, 1, get_or_make(1), Outcome::Id(0));
    assert_makes(&rt, &mut world, 1, get_or_make(2), Outcome::Id(1));
    assert_sends(&rt, alloc, &mut world, 1, &[b'x'; 8192]);
    let call = send_to(&rt, alloc, 1, 1, b"x", flags(0));
    assert_nothing(&rt, world.step(start(2, call)));
    for _ in 0..4 {
        assert_nothing(&rt, world.step(step(2)));
    }
    assert_waits(&rt, &world, 2);
    let call = receive_of(&rt, alloc, 0, 0, Flags::MSG_NOERROR);
    let got = Outcome::Got { mtype: 7, len: 0 };
    assert_makes(&rt, &mut world, 3, call, got);
    assert_is(&rt, go(&rt, &mut world, 2), Outcome::Zero);
    assert_sends(&rt, alloc, &mut world, 1, &[b'x'; 8128]);
    let call = send_to(&rt, alloc, 1, 1, b"y", flags(0));
    assert_nothing(&rt, world.step(start(2, call)));
    for _ in 0..4 {
        assert_nothing(&rt, world.step(step(2)));
    }
    assert_waits(&rt, &world, 2);
    let removed = make(&rt, &mut world, 1, Call::Remove { id: 1 });
    assert_is(&rt, removed, Outcome::Zero);
    let gone = Outcome::Refused(Errno::EIDRM);
    assert_is(&rt, go(&rt, &mut world, 2), gone);
    assert_is(&rt, world.end(), 128);
}

#[test]
fn a_send_refused_at_its_place_waits_for_room(rt: HostRuntime) {
    let alloc = rt.alloc();
    let mut world = world_with_queue(&rt, alloc, 3);
    let to = SetTo {
        uid: 1000,
        gid: 1000,
        mode: 0o600,
        qbytes: 1,
    };
    assert_makes(&rt, &mut world, 1, Call::Set { id: 0, to }, Outcome::Zero);
    let call = send_to(&rt, alloc, 0, 1, b"a", flags(0));
    assert_nothing(&rt, world.step(start(2, call)));
    assert_is(&rt, send_step(&world, 2), Some("look"));
    assert_nothing(&rt, world.step(step(2)));
    assert_is(&rt, send_step(&world, 2), Some("reserve"));
    assert_nothing(&rt, world.step(step(2)));
    assert_is(&rt, send_step(&world, 2), Some("place"));
    assert_sends_type(&rt, alloc, &mut world, 1, 1, b"b");
    assert_nothing(&rt, world.step(step(2)));
    assert_is(&rt, send_step(&world, 2), Some("giveback"));
    assert_nothing(&rt, world.step(step(2)));
    assert_waits(&rt, &world, 2);
    let got = Outcome::Got { mtype: 1, len: 1 };
    assert_receives(&rt, alloc, &mut world, (3, got, Some(b"b")));
    assert_is(&rt, go(&rt, &mut world, 2), Outcome::Zero);
    assert_is(&rt, world.end(), 1024);
}
