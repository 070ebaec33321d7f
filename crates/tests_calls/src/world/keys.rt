//! Gets, presets, and controls of queues.

use super::*;

fn private() -> Call {
    Call::Get {
        key: 0,
        flags: flags(0o600),
    }
}

#[test]
fn gets_find_and_make_queues(rt: HostRuntime) {
    let mut world = world_at(&rt, rt.alloc(), 0, 0);
    let get = |key, bits| Call::Get {
        key,
        flags: flags(bits),
    };
    let refused = Outcome::Refused;
    let gets = [
        (9, 512 + 1024 + 0o600, Outcome::Id(0)),
        (9, 512 + 1024 + 0o600, refused(Errno::EEXIST)),
        (5, 1024 + 0o600, refused(Errno::ENOENT)),
        (0, 0o600, Outcome::Id(1)),
        (0, 0o600, Outcome::Id(2)),
        (9, 0, Outcome::Id(0)),
    ];
    for (key, bits, outcome) in gets {
        assert_makes(&rt, &mut world, 1, get(key, bits), outcome);
    }
    let strange = [
        (0, Outcome::Id(0)),
        (0o400, refused(Errno::EACCES)),
        (512 + 1024 + 0o400, refused(Errno::EEXIST)),
    ];
    for (bits, outcome) in strange {
        let event = stranger(2, get(9, bits));
        assert_nothing(&rt, world.step(event));
        assert_is(&rt, go(&rt, &mut world, 2), outcome);
    }
    for id in 3..256 {
        assert_makes(&rt, &mut world, 1, get(0, 0), Outcome::Id(id));
    }
    let full = refused(Errno::ENOSPC);
    assert_makes(&rt, &mut world, 1, get(0, 0), full);
    assert_is(&rt, world.end(), 128);
}

/// Returns the start of a call by user 2000 of group 2000.
fn stranger(actor: u32, call: Call) -> Event {
    Event::Start {
        actor,
        cred: Cred {
            uid: 2000,
            gid: 2000,
            pid: 9,
        },
        call,
    }
}

#[test]
fn a_get_waits_until_the_key_is_settled(rt: HostRuntime) {
    let mut world = world_at(&rt, rt.alloc(), 0, 0);
    assert_nothing(&rt, world.step(start(1, get_or_make(4))));
    assert_that(&rt, matches!(gets_at(&world, 1), Some(GetStep::Begin(_))));
    assert_nothing(&rt, world.step(step(1)));
    assert_that(
        &rt,
        matches!(gets_at(&world, 1), Some(GetStep::Install { .. })),
    );
    let call = Call::Get {
        key: 4,
        flags: flags(0),
    };
    assert_nothing(&rt, world.step(start(2, call)));
    assert_nothing(&rt, world.step(step(2)));
    assert_nothing(&rt, world.step(step(2)));
    assert_waits(&rt, &world, 2);
    assert_is(&rt, go(&rt, &mut world, 1), Outcome::Id(0));
    assert_is(&rt, go(&rt, &mut world, 2), Outcome::Id(0));
    assert_is(&rt, world.end(), 128);
}

#[test]
fn a_get_waits_between_removal_and_forget(rt: HostRuntime) {
    let mut world = world_at(&rt, rt.alloc(), 0, 0);
    assert_makes(&rt, &mut world, 1, get_or_make(4), Outcome::Id(0));
    assert_nothing(&rt, world.step(start(1, Call::Remove { id: 0 })));
    assert_that(
        &rt,
        matches!(removes_at(&world, 1), Some(RemoveStep::Remove { .. })),
    );
    assert_nothing(&rt, world.step(step(1)));
    assert_that(
        &rt,
        matches!(removes_at(&world, 1), Some(RemoveStep::Forget { .. })),
    );
    let call = Call::Get {
        key: 4,
        flags: flags(512 + 1024 + 0o600),
    };
    assert_nothing(&rt, world.step(start(2, call)));
    for _ in 0..4 {
        assert_nothing(&rt, world.step(step(2)));
    }
    assert_waits(&rt, &world, 2);
    assert_is(&rt, go(&rt, &mut world, 1), Outcome::Zero);
    assert_is(&rt, go(&rt, &mut world, 2), Outcome::Id(256));
    assert_is(&rt, world.end(), 128);
}

#[test]
fn controls_are_refused_in_their_order(rt: HostRuntime) {
    let mut world = world_at(&rt, rt.alloc(), 0, 0);
    assert_makes(&rt, &mut world, 1, get_or_make(5), Outcome::Id(0));
    let too_much = SetTo {
        uid: 1,
        gid: 1,
        mode: 0o600,
        qbytes: 70_000,
    };
    let owner = Outcome::Refused(Errno::EPERM);
    for call in [
        Call::Remove { id: 0 },
        Call::Set {
            id: 0,
            to: too_much,
        },
    ] {
        assert_nothing(&rt, world.step(stranger(2, call)));
        assert_is(&rt, go(&rt, &mut world, 2), owner);
    }
    let invalid = Outcome::Refused(Errno::EINVAL);
    assert_makes(&rt, &mut world, 1, Call::Remove { id: 0 }, Outcome::Zero);
    assert_makes(&rt, &mut world, 1, Call::Remove { id: 0 }, invalid);
    assert_makes(&rt, &mut world, 1, Call::Stat { id: 0 }, invalid);
    assert_is(&rt, world.end(), 128);
}

/// The attributes of that queue after it was set at time 60.
const SHOWN: Stat = Stat {
    key: 3,
    perm: Perm {
        uid: 2000,
        gid: 7,
        cuid: 1000,
        cgid: 1000,
        mode: 0o640,
    },
    cbytes: 0,
    qnum: 0,
    qbytes: 5,
    lspid: 0,
    lrpid: 0,
    stime: 0,
    rtime: 0,
    ctime: 60,
};

#[test]
fn a_set_queue_tells_its_attributes(rt: HostRuntime) {
    let mut world = world_at(&rt, rt.alloc(), 0, 0);
    assert_makes(&rt, &mut world, 1, get_or_make(3), Outcome::Id(0));
    let to = SetTo {
        uid: 2000,
        gid: 7,
        mode: 0o1640,
        qbytes: 5,
    };
    assert_nothing(&rt, world.step(start(1, Call::Set { id: 0, to })));
    let set = world.step(Event::Step { actor: 1, now: 60 });
    assert_nothing(&rt, set);
    assert_answer(&rt, world.step(step(1)), (1, Outcome::Zero, None));
    assert_makes(
        &rt,
        &mut world,
        1,
        Call::Stat { id: 0 },
        Outcome::Stat(SHOWN),
    );
    assert_is(&rt, world.end(), 128);
}

#[test]
fn a_preset_is_made_in_an_unused_slot_alone(rt: HostRuntime) {
    let mut world = world_at(&rt, rt.alloc(), 0, 0);
    assert_is(&rt, world.preset(), true);
    assert_is(&rt, world.preset(), false);
    let removed = make(&rt, &mut world, 1, Call::Remove { id: 0 });
    assert_is(&rt, removed, Outcome::Zero);
    assert_is(&rt, world.preset(), false);
    assert_makes(&rt, &mut world, 1, private(), Outcome::Id(256));
    assert_is(&rt, world.end(), 128);
    let mut world = world_at(&rt, rt.alloc(), 0, 0);
    assert_makes(&rt, &mut world, 1, private(), Outcome::Id(0));
    assert_is(&rt, world.preset(), false);
    let _blocks = world.end();
    let mut world = world_at(&rt, rt.alloc(), 0, 1);
    assert_is(&rt, world.preset(), false);
    let _blocks = world.end();
}

/// Runs a call of actor 1 with three steps, and asserts that this is the one answer.
fn assert_runs(rt: &impl Abort, alloc: Global, world: &mut World, call: Call, wanted: Outcome) {
    let mut events = room_for(rt, alloc, 4);
    push_call(rt, &mut events, start(1, call), 1, 3);
    let answers = run(rt, alloc, world, events);
    assert_is(rt, answers.len(), 1);
    for answer in answers.iter() {
        assert_answers(rt, answer, (1, wanted, None));
    }
}

#[test]
fn the_last_generation(rt: HostRuntime) {
    let alloc = rt.alloc();
    let mut world = world_at(&rt, alloc, 0, 8_388_607);
    let id = 2_147_483_392;
    assert_runs(&rt, alloc, &mut world, private(), Outcome::Id(id));
    let removal = Call::Remove { id };
    assert_runs(&rt, alloc, &mut world, removal, Outcome::Zero);
    let last = Outcome::Id(2_147_483_393);
    assert_runs(&rt, alloc, &mut world, private(), last);
    assert_is(&rt, world.end(), 128);
}
