//! Changes and removals of a queue.

use super::*;

/// Sets queue `id` for `cred` at time 70. Asserts that a refusal leaves the attributes and the
/// counts unchanged.
fn set_as(rt: &impl Abort, desk: &mut Desk, id: i32, cred: Cred, to: SetTo) -> Result<(), Errno> {
    let (arrived, freed) = desk.slot.counts();
    assert!(rt; arrived < 1 << 63);
    assert!(rt; freed < 1 << 63);
    let shown = desk.slot.stat(0, USER_ZERO);
    let done = desk.slot.set(id, cred, to, 70);
    if done.is_ok() {
        assert_is(rt, desk.slot.counts(), (arrived + 1, freed + 1));
    } else {
        assert_is(rt, desk.slot.stat(0, USER_ZERO), shown);
        assert_is(rt, desk.slot.counts(), (arrived, freed));
    }
    done
}

/// Returns the values that keep the sender's ownership of the queue and set another limit.
fn limited_to(qbytes: u32) -> SetTo {
    SetTo {
        uid: 1000,
        gid: 1000,
        mode: 0o600,
        qbytes,
    }
}

/// Removes queue `id`, and returns the number of blocks that are handed back. Asserts that a
/// refusal leaves the counts unchanged.
fn remove_as(rt: &impl Abort, desk: &mut Desk, id: i32, cred: Cred) -> Result<u32, Errno> {
    let (arrived, freed) = desk.slot.counts();
    assert!(rt; arrived < 1 << 63);
    assert!(rt; freed < 1 << 63);
    match desk.slot.remove(id, cred) {
        Ok(discarded) => {
            assert_is(rt, desk.slot.counts(), (arrived + 1, freed + 1));
            let chain = discarded.into_chain();
            let blocks = chain.blocks();
            give_back(rt, &mut desk.pool, chain);
            Ok(blocks)
        }
        Err(why) => {
            assert_is(rt, desk.slot.counts(), (arrived, freed));
            Err(why)
        }
    }
}

/// Asserts that a set of queue `id` has this result.
fn assert_sets(
    rt: &impl Abort,
    desk: &mut Desk,
    id: i32,
    cred: Cred,
    to: SetTo,
    wanted: Result<(), Errno>,
) {
    let done = set_as(rt, desk, id, cred, to);
    assert_is(rt, (cred, to.qbytes, done), (cred, to.qbytes, wanted));
}

/// Asserts that a removal of queue `id` has this result.
fn assert_removes(
    rt: &impl Abort,
    desk: &mut Desk,
    id: i32,
    cred: Cred,
    wanted: Result<u32, Errno>,
) {
    let done = remove_as(rt, desk, id, cred);
    assert_is(rt, (cred, done), (cred, wanted));
}

#[test]
fn a_set_changes_owner_mode_limit_and_moment(rt: HostRuntime) {
    let mut desk = open_desk(&rt, rt.alloc());
    assert_is(&rt, desk.slot.install(64, 3, SENDER, 0o640, 50), true);
    assert_sends_as(&rt, &mut desk, 64, SENDER, 4, b"abc", Ok(0));
    let to = SetTo {
        uid: 1001,
        gid: 2000,
        mode: 0o7004,
        qbytes: 100,
    };
    assert_sets(&rt, &mut desk, 64, SENDER, to, Ok(()));
    let shown = Stat {
        key: 3,
        perm: Perm {
            uid: 1001,
            gid: 2000,
            cuid: 1000,
            cgid: 1000,
            mode: 0o004,
        },
        cbytes: 3,
        qnum: 1,
        qbytes: 100,
        lspid: 101,
        lrpid: 0,
        stime: 7,
        rtime: 0,
        ctime: 70,
    };
    assert_is(&rt, desk.slot.stat(64, STRANGER), Ok(shown));
    assert_is(&rt, desk.slot.stat(64, SENDER), Err(Errno::EACCES));
    end_desk(&rt, desk, 1);
}

#[test]
fn a_set_is_refused_by_the_first_cause(rt: HostRuntime) {
    let mut desk = desk_with_shared_queue(&rt, rt.alloc());
    let table = [
        (64, STRANGER, 70_000, Err(Errno::EINVAL)),
        (0, STRANGER, 70_000, Err(Errno::EPERM)),
        (0, STRANGER, 16_384, Err(Errno::EPERM)),
        (0, MEMBER, 1, Err(Errno::EPERM)),
        (0, SENDER, 70_000, Err(Errno::EINVAL)),
        (0, SENDER, 65_537, Err(Errno::EINVAL)),
        (0, SENDER, 65_536, Err(Errno::EPERM)),
        (0, SENDER, 16_385, Err(Errno::EPERM)),
        (0, SENDER, 16_384, Ok(())),
        (0, SENDER, 2, Ok(())),
        (0, SENDER, 9, Err(Errno::EPERM)),
        (0, USER_ZERO, 70_000, Err(Errno::EINVAL)),
        (0, USER_ZERO, 65_537, Err(Errno::EINVAL)),
        (0, USER_ZERO, 65_536, Ok(())),
        (0, SENDER, 65_536, Ok(())),
    ];
    for (id, cred, qbytes, done) in table {
        assert_sets(&rt, &mut desk, id, cred, limited_to(qbytes), done);
    }
    end_desk(&rt, desk, 0);
}

#[test]
fn a_lower_limit_removes_nothing(rt: HostRuntime) {
    let mut desk = desk_with_queue(&rt, rt.alloc());
    assert_sends(&rt, &mut desk, 1, b"abcd", Ok(0));
    assert_sets(&rt, &mut desk, 0, SENDER, limited_to(2), Ok(()));
    assert_looks(&rt, &desk, 0, SENDER, 0, Look::Full { freed: 1 });
    assert_receives(&rt, &mut desk, 9, false, Ok(got(1, b"abcd", 0)));
    assert_holds(&rt, &desk.out, b"abcd");
    assert_looks(&rt, &desk, 0, SENDER, 2, Look::Fits);
    assert_looks(&rt, &desk, 0, SENDER, 3, Look::Full { freed: 2 });
    end_desk(&rt, desk, 0);
}

#[test]
fn the_creator_controls_a_queue_that_has_another_owner(rt: HostRuntime) {
    let mut desk = desk_with_queue(&rt, rt.alloc());
    let to = SetTo {
        uid: 1002,
        ..limited_to(16_384)
    };
    assert_sets(&rt, &mut desk, 0, SENDER, to, Ok(()));
    assert_sets(&rt, &mut desk, 0, STRANGER, to, Ok(()));
    assert_sets(&rt, &mut desk, 0, SENDER, to, Ok(()));
    assert_sets(&rt, &mut desk, 0, MEMBER, to, Err(Errno::EPERM));
    assert_removes(&rt, &mut desk, 0, MEMBER, Err(Errno::EPERM));
    assert_removes(&rt, &mut desk, 0, SENDER, Ok(0));
    end_desk(&rt, desk, 0);
}

#[test]
fn a_removal_discards_what_waits(rt: HostRuntime) {
    let mut desk = desk_with_shared_queue(&rt, rt.alloc());
    assert_sends(&rt, &mut desk, 1, b"text", Ok(0));
    let sent = send(&rt, &mut desk, 1, &[b'x'; 130]);
    assert_is(&rt, sent, Ok(1));
    for cred in [STRANGER, MEMBER] {
        assert_removes(&rt, &mut desk, 0, cred, Err(Errno::EPERM));
        assert_removes(&rt, &mut desk, 64, cred, Err(Errno::EINVAL));
    }
    assert_removes(&rt, &mut desk, 0, USER_ZERO, Ok(4));
    assert_counts(&rt, &desk, (3, 1));
    assert_is(&rt, desk.slot.row(), None);
    end_desk(&rt, desk, 0);
}

#[test]
fn a_removed_queue_is_gone(rt: HostRuntime) {
    let mut desk = desk_with_shared_queue(&rt, rt.alloc());
    assert_removes(&rt, &mut desk, 0, USER_ZERO, Ok(0));
    for cred in [SENDER, STRANGER, USER_ZERO] {
        assert_removes(&rt, &mut desk, 0, cred, Err(Errno::EINVAL));
        assert_sets(&rt, &mut desk, 0, cred, limited_to(1), Err(Errno::EINVAL));
        let stat = desk.slot.stat(0, cred);
        assert_is(&rt, (cred, stat), (cred, Err(Errno::EINVAL)));
    }
    assert_looks(&rt, &desk, 0, SENDER, 0, Look::Gone);
    assert_receives(&rt, &mut desk, 100, false, Err(TakeRefused::Gone));

    assert_is(&rt, desk.slot.install(64, 0, SENDER, 0o600, 0), true);
    assert_looks(&rt, &desk, 0, SENDER, 0, Look::Gone);
    assert_receives_as(
        &rt,
        &mut desk,
        64,
        SENDER,
        Selector::Any,
        Err(TakeRefused::NoMatch { arrived: 1 }),
    );
    assert_sends_as(&rt, &mut desk, 64, SENDER, 1, b"next", Ok(1));
    assert_counts(&rt, &desk, (2, 1));
    end_desk(&rt, desk, 1);
}
