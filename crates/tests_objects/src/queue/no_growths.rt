//! Calls of a slot, which allocate nothing. A run counts the growths after the mark, refuses each,
//! and expects none.
ghost use Rattle.std.specs.Prelude.{◌<◌, ◌^◌};

use super::*;
use crate::parts::assert_is;
use tests_kit::{creating, mark};

/// Asserts that no count of the slot is so high that it could not rise.
fn assert_may_rise(rt: &impl Abort, slot: &QueueSlot)
    ensures arrived { slot.now.arrived < 2 ^ 63 }
    ensures freed { slot.now.freed < 2 ^ 63 }
{
    let (arrived, freed) = slot.counts();
    assert!(rt; arrived < 1 << 63);
    assert!(rt; freed < 1 << 63);
}

/// Asserts that the queue's attributes are changed and returned.
fn assert_is_set(rt: &impl Abort, slot: &mut QueueSlot) {
    let to = SetTo {
        uid: 1000,
        gid: 1000,
        mode: 0o640,
        qbytes: 300,
    };
    assert_may_rise(rt, slot);
    assert_is(rt, slot.set(0, SENDER, to, 80), Ok(()));
    let stat = slot.stat(0, SENDER).map(|stat| (stat.qnum, stat.qbytes));
    assert_is(rt, stat, Ok((0, 300)));
    let row = slot.row().map(|row| (row.key, row.mode));
    assert_is(rt, row, Some((7, 0o640)));
}

/// Takes 32 messages by this selector.
fn assert_takes(rt: &impl Abort, desk: &mut Desk, sel: Selector) {
    for _ in 0..32 {
        let taken = take_as(rt, desk, 0, RECEIVER, sel, 9, false);
        assert_is(rt, (sel, taken.is_ok()), (sel, true));
    }
}

/// Removes the queue with its messages.
fn remove_all(rt: &impl Abort, desk: &mut Desk) {
    assert_may_rise(rt, &desk.slot);
    match desk.slot.remove(0, SENDER) {
        Ok(discarded) => give_back(rt, &mut desk.pool, discarded.into_chain()),
        Err(why) => panic!(rt; "{why}"),
    }
}

// The slot has the maximum number of messages, which are taken by each kind of selector.
#[test]
fn slot(rt: HostRuntime) {
    let mut desk = open_desk(&rt, rt.alloc());
    let _marked = mark(rt.alloc());
    assert_is(&rt, desk.slot.install(0, 7, SENDER, 0o600, 50), true);
    assert_is(
        &rt,
        desk.slot.probe(0, RECEIVER, creating()),
        Probe::Granted,
    );
    assert_is_set(&rt, &mut desk.slot);
    for number in 0..256_u16 {
        let mtype = i64::from(number % 7) + 1;
        assert_is(&rt, send(&rt, &mut desk, mtype, b"x").is_ok(), true);
    }
    assert_looks(&rt, &desk, 0, SENDER, 1, Look::Full { freed: 1 });
    for sel in [
        Selector::Any,
        Selector::Exactly(5),
        Selector::UpTo(3),
        Selector::Except(1),
    ] {
        assert_takes(&rt, &mut desk, sel);
    }
    remove_all(&rt, &mut desk);
    end_desk(&rt, desk, 0);
}
