//! Queues in two slots, with the registry and the pool beside them.

ghost use Rattle.std.specs.Prelude.{◌+◌, ◌<◌};
ghost use Rattle.sysv_objects.specs.Turns.{IsOfSomeSlot, Takes};
ghost use Rattle.sysv_objects.specs.Objects.{CountsUpTo};
ghost use Rattle.sysv_objects.specs.Represents.{MakesTurn};

use crate::parts::{assert_is, open_body};
use std::alloc::Global;
use std::process::Abort;
use sysv_keys::Begun;
use sysv_model::{Errno, Row, Selector, SetTo, Stat};
use sysv_objects::{
    LoadedChain, ObjectCall, ObjectReply, Objects, ObjectsRefused, PoolCall, PoolReply,
    RegistryCall, RegistryReply, SlotCall, SlotReply, TextSize,
};
use sysv_pool::Chain;
use sysv_queue::{Look, Probe, TakeRefused, Tally};
use tests_kit::{USER, creating};

const TO: SetTo = SetTo {
    uid: 1000,
    gid: 1000,
    mode: 0o600,
    qbytes: 9,
};

/// Opens objects of 128 blocks whose identifiers begin with this generation. Tolerates one refusal
/// of memory.
pub(crate) fn objects_at(rt: &impl Abort, alloc: Global, generation: u32) -> Objects
    ensures { CountsUpTo 0 result }
{
    match Objects::open_at(alloc, generation, 128) {
        Ok(objects) => objects,
        Err(why) => {
            assert_is(rt, why, ObjectsRefused::NoMemory);
            match Objects::open_at(alloc, generation, 128) {
                Ok(objects) => objects,
                Err(_) => panic!(rt; "a second try"),
            }
        }
    }
}

// The next functions have an argument `raised`: how far a count was raised before, at most.

/// Makes one turn.
pub(crate) fn turn(objects: &mut Objects, call: ObjectCall, raised: u64) -> ObjectReply
    requires low { CountsUpTo raised objects.old }
    requires few { raised < 100 }
    requires there { IsOfSomeSlot call }
    ensures turn { Takes MakesTurn objects.old call result objects.new }
    ensures counts { CountsUpTo (raised + 1) objects.new }
{
    objects.make(call)
}

fn begin(objects: &mut Objects, key: i32, raised: u64) -> Begun
    requires low { CountsUpTo raised objects.old }
    requires few { raised < 100 }
    ensures { CountsUpTo (raised + 1) objects.new }
{
    let flags = creating();
    let call = ObjectCall::Registry(RegistryCall::Begin { key, flags });
    match turn(objects, call, raised) {
        ObjectReply::Registry(RegistryReply::Begun(begun)) => begun,
        _other => unreachable!(),
    }
}

fn settle(objects: &mut Objects, id: i32, raised: u64) -> bool
    requires low { CountsUpTo raised objects.old }
    requires few { raised < 100 }
    ensures { CountsUpTo (raised + 1) objects.new }
{
    match turn(
        objects,
        ObjectCall::Registry(RegistryCall::Settle { id }),
        raised,
    ) {
        ObjectReply::Registry(RegistryReply::Changed(done)) => done,
        _other => unreachable!(),
    }
}

fn forget(objects: &mut Objects, id: i32, raised: u64) -> bool
    requires low { CountsUpTo raised objects.old }
    requires few { raised < 100 }
    ensures { CountsUpTo (raised + 1) objects.new }
{
    match turn(
        objects,
        ObjectCall::Registry(RegistryCall::Forget { id }),
        raised,
    ) {
        ObjectReply::Registry(RegistryReply::Changed(done)) => done,
        _other => unreachable!(),
    }
}

fn install(objects: &mut Objects, id: i32, key: i32, raised: u64) -> bool
    requires low { CountsUpTo raised objects.old }
    requires few { raised < 100 }
    ensures { CountsUpTo (raised + 1) objects.new }
{
    let call = SlotCall::Install {
        id,
        key,
        cred: USER,
        mode: 0o600,
        now: 50,
    };
    match turn(objects, ObjectCall::Slot(call), raised) {
        ObjectReply::Slot(SlotReply::Installed(made)) => made,
        _other => unreachable!(),
    }
}

/// Makes the queue of a key, and asserts that it has this identifier.
fn make(rt: &impl Abort, objects: &mut Objects, key: i32, id: i32, raised: u64)
    requires low { CountsUpTo raised objects.old }
    requires few { raised < 90 }
    ensures { CountsUpTo (raised + 3) objects.new }
{
    assert_is(rt, begin(objects, key, raised), Begun::Made { id });
    assert_is(rt, install(objects, id, key, raised + 1), true);
    assert_is(rt, settle(objects, id, raised + 2), true);
}

fn probe(objects: &mut Objects, id: i32, raised: u64) -> Probe
    requires low { CountsUpTo raised objects.old }
    requires few { raised < 100 }
    ensures { CountsUpTo (raised + 1) objects.new }
{
    let call = SlotCall::Probe {
        id,
        cred: USER,
        flags: creating(),
    };
    match turn(objects, ObjectCall::Slot(call), raised) {
        ObjectReply::Slot(SlotReply::Probed(found)) => found,
        _other => unreachable!(),
    }
}

fn look(objects: &mut Objects, id: i32, raised: u64) -> Look
    requires low { CountsUpTo raised objects.old }
    requires few { raised < 100 }
    ensures { CountsUpTo (raised + 1) objects.new }
{
    let call = SlotCall::Look {
        id,
        cred: USER,
        size: 2,
    };
    match turn(objects, ObjectCall::Slot(call), raised) {
        ObjectReply::Slot(SlotReply::Looked(found)) => found,
        _other => unreachable!(),
    }
}

fn stat(objects: &mut Objects, id: i32, raised: u64) -> Result<Stat, Errno>
    requires low { CountsUpTo raised objects.old }
    requires few { raised < 100 }
    ensures { CountsUpTo (raised + 1) objects.new }
{
    let call = SlotCall::Stat { id, cred: USER };
    match turn(objects, ObjectCall::Slot(call), raised) {
        ObjectReply::Slot(SlotReply::Told(told)) => told,
        _other => unreachable!(),
    }
}

/// Returns the row of the slot.
fn row(objects: &mut Objects, slot: usize, raised: u64) -> Option<Row>
    requires low { CountsUpTo raised objects.old }
    requires few { raised < 100 }
    requires there { slot < 256 }
    ensures { CountsUpTo (raised + 1) objects.new }
{
    let call = SlotCall::Row { slot };
    match turn(objects, ObjectCall::Slot(call), raised) {
        ObjectReply::Slot(SlotReply::Shown(row)) => row,
        _other => unreachable!(),
    }
}

/// Returns an empty body in its chain.
fn empty_loaded(rt: &impl Abort, alloc: Global) -> LoadedChain {
    let body = open_body(rt, alloc);
    assert!(rt; body.len() == 0);
    LoadedChain::of(Chain::empty(), &body)
}

/// Places an empty message of type 5, the first of its queue.
fn place(rt: &impl Abort, alloc: Global, objects: &mut Objects, id: i32, raised: u64)
    requires low { CountsUpTo raised objects.old }
    requires few { raised < 100 }
    ensures { CountsUpTo (raised + 1) objects.new }
{
    let call = SlotCall::Place {
        id,
        cred: USER,
        mtype: 5,
        loaded: empty_loaded(rt, alloc),
        now: 60,
    };
    match turn(objects, ObjectCall::Slot(call), raised) {
        ObjectReply::Slot(SlotReply::Placed(done)) => match done {
            Ok(number) => assert_is(rt, number, 0),
            Err(_) => panic!(rt; "no room"),
        },
        _other => unreachable!(),
    }
}

/// Returns the request to take any message, of which at most 9 bytes are received.
fn taking(id: i32) -> ObjectCall
    ensures { IsOfSomeSlot result }
{
    ObjectCall::Slot(SlotCall::Take {
        id,
        cred: USER,
        selector: Selector::Any,
        size: 9,
        noerror: false,
        now: 70,
    })
}

/// Takes an empty message of type 5 from its queue.
fn take(rt: &impl Abort, alloc: Global, objects: &mut Objects, id: i32, raised: u64) -> Chain
    requires low { CountsUpTo raised objects.old }
    requires few { raised < 100 }
    ensures { CountsUpTo (raised + 1) objects.new }
{
    let mut out = open_body(rt, alloc);
    assert_is(rt, out.push_piece(b"old"), true);
    match turn(objects, taking(id), raised) {
        ObjectReply::Slot(SlotReply::Taken(Ok(taken))) => {
            let (delivery, chain) = taken.finish(9, &mut out);
            assert_is(rt, delivery.mtype(), 5);
            delivery.written(&mut Tally::open());
            assert_is(rt, out.len(), 0);
            chain
        }
        _other => panic!(rt; "no message"),
    }
}

/// Asserts that a take from this queue finds no message.
fn assert_empty(rt: &impl Abort, objects: &mut Objects, id: i32, raised: u64)
    requires low { CountsUpTo raised objects.old }
    requires few { raised < 100 }
    ensures { CountsUpTo (raised + 1) objects.new }
{
    match turn(objects, taking(id), raised) {
        ObjectReply::Slot(SlotReply::Taken(done)) => match done {
            Ok(_) => panic!(rt; "a message"),
            Err(why) => assert_is(rt, why, TakeRefused::NoMatch { arrived: 0 }),
        },
        _other => panic!(rt; "another reply"),
    }
}

/// Sets the attributes of a queue.
fn set(objects: &mut Objects, id: i32, raised: u64) -> Result<(), Errno>
    requires low { CountsUpTo raised objects.old }
    requires few { raised < 100 }
    ensures { CountsUpTo (raised + 1) objects.new }
{
    let call = SlotCall::Set {
        id,
        cred: USER,
        to: TO,
        now: 80,
    };
    match turn(objects, ObjectCall::Slot(call), raised) {
        ObjectReply::Slot(SlotReply::Set(done)) => done,
        _other => unreachable!(),
    }
}

/// Removes a queue. Returns the chain that it discards, or why it is not removed.
fn remove(objects: &mut Objects, id: i32, raised: u64) -> Result<Chain, Errno>
    requires low { CountsUpTo raised objects.old }
    requires few { raised < 100 }
    ensures { CountsUpTo (raised + 1) objects.new }
{
    let call = SlotCall::Remove { id, cred: USER };
    match turn(objects, ObjectCall::Slot(call), raised) {
        ObjectReply::Slot(SlotReply::Removed(Ok(discarded))) => Ok(discarded.into_chain()),
        ObjectReply::Slot(SlotReply::Removed(Err(why))) => Err(why),
        _other => unreachable!(),
    }
}

/// Reserves the blocks of a body of this size.
fn reserve(objects: &mut Objects, size: usize, raised: u64) -> Option<Chain>
    requires low { CountsUpTo raised objects.old }
    requires few { raised < 100 }
    requires short { size < 8193 }
    ensures { CountsUpTo (raised + 1) objects.new }
{
    let size = TextSize::of(size);
    match turn(objects, ObjectCall::Pool(PoolCall::Reserve(size)), raised) {
        ObjectReply::Pool(PoolReply::Reserved(chain)) => chain,
        _other => unreachable!(),
    }
}

/// Releases a chain of the pool.
fn give_back(rt: &impl Abort, objects: &mut Objects, chain: Chain, raised: u64)
    requires low { CountsUpTo raised objects.old }
    requires few { raised < 100 }
    ensures { CountsUpTo (raised + 1) objects.new }
{
    match turn(objects, ObjectCall::Pool(PoolCall::Release(chain)), raised) {
        ObjectReply::Pool(PoolReply::Released(done)) => {
            if let Err(foreign) = done {
                foreign.end();
                panic!(rt; "a foreign chain");
            }
        }
        _other => unreachable!(),
    }
}

/// Ends the objects with a chain of the pool, and asserts that all blocks are then free.
pub(crate) fn end(rt: &impl Abort, objects: Objects, chain: Chain, raised: u64)
    requires low { CountsUpTo raised objects }
    requires few { raised < 100 }
{
    assert_is(rt, objects.end(chain), 128);
}

/// Returns the counts of the identifier's slot.
fn counts(objects: &Objects, id: i32) -> (u64, u64) {
    (objects.arrived(id), objects.freed(id))
}

fn key_of(told: Result<Stat, Errno>) -> Result<i32, Errno> {
    told.map(|stat| stat.key)
}

fn id_of(row: Option<Row>) -> Option<i32> {
    row.map(|row| row.id)
}

#[test]
fn two_queues_lie_in_two_slots(rt: HostRuntime) {
    let mut objects = objects_at(&rt, rt.alloc(), 0);
    assert_is(&rt, objects.is_unused(0), true);
    make(&rt, &mut objects, 7, 0, 0);
    make(&rt, &mut objects, 8, 1, 3);
    assert_is(&rt, objects.is_unused(0), false);
    assert_is(&rt, objects.settled(), 2);
    assert_is(&rt, probe(&mut objects, 1, 6), Probe::Granted);
    assert_is(&rt, probe(&mut objects, 257, 7), Probe::Gone);
    assert_is(&rt, install(&mut objects, 256, 9, 8), false);
    assert_is(&rt, key_of(stat(&mut objects, 0, 9)), Ok(7));
    assert_is(&rt, key_of(stat(&mut objects, 1, 10)), Ok(8));
    assert_is(&rt, stat(&mut objects, 2, 11), Err(Errno::EINVAL));
    assert_is(&rt, id_of(row(&mut objects, 1, 12)), Some(1));
    assert_is(&rt, row(&mut objects, 2, 13), None);
    end(&rt, objects, Chain::empty(), 14);
}

#[test]
fn a_message_goes_through_its_slot(rt: HostRuntime) {
    let mut objects = objects_at(&rt, rt.alloc(), 0);
    make(&rt, &mut objects, 7, 0, 0);
    make(&rt, &mut objects, 8, 1, 3);
    assert_is(&rt, look(&mut objects, 1, 6), Look::Fits);
    assert_is(&rt, look(&mut objects, 2, 7), Look::Gone);
    place(&rt, rt.alloc(), &mut objects, 1, 8);
    assert_is(&rt, counts(&objects, 1), (1, 0));
    assert_is(&rt, counts(&objects, 0), (0, 0));
    assert_empty(&rt, &mut objects, 0, 9);
    let chain = take(&rt, rt.alloc(), &mut objects, 1, 10);
    assert_is(&rt, objects.released(), 0);
    give_back(&rt, &mut objects, chain, 11);
    assert_is(&rt, objects.released(), 1);
    assert_is(&rt, counts(&objects, 1), (1, 1));
    end(&rt, objects, Chain::empty(), 12);
}

#[test]
fn a_queue_is_changed_removed_and_forgotten(rt: HostRuntime) {
    let mut objects = objects_at(&rt, rt.alloc(), 8_388_607);
    make(&rt, &mut objects, 7, 2_147_483_392, 0);
    assert_is(&rt, set(&mut objects, 2_147_483_392, 3), Ok(()));
    assert_is(&rt, counts(&objects, 2_147_483_392), (1, 1));
    match remove(&mut objects, 2_147_483_393, 4) {
        Ok(_) => panic!(rt; "a removal"),
        Err(why) => assert_is(&rt, why, Errno::EINVAL),
    }
    let Ok(chain) = remove(&mut objects, 2_147_483_392, 5) else {
        panic!(rt; "no removal");
    };
    assert_is(&rt, forget(&mut objects, 2_147_483_392, 6), true);
    assert_is(&rt, forget(&mut objects, 2_147_483_392, 7), false);
    assert_is(&rt, objects.settled(), 2);
    end(&rt, objects, chain, 8);
}

#[test]
fn blocks_are_reserved_and_released(rt: HostRuntime) {
    let mut objects = objects_at(&rt, rt.alloc(), 0);
    let Some(chain) = reserve(&mut objects, 8192, 0) else {
        panic!(rt; "too few blocks");
    };
    assert_is(&rt, chain.blocks(), 128);
    if let Some(more) = reserve(&mut objects, 1, 1) {
        more.end();
        panic!(rt; "a block too many");
    }
    give_back(&rt, &mut objects, chain, 2);
    assert_is(&rt, objects.released(), 1);
    let Some(chain) = reserve(&mut objects, 65, 3) else {
        panic!(rt; "too few blocks");
    };
    assert_is(&rt, chain.blocks(), 2);
    let chain = ObjectCall::Pool(PoolCall::Release(chain)).into_chain();
    assert_is(&rt, chain.blocks(), 2);
    end(&rt, objects, chain, 4);
}

#[test]
fn calls_tell_their_slot_and_hand_back_their_chain(rt: HostRuntime) {
    let call = SlotCall::Row { slot: 5 };
    assert_is(&rt, call.slot(), 5);
    assert_is(&rt, ObjectCall::Slot(call).into_chain().end(), 0);
    let call = SlotCall::Stat {
        id: 257,
        cred: USER,
    };
    assert_is(&rt, call.slot(), 1);
    assert_is(&rt, ObjectCall::Slot(call).into_chain().end(), 0);
    let loaded = empty_loaded(&rt, rt.alloc());
    assert_is(&rt, loaded.size(), 0);
    let call = SlotCall::Place {
        id: 300,
        cred: USER,
        mtype: 5,
        loaded,
        now: 60,
    };
    assert_is(&rt, call.slot(), 44);
    assert_is(&rt, ObjectCall::Slot(call).into_chain().end(), 0);
    assert_is(&rt, empty_loaded(&rt, rt.alloc()).into_chain().end(), 0);
    assert_is(&rt, TextSize::of(65).bytes(), 65);
}

#[test]
fn a_generation_or_a_size_out_of_range_is_refused(rt: HostRuntime) {
    let refused = [
        (8_388_608, 128, ObjectsRefused::BadStart),
        (0, 127, ObjectsRefused::BadSize),
        (0, 65_537, ObjectsRefused::BadSize),
    ];
    for (generation, blocks, want) in refused {
        match Objects::open_at(rt.alloc(), generation, blocks) {
            Ok(_) => panic!(rt; "objects"),
            Err(why) => assert_is(&rt, why, want),
        }
    }
}
