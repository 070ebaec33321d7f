//! All objects behind their gates, called from one thread.

ghost use Rattle.std.specs.Prelude.{◌≡◌, ◌≤◌, [], length};
ghost use Rattle.sysv_model.specs.declared.limits.TheConstants.{MESSAGE_BYTES as most_bytes};
ghost use Rattle.sysv_service.specs.Seats.{AreOf};

use crate::asking::{
    Worn, begin, forget, install, look, place, probe, release, remove, reserve, row, set, settle,
    stat, take,
};
use crate::parts::{assert_is, body_of, empty_body};
use std::alloc::Global;
use std::process::Abort;
use std::sync::Wait;
use sysv_gate::{Awaited, Closing};
use sysv_keys::Begun;
use sysv_model::{Errno, IPC_PRIVATE, MESSAGE_BYTES, Selector, SetTo};
use sysv_objects::LoadedChain;
use sysv_pool::{Chain, Pool};
use sysv_queue::{Look, Probe, QueueSlot, Tally};
use sysv_service::{Gates, GatesClosed, OpenRefused, Seats, SharedCount};
use tests_kit::{USER, creating};

const LIMIT: u64 = 1 << 62;

const TO: SetTo = SetTo {
    uid: 1000,
    gid: 1000,
    mode: 0o600,
    qbytes: 9,
};

/// Opens gates with 128 blocks and identifiers of the first generation, whose tickets begin at
/// `first`. Tolerates one refusal of memory.
fn gates_at(rt: &impl Abort, alloc: Global, first: u64) -> (Gates, Seats)
    ensures { AreOf result.0 result.1 }
{
    match Gates::open_at(alloc, 128, first, 0) {
        Ok(opened) => opened,
        Err(why) => {
            assert_is(rt, why, OpenRefused::NoMemory);
            match Gates::open_at(alloc, 128, first, 0) {
                Ok(opened) => opened,
                Err(_) => panic!(rt; "a second try"),
            }
        }
    }
}

/// Returns this body, in blocks of the pool.
fn loaded_of<R: Wait + Abort>(
    rt: &R,
    alloc: Global,
    gates: &Gates,
    seats: &mut Seats,
    text: &[u8],
) -> LoadedChain
    requires { AreOf gates.now seats.old }
    ensures { AreOf gates.now seats.new }
{
    let body = body_of(rt, alloc, text);
    assert!(rt; body.len() <= MESSAGE_BYTES);
    match reserve(rt, gates, seats, body.len()) {
        Ok(Some(chain)) => {
            let loaded = LoadedChain::of(chain, &body);
            assert_is(rt, loaded.size(), text.len());
            loaded
        }
        Ok(None) => panic!(rt; "no blocks"),
        Err(_) => panic!(rt; "worn"),
    }
}

/// Places a body as a message of type 9 in queue 1, and returns its number.
fn placed<R: Wait + Abort>(rt: &R, gates: &Gates, seats: &mut Seats, loaded: LoadedChain) -> u64
    requires { AreOf gates.now seats.old }
    ensures { AreOf gates.now seats.new }
{
    match place(rt, gates, seats, 1, USER, 9, loaded, 60) {
        Ok(Ok(number)) => number,
        Ok(Err(refused)) => {
            refused.chain.end();
            panic!(rt; "no room")
        }
        Err(chain) => {
            chain.end();
            panic!(rt; "worn")
        }
    }
}

/// Releases a chain of the pool.
fn give_back<R: Wait + Abort>(rt: &R, gates: &Gates, seats: &mut Seats, chain: Chain)
    requires { AreOf gates.now seats.old }
    ensures { AreOf gates.now seats.new }
{
    match release(rt, gates, seats, chain) {
        Ok(Ok(())) => {}
        Ok(Err(foreign)) => {
            foreign.end();
            panic!(rt; "a foreign chain");
        }
        Err(chain) => {
            chain.end();
            panic!(rt; "worn");
        }
    }
}

/// Frees a slot that was handed back.
fn end_slot(slot: Option<QueueSlot>) {
    if let Some(slot) = slot {
        slot.end().end();
    }
}

/// Frees the slots that were handed back.
fn end_slots(mut closings: Vec<Closing<QueueSlot>>) {
    while let Some(closing) = closings.pop() {
        let Closing {
            object,
            rest,
            turns: _,
            next_ticket: _,
        } = closing;
        end_slot(object);
        end_slot(rest);
    }
    closings.destroy_empty();
}

/// Frees a pool that was handed back.
fn end_pool(pool: Option<Pool>) {
    if let Some(pool) = pool {
        pool.end();
    }
}

/// Returns the number of turns at all slots, at the registry and at the pool. Asserts that each
/// object was handed back, and frees it.
fn ended(rt: &impl Abort, closed: GatesClosed) -> (u64, u64, u64) {
    let GatesClosed {
        slots,
        registry,
        pool,
    } = closed;
    assert_is(rt, slots.len(), 256);
    assert!(rt; slots.iter().all(|closing| closing.object.is_some()));
    assert!(rt; registry.object.is_some());
    assert!(rt; pool.object.is_some());
    let at_slots = slots
        .iter()
        .fold(0, |turns: u64, closing| turns.wrapping_add(closing.turns));
    let turns = (at_slots, registry.turns, pool.turns);
    end_slots(slots);
    end_pool(pool.object);
    end_pool(pool.rest);
    turns
}

#[test]
fn a_key_is_made_settled_and_forgotten(rt: HostRuntime) {
    let (gates, mut seats) = gates_at(&rt, rt.alloc(), 0);
    let private = begin(&rt, &gates, &mut seats, IPC_PRIVATE, creating());
    assert_is(&rt, private, Ok(Begun::Made { id: 0 }));
    let made = begin(&rt, &gates, &mut seats, 7, creating());
    assert_is(&rt, made, Ok(Begun::Made { id: 1 }));
    assert_is(&rt, settle(&rt, &gates, &mut seats, 1), Ok(true));
    let settled = gates.await_count(&rt, &mut seats, SharedCount::Settled, 1);
    assert_is(&rt, settled, Awaited::Reached(1));
    let found = begin(&rt, &gates, &mut seats, 7, creating());
    assert_is(&rt, found, Ok(Begun::Found { id: 1, settled: 1 }));
    assert_is(&rt, forget(&rt, &gates, &mut seats, 1), Ok(true));
    assert_is(&rt, forget(&rt, &gates, &mut seats, 1), Ok(false));
    let settled = gates.await_count(&rt, &mut seats, SharedCount::Settled, 2);
    assert_is(&rt, settled, Awaited::Reached(2));
    assert_is(&rt, ended(&rt, gates.close(seats)), (0, 6, 0));
}

// A wait returns a count that is reached.
#[test]
fn waits_end_at_their_goals(rt: HostRuntime) {
    let (gates, mut seats) = gates_at(&rt, rt.alloc(), 0);
    let made = begin(&rt, &gates, &mut seats, 7, creating());
    assert_is(&rt, made, Ok(Begun::Made { id: 0 }));
    assert_is(&rt, gates.count(&mut seats, SharedCount::Settled), 0);
    assert_is(&rt, settle(&rt, &gates, &mut seats, 0), Ok(true));
    let settled = gates.await_count(&rt, &mut seats, SharedCount::Settled, 1);
    assert_is(&rt, settled, Awaited::Reached(1));
    let made = install(&rt, &gates, &mut seats, 1, 7, USER, 0o600, 50);
    assert_is(&rt, made, Ok(true));
    assert_is(
        &rt,
        gates.count(&mut seats, SharedCount::Arrived { id: 1 }),
        0,
    );
    let loaded = loaded_of(&rt, rt.alloc(), &gates, &mut seats, b"hello");
    assert_is(&rt, placed(&rt, &gates, &mut seats, loaded), 0);
    let arrived = gates.await_count(&rt, &mut seats, SharedCount::Arrived { id: 1 }, 1);
    assert_is(&rt, arrived, Awaited::Reached(1));
    assert_is(
        &rt,
        gates.count(&mut seats, SharedCount::Freed { id: 1 }),
        0,
    );
    assert_is(&rt, gates.count(&mut seats, SharedCount::Released), 0);
    match remove(&rt, &gates, &mut seats, 1, USER) {
        Ok(Ok(discarded)) => give_back(&rt, &gates, &mut seats, discarded.into_chain()),
        Ok(Err(_)) => panic!(rt; "no removal"),
        Err(_) => panic!(rt; "worn"),
    }
    let freed = gates.await_count(&rt, &mut seats, SharedCount::Freed { id: 1 }, 1);
    assert_is(&rt, freed, Awaited::Reached(1));
    let released = gates.await_count(&rt, &mut seats, SharedCount::Released, 1);
    assert_is(&rt, released, Awaited::Reached(1));
    assert_is(&rt, ended(&rt, gates.close(seats)), (3, 2, 2));
}

#[test]
fn a_message_goes_through_its_slot(rt: HostRuntime) {
    let (gates, mut seats) = gates_at(&rt, rt.alloc(), 5);
    let made = install(&rt, &gates, &mut seats, 1, 7, USER, 0o600, 50);
    assert_is(&rt, made, Ok(true));
    let loaded = loaded_of(&rt, rt.alloc(), &gates, &mut seats, b"hello");
    assert_is(
        &rt,
        look(&rt, &gates, &mut seats, 1, USER, 5),
        Ok(Look::Fits),
    );
    assert_is(&rt, placed(&rt, &gates, &mut seats, loaded), 0);
    let arrived = gates.await_count(&rt, &mut seats, SharedCount::Arrived { id: 1 }, 1);
    assert_is(&rt, arrived, Awaited::Reached(1));
    let mut out = empty_body(&rt, rt.alloc());
    match take(
        &rt,
        &gates,
        &mut seats,
        1,
        USER,
        Selector::Any,
        9,
        false,
        70,
    ) {
        Ok(Ok(taken)) => {
            let (delivery, chain) = taken.finish(9, &mut out);
            assert_is(&rt, (delivery.mtype(), delivery.sender()), (9, 101));
            delivery.written(&mut Tally::open());
            assert_is(&rt, gates.count(&mut seats, SharedCount::Released), 0);
            give_back(&rt, &gates, &mut seats, chain);
        }
        Ok(Err(_)) => panic!(rt; "no message"),
        Err(_) => panic!(rt; "worn"),
    }
    assert_is(&rt, out.block(0), b"hello".as_slice());
    let freed = gates.await_count(&rt, &mut seats, SharedCount::Freed { id: 1 }, 1);
    assert_is(&rt, freed, Awaited::Reached(1));
    assert_is(&rt, gates.count(&mut seats, SharedCount::Released), 1);
    let released = gates.await_count(&rt, &mut seats, SharedCount::Released, 1);
    assert_is(&rt, released, Awaited::Reached(1));
    assert_is(&rt, ended(&rt, gates.close(seats)), (4, 0, 2));
}

#[test]
fn a_queue_is_told_changed_and_removed(rt: HostRuntime) {
    let (gates, mut seats) = gates_at(&rt, rt.alloc(), 0);
    let made = install(&rt, &gates, &mut seats, 1, 7, USER, 0o600, 50);
    assert_is(&rt, made, Ok(true));
    let loaded = loaded_of(&rt, rt.alloc(), &gates, &mut seats, b"hello");
    assert_is(&rt, placed(&rt, &gates, &mut seats, loaded), 0);
    let told = stat(&rt, &gates, &mut seats, 1, USER);
    assert_is(
        &rt,
        told.map(|stat| stat.map(|stat| stat.cbytes)),
        Ok(Ok(5)),
    );
    assert_is(
        &rt,
        set(&rt, &gates, &mut seats, 1, USER, TO, 80),
        Ok(Ok(())),
    );
    let shown = row(&rt, &gates, &mut seats, 1);
    assert_is(
        &rt,
        shown.map(|row| row.map(|row| (row.key, row.qnum))),
        Ok(Some((7, 1))),
    );
    assert_is(&rt, row(&rt, &gates, &mut seats, 0), Ok(None));
    let granted = probe(&rt, &gates, &mut seats, 1, USER, creating());
    assert_is(&rt, granted, Ok(Probe::Granted));
    match remove(&rt, &gates, &mut seats, 1, USER) {
        Ok(Ok(discarded)) => {
            let chain = discarded.into_chain();
            assert_is(&rt, chain.blocks(), 1);
            give_back(&rt, &gates, &mut seats, chain);
        }
        Ok(Err(_)) => panic!(rt; "no removal"),
        Err(_) => panic!(rt; "worn"),
    }
    let gone = probe(&rt, &gates, &mut seats, 1, USER, creating());
    assert_is(&rt, gone, Ok(Probe::Gone));
    let gone = stat(&rt, &gates, &mut seats, 1, USER);
    assert_is(&rt, gone, Ok(Err(Errno::EINVAL)));
    assert_is(&rt, ended(&rt, gates.close(seats)), (10, 0, 2));
}

#[test]
fn seats_are_split_and_joined(rt: HostRuntime) {
    let (gates, mut seats) = gates_at(&rt, rt.alloc(), 100);
    let mut other = gates.split(&mut seats);
    let made = install(&rt, &gates, &mut other, 0, 7, USER, 0o600, 50);
    assert_is(&rt, made, Ok(true));
    let again = install(&rt, &gates, &mut seats, 0, 7, USER, 0o600, 50);
    assert_is(&rt, again, Ok(false));
    let made = begin(&rt, &gates, &mut other, 7, creating());
    assert_is(&rt, made, Ok(Begun::Made { id: 0 }));
    let busy = begin(&rt, &gates, &mut seats, 7, creating());
    assert_is(&rt, busy, Ok(Begun::Busy { settled: 0 }));
    match reserve(&rt, &gates, &mut other, 65) {
        Ok(Some(chain)) => assert_is(&rt, chain.end(), 2),
        Ok(None) => panic!(rt; "no blocks"),
        Err(_) => panic!(rt; "worn"),
    }
    gates.join(&mut seats, other);
    assert_is(&rt, ended(&rt, gates.close(seats)), (2, 2, 1));
}

#[test]
fn what_is_out_of_range_is_refused(rt: HostRuntime) {
    let refused = [
        (127, 0, 0),
        (65_537, 0, 0),
        (128, LIMIT + 1, 0),
        (128, 0, 8_388_608),
        (127, LIMIT + 1, 8_388_608),
    ];
    for (blocks, first, generation) in refused {
        match Gates::open_at(rt.alloc(), blocks, first, generation) {
            Ok(_) => panic!(rt; "gates"),
            Err(why) => assert_is(&rt, why, OpenRefused::BadSize),
        }
    }
}

#[test]
fn worn_gates_of_slots_serve_nothing(rt: HostRuntime) {
    let (gates, mut seats) = gates_at(&rt, rt.alloc(), LIMIT);
    let made = install(&rt, &gates, &mut seats, 1, 7, USER, 0o600, 50);
    assert_is(&rt, made, Err(Worn));
    let granted = probe(&rt, &gates, &mut seats, 1, USER, creating());
    assert_is(&rt, granted, Err(Worn));
    assert_is(&rt, look(&rt, &gates, &mut seats, 1, USER, 5), Err(Worn));
    assert_is(&rt, stat(&rt, &gates, &mut seats, 1, USER), Err(Worn));
    assert_is(
        &rt,
        set(&rt, &gates, &mut seats, 1, USER, TO, 80),
        Err(Worn),
    );
    assert_is(&rt, row(&rt, &gates, &mut seats, 1), Err(Worn));
    match take(
        &rt,
        &gates,
        &mut seats,
        1,
        USER,
        Selector::Any,
        9,
        false,
        70,
    ) {
        Err(Worn) => {}
        Ok(_) => panic!(rt; "a turn"),
    }
    match remove(&rt, &gates, &mut seats, 1, USER) {
        Err(Worn) => {}
        Ok(_) => panic!(rt; "a turn"),
    }
    let loaded = LoadedChain::of(Chain::empty(), &empty_body(&rt, rt.alloc()));
    match place(&rt, &gates, &mut seats, 1, USER, 9, loaded, 60) {
        Err(chain) => assert_is(&rt, chain.end(), 0),
        Ok(_) => panic!(rt; "a turn"),
    }
    let arrived = gates.await_count(&rt, &mut seats, SharedCount::Arrived { id: 1 }, 1);
    assert_is(&rt, arrived, Awaited::Worn);
    let freed = gates.await_count(&rt, &mut seats, SharedCount::Freed { id: 1 }, 1);
    assert_is(&rt, freed, Awaited::Worn);
    assert_is(&rt, ended(&rt, gates.close(seats)), (0, 0, 0));
}

#[test]
fn worn_gates_of_registry_and_pool_serve_nothing(rt: HostRuntime) {
    let (gates, mut seats) = gates_at(&rt, rt.alloc(), LIMIT);
    let made = begin(&rt, &gates, &mut seats, IPC_PRIVATE, creating());
    assert_is(&rt, made, Err(Worn));
    assert_is(&rt, settle(&rt, &gates, &mut seats, 0), Err(Worn));
    assert_is(&rt, forget(&rt, &gates, &mut seats, 0), Err(Worn));
    let settled = gates.await_count(&rt, &mut seats, SharedCount::Settled, 1);
    assert_is(&rt, settled, Awaited::Worn);
    match reserve(&rt, &gates, &mut seats, 65) {
        Err(Worn) => {}
        Ok(_) => panic!(rt; "a turn"),
    }
    match release(&rt, &gates, &mut seats, Chain::empty()) {
        Err(chain) => assert_is(&rt, chain.end(), 0),
        Ok(_) => panic!(rt; "a turn"),
    }
    assert_is(&rt, gates.count(&mut seats, SharedCount::Released), 0);
    let released = gates.await_count(&rt, &mut seats, SharedCount::Released, 1);
    assert_is(&rt, released, Awaited::Worn);
    assert_is(&rt, ended(&rt, gates.close(seats)), (0, 0, 0));
}

// One ticket of the pool is left. A call with this ticket is served, and the next call is refused.
#[test]
fn the_last_ticket_of_the_pool_is_served(rt: HostRuntime) {
    let (gates, mut seats) = gates_at(&rt, rt.alloc(), LIMIT - 1);
    match reserve(&rt, &gates, &mut seats, 65) {
        Ok(Some(chain)) => assert_is(&rt, chain.end(), 2),
        Ok(None) | Err(Worn) => panic!(rt; "no turn"),
    }
    match reserve(&rt, &gates, &mut seats, 65) {
        Err(Worn) => {}
        Ok(_) => panic!(rt; "a turn"),
    }
    assert_is(&rt, ended(&rt, gates.close(seats)), (0, 0, 1));
}
