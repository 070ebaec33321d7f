//! Keys that are found, made, busy and refused; rows that are settled and forgotten; and the last
//! identifiers that a registry can make.

use crate::parts::assert_is;
use std::alloc::Global;
use std::process::Abort;
use sysv_keys::{Begun, Registry, RegistryRefused, slot_of_id};
use sysv_model::{Errno, Flags, IPC_PRIVATE};
use tests_kit::{creating, flags};

/// Opens a registry whose slots all have this generation. Tolerates three refusals of memory.
fn registry_at(rt: &impl Abort, alloc: Global, generation: u32) -> Registry {
    for _ in 0..3 {
        match Registry::open_at(alloc, generation) {
            Ok(registry) => return registry,
            Err(why) => assert_is(rt, why, RegistryRefused::NoMemory),
        }
    }
    Registry::open_at(alloc, generation).expect(rt, "a fourth try")
}

fn open_registry(rt: &impl Abort, alloc: Global) -> Registry {
    match Registry::open(alloc) {
        Ok(registry) => registry,
        Err(why) => {
            assert_is(rt, why, RegistryRefused::NoMemory);
            registry_at(rt, alloc, 0)
        }
    }
}

/// Makes a private queue and settles it.
fn make_private(rt: &impl Abort, registry: &mut Registry, id: i32) {
    assert_is(
        rt,
        registry.begin(IPC_PRIVATE, flags(0)),
        Begun::Made { id },
    );
    assert_is(rt, registry.settle(id), true);
}

/// Asserts that a begin has this result.
fn assert_begins(rt: &impl Abort, registry: &mut Registry, key: i32, flags: Flags, wanted: Begun) {
    assert_is(rt, (key, registry.begin(key, flags)), (key, wanted));
}

/// Asserts that a begin with IPC_CREAT makes this identifier.
fn assert_made(rt: &impl Abort, registry: &mut Registry, key: i32, id: i32) {
    assert_begins(rt, registry, key, creating(), Begun::Made { id });
}

/// Asserts that a begin is refused with this error.
fn assert_refused(rt: &impl Abort, registry: &mut Registry, key: i32, flags: Flags, why: Errno) {
    assert_begins(rt, registry, key, flags, Begun::Refused(why));
}

#[test]
fn keys_and_private_keys(rt: HostRuntime) {
    let mut registry = open_registry(&rt, rt.alloc());
    assert_begins(
        &rt,
        &mut registry,
        9,
        flags(512 + 1024 + 0o600),
        Begun::Made { id: 0 },
    );
    assert_is(&rt, registry.settle(0), true);
    let found = Begun::Found { id: 0, settled: 1 };
    assert_begins(&rt, &mut registry, 9, flags(512 + 1024 + 0o600), found);
    assert_begins(
        &rt,
        &mut registry,
        5,
        flags(1024 + 0o600),
        Begun::Refused(Errno::ENOENT),
    );
    make_private(&rt, &mut registry, 1);
    make_private(&rt, &mut registry, 2);
    assert_begins(
        &rt,
        &mut registry,
        9,
        flags(0),
        Begun::Found { id: 0, settled: 3 },
    );
    assert_is(&rt, registry.settled(), 3);
}

#[test]
fn a_full_registry_makes_no_queue(rt: HostRuntime) {
    let mut registry = open_registry(&rt, rt.alloc());
    assert_made(&rt, &mut registry, 9, 0);
    assert_is(&rt, registry.settle(0), true);
    for id in 1..256 {
        make_private(&rt, &mut registry, id);
    }
    assert_refused(&rt, &mut registry, IPC_PRIVATE, flags(0), Errno::ENOSPC);
    assert_refused(&rt, &mut registry, 5, creating(), Errno::ENOSPC);
    assert_refused(&rt, &mut registry, 5, flags(0), Errno::ENOENT);
    assert_begins(
        &rt,
        &mut registry,
        9,
        creating(),
        Begun::Found {
            id: 0,
            settled: 256,
        },
    );
    assert_is(&rt, registry.settled(), 256);
}

#[test]
fn a_key_is_busy_until_it_is_settled(rt: HostRuntime) {
    let mut registry = open_registry(&rt, rt.alloc());
    assert_made(&rt, &mut registry, -4, 0);
    assert_begins(&rt, &mut registry, -4, flags(0), Begun::Busy { settled: 0 });
    assert_is(&rt, registry.settle(0), true);
    assert_is(&rt, registry.settle(0), false);
    assert_begins(
        &rt,
        &mut registry,
        -4,
        flags(0),
        Begun::Found { id: 0, settled: 1 },
    );
    assert_is(&rt, registry.settle(256), false);
    assert_is(&rt, registry.settle(1), false);
    assert_is(&rt, registry.settle(-1), false);
    assert_is(&rt, registry.settled(), 1);
}

#[test]
fn a_forgotten_identifier_is_never_given_again(rt: HostRuntime) {
    let mut registry = open_registry(&rt, rt.alloc());
    assert_made(&rt, &mut registry, 7, 0);
    assert_made(&rt, &mut registry, 8, 1);
    assert_made(&rt, &mut registry, i32::MIN, 2);
    assert_is(&rt, registry.settle(1), true);
    assert_is(&rt, registry.forget(1), true);
    assert_is(&rt, registry.forget(1), false);
    assert_is(&rt, registry.forget(0), true);
    assert_is(&rt, registry.settled(), 3);
    assert_refused(&rt, &mut registry, 7, flags(0), Errno::ENOENT);
    assert_made(&rt, &mut registry, 7, 256);
    assert_is(&rt, registry.forget(0), false);
    assert_is(&rt, registry.settle(0), false);
    assert_made(&rt, &mut registry, 8, 257);
    assert_begins(
        &rt,
        &mut registry,
        i32::MIN,
        creating(),
        Begun::Busy { settled: 3 },
    );
    assert_is(&rt, registry.forget(2), true);
    assert_begins(
        &rt,
        &mut registry,
        IPC_PRIVATE,
        flags(0),
        Begun::Made { id: 258 },
    );
}

#[test]
fn the_last_identifiers(rt: HostRuntime) {
    let mut registry = registry_at(&rt, rt.alloc(), 8_388_607);
    for slot in 0..256_usize {
        let key = slot as i32 + 1;
        let id = 2_147_483_392 + slot as i32;
        assert_is(&rt, slot_of_id(id), slot);
        assert_made(&rt, &mut registry, key, id);
        assert_is(&rt, registry.forget(id), true);
        assert_refused(&rt, &mut registry, key, flags(0), Errno::ENOENT);
    }
    assert_refused(&rt, &mut registry, IPC_PRIVATE, flags(0), Errno::ENOSPC);
    assert_refused(&rt, &mut registry, 1, creating(), Errno::ENOSPC);
    assert_is(&rt, registry.settled(), 256);
}

#[test]
fn generations_past_the_last_are_refused(rt: HostRuntime) {
    for generation in [8_388_608, u32::MAX] {
        match Registry::open_at(rt.alloc(), generation) {
            Ok(_) => panic!(rt; "a registry"),
            Err(why) => assert_is(&rt, why, RegistryRefused::BadStart),
        }
    }
}

/// Makes 256 queues, of which the first has this identifier, and forgets them.
fn make_and_forget(rt: &impl Abort, registry: &mut Registry, first: i32) {
    for id in first..first.wrapping_add(256) {
        assert_made(rt, registry, id.wrapping_add(1), id);
    }
    for id in first..first.wrapping_add(256) {
        assert_is(rt, registry.forget(id), true);
    }
}

#[test]
fn many_keys_come_and_go(rt: HostRuntime) {
    let mut registry = open_registry(&rt, rt.alloc());
    let mut first: i32 = 0;
    for _ in 0..50 {
        make_and_forget(&rt, &mut registry, first);
        first = first.wrapping_add(256);
    }
    assert_is(&rt, registry.settled(), 12_800);
}

#[test]
fn a_slot_is_unused_until_its_first_identifier(rt: HostRuntime) {
    let mut registry = open_registry(&rt, rt.alloc());
    assert_is(&rt, registry.is_unused(0), true);
    make_private(&rt, &mut registry, 0);
    assert_is(&rt, registry.is_unused(0), false);
    assert_is(&rt, registry.is_unused(1), true);
    assert_is(&rt, registry.forget(0), true);
    assert_is(&rt, registry.is_unused(0), false);
    assert_is(&rt, registry_at(&rt, rt.alloc(), 1).is_unused(0), false);
}
