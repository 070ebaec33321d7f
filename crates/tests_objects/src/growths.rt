//! Each call that allocates, with a growth of it refused: the call then returns `NoMemory`.

use crate::parts::assert_is;
use sysv_keys::{Begun, Registry, RegistryRefused};
use sysv_model::NoMemory;
use sysv_pool::{Pool, PoolRefused};
use sysv_queue::{Look, QueueSlot};
use tests_kit::{USER, creating, mark};

#[test]
fn registry_open(rt: HostRuntime) {
    let _marked = mark(rt.alloc());
    match Registry::open(rt.alloc()) {
        Ok(mut registry) => {
            let begun = registry.begin(7, creating());
            assert_is(&rt, begun, Begun::Made { id: 0 });
        }
        Err(why) => assert_is(&rt, why, RegistryRefused::NoMemory),
    }
}

#[test]
fn registry_starting_at(rt: HostRuntime) {
    let _marked = mark(rt.alloc());
    match Registry::open_at(rt.alloc(), 8_388_607) {
        Ok(mut registry) => {
            let begun = registry.begin(7, creating());
            assert_is(&rt, begun, Begun::Made { id: 2_147_483_392 });
        }
        Err(why) => assert_is(&rt, why, RegistryRefused::NoMemory),
    }
}

#[test]
fn slot_open(rt: HostRuntime) {
    let _marked = mark(rt.alloc());
    match QueueSlot::open(rt.alloc()) {
        Ok(mut slot) => {
            assert_is(&rt, slot.install(0, 7, USER, 0o600, 50), true);
            assert_is(&rt, slot.look(0, USER, 5), Look::Fits);
            assert_is(&rt, slot.end().end(), 0);
        }
        Err(why) => assert_is(&rt, why, NoMemory),
    }
}

#[test]
fn pool_open(rt: HostRuntime) {
    let _marked = mark(rt.alloc());
    match Pool::open(rt.alloc(), 128) {
        Ok(pool) => {
            assert_is(&rt, pool.free(), 128);
            pool.end();
        }
        Err(why) => assert_is(&rt, why, PoolRefused::NoMemory),
    }
}
