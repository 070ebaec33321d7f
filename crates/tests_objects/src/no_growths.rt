//! Calls of the registry and of the pool, which allocate nothing. A run counts the growths after
//! the mark, refuses each, and expects none.

use crate::parts::{assert_holds, assert_is, give_back, open_body, open_pool};
use sysv_keys::{Begun, Registry};
use sysv_model::IPC_PRIVATE;
use tests_kit::{creating, mark};

/// Returns the identifier of a slot in this generation.
fn id_of(slot: i32, generation: i32) -> i32 {
    generation.wrapping_mul(256).wrapping_add(slot)
}

// All slots are taken and given back, twice.
#[test]
fn registry(rt: HostRuntime) {
    let Ok(mut registry) = Registry::open(rt.alloc()) else {
        return;
    };
    let _marked = mark(rt.alloc());
    for round in 0..2 {
        for slot in 0..256 {
            let key = if slot % 2 == 0 { IPC_PRIVATE } else { slot };
            let id = id_of(slot, round);
            let begun = registry.begin(key, creating());
            assert_is(&rt, begun, Begun::Made { id });
            assert_is(&rt, registry.settle(id), true);
        }
        for slot in 0..256 {
            assert_is(&rt, registry.forget(id_of(slot, round)), true);
        }
    }
    assert_is(&rt, registry.settled(), 1024);
}

#[test]
fn pool(rt: HostRuntime) {
    let mut text = open_body(&rt, rt.alloc());
    let mut out = open_body(&rt, rt.alloc());
    let mut pool = open_pool(&rt, rt.alloc(), 128);
    let _marked = mark(rt.alloc());
    assert_is(&rt, text.push_piece(b"hello"), true);
    let size = text.len();
    assert!(rt; size <= 8192);
    let Some(mut chain) = pool.reserve(size) else {
        panic!(rt; "no blocks")
    };
    chain.fill(&text);
    assert!(rt; out.len() == 0);
    chain.copy_out(size, &mut out);
    assert_holds(&rt, &out, b"hello");
    assert_is(&rt, pool.free(), 127);
    give_back(&rt, &mut pool, chain);
    let Some(chain) = pool.reserve(8192) else {
        panic!(rt; "no blocks")
    };
    if let Some(more) = pool.reserve(1) {
        assert_is(&rt, more.end(), 0);
    }
    give_back(&rt, &mut pool, chain);
    assert_is(&rt, (pool.free(), pool.released()), (128, 2));
    pool.end();
}
