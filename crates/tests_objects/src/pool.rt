//! Chains that are reserved and given back, bodies in their blocks, chains of another pool, and
//! long chains.

ghost use Rattle.std.specs.Prelude.{◌≡◌, ◌≤◌, length};
ghost use Rattle.sysv_model.specs.declared.limits.TheConstants.{MESSAGE_BYTES as most_bytes};
ghost use Rattle.sysv_model.specs.Pool.{blocks_for};

mod whole;

use crate::parts::{assert_is, byte_at, give_back, open_body, open_pool};
use std::alloc::Global;
use std::process::Abort;
use sysv_model::Body;
use sysv_pool::{Chain, Pool, PoolRefused};

/// Returns why there is no pool with this number of blocks.
fn refusal(alloc: Global, blocks: u32) -> Option<PoolRefused> {
    match Pool::open(alloc, blocks) {
        Ok(pool) => {
            pool.end();
            None
        }
        Err(why) => Some(why),
    }
}

/// Returns a reserved chain.
fn reserved(rt: &impl Abort, pool: &mut Pool, size: usize) -> Chain
    requires { size ≤ most_bytes }
    ensures { result.blocks ≡ blocks_for size }
{
    match pool.reserve(size) {
        Some(chain) => chain,
        None => panic!(rt; "too few blocks for {size} bytes"),
    }
}

/// Returns a reserved chain with the body in it.
fn holding(rt: &impl Abort, pool: &mut Pool, body: &Body) -> Chain
    requires { length body.now ≤ most_bytes }
    ensures { result.bytes ≡ body.now }
{
    let mut chain = reserved(rt, pool, body.len());
    chain.fill(body);
    chain
}

/// Asserts the number of free blocks of a pool, and how often a chain was released to it.
fn assert_counts(rt: &impl Abort, pool: &Pool, free: u32, released: u64) {
    assert_is(rt, (pool.free(), pool.released()), (free, released));
}

/// Asserts that a body of `size` bytes takes this number of the 128 blocks until they are given
/// back.
fn assert_takes(rt: &impl Abort, pool: &mut Pool, size: usize, blocks: u32) {
    assert!(rt; size <= 8192);
    let chain = reserved(rt, pool, size);
    let lent = (chain.blocks(), pool.free());
    give_back(rt, pool, chain);
    assert_is(
        rt,
        (size, lent),
        (size, (blocks, 128_u32.saturating_sub(blocks))),
    );
    assert_is(rt, (size, pool.free()), (size, 128));
}

/// Asserts that the body is two bytes followed by these bytes.
fn assert_ends(rt: &impl Abort, body: &Body, text: &[u8]) {
    let len = text.len();
    assert_is(rt, body.len(), len + 2);
    for (i, byte) in text.iter().enumerate() {
        assert_is(rt, (i, len, byte_at(body, i + 2)), (i, len, Some(*byte)));
    }
}

/// Asserts that the pool has no free block.
fn assert_none_free(rt: &impl Abort, pool: &mut Pool) {
    if let Some(chain) = pool.reserve(1) {
        let blocks = chain.end();
        panic!(rt; "{blocks} blocks of none");
    }
}

#[test]
fn blocks_are_reserved_and_come_back(rt: HostRuntime) {
    let mut pool = open_pool(&rt, rt.alloc(), 128);
    assert_counts(&rt, &pool, 128, 0);
    let all = reserved(&rt, &mut pool, 8192);
    assert_counts(&rt, &pool, 0, 0);
    assert_is(&rt, all.blocks(), 128);
    assert_none_free(&rt, &mut pool);
    let none = reserved(&rt, &mut pool, 0);
    assert_counts(&rt, &pool, 0, 0);
    give_back(&rt, &mut pool, all);
    assert_counts(&rt, &pool, 128, 1);
    pool.end();
    assert_is(&rt, none.end(), 0);
}

#[test]
fn sizes_out_of_range(rt: HostRuntime) {
    for blocks in [0, 1, 127, 65_537, u32::MAX] {
        let why = refusal(rt.alloc(), blocks);
        assert_is(&rt, (blocks, why), (blocks, Some(PoolRefused::BadSize)));
    }
}

#[test]
fn sizes_are_rounded_up(rt: HostRuntime) {
    let mut pool = open_pool(&rt, rt.alloc(), 128);
    let table = [
        (0, 0),
        (1, 1),
        (63, 1),
        (64, 1),
        (65, 2),
        (130, 3),
        (8128, 127),
        (8129, 128),
        (8192, 128),
    ];
    for (size, blocks) in table {
        assert_takes(&rt, &mut pool, size, blocks);
    }
    assert_counts(&rt, &pool, 128, 9);
    pool.end();
}

#[test]
fn an_empty_chain_fits_where_no_block_is_free(rt: HostRuntime) {
    let mut pool = open_pool(&rt, rt.alloc(), 128);
    let all = reserved(&rt, &mut pool, 8192);
    let none = reserved(&rt, &mut pool, 0);
    give_back(&rt, &mut pool, none);
    assert_is(&rt, pool.released(), 1);
    give_back(&rt, &mut pool, Chain::empty());
    assert_counts(&rt, &pool, 0, 2);
    assert_is(&rt, all.end(), 128);
    pool.end();
}

/// Asserts that a body with this text comes out of its chain as it was put in, whole and cut.
fn assert_comes_out(
    rt: &impl Abort,
    pool: &mut Pool,
    body: &mut Body,
    out: &mut Body,
    text: &[u8],
) {
    body.clear();
    assert_is(rt, body.push_piece(text), true);
    assert_is(rt, body.len(), text.len());
    assert!(rt; body.len() <= 8192);
    let chain = holding(rt, pool, body);
    for n in [0, 1, 63, 64, 65, 129, 8191, 8192] {
        if n <= body.len() && n <= text.len() {
            out.clear();
            assert!(rt; out.push_piece(b"--") && out.len() == 2);
            chain.copy_out(n, out);
            assert_ends(rt, out, &text[..n]);
        }
    }
    give_back(rt, pool, chain);
}

#[test]
fn texts_come_out_as_they_were_put_in(rt: HostRuntime) {
    let mut pool = open_pool(&rt, rt.alloc(), 128);
    let mut body = open_body(&rt, rt.alloc());
    let mut out = open_body(&rt, rt.alloc());
    let mut text = [0; 8192];
    for (i, byte) in text.iter_mut().enumerate() {
        *byte = (i % 251) as u8;
    }
    // The blocks still contain bytes of the previous body.
    for len in [8192, 0, 1, 63, 64, 65, 130, 8192] {
        assert!(rt; len <= text.len());
        assert_comes_out(&rt, &mut pool, &mut body, &mut out, &text[..len]);
    }
    pool.end();
}

#[test]
fn joined_chains_have_the_blocks_of_both(rt: HostRuntime) {
    let mut pool = open_pool(&rt, rt.alloc(), 128);
    let joined = reserved(&rt, &mut pool, 130).join(reserved(&rt, &mut pool, 65));
    assert_is(&rt, joined.blocks(), 5);
    let joined = Chain::empty().join(joined.join(Chain::empty()));
    assert_is(&rt, joined.blocks(), 5);
    assert_is(&rt, pool.free(), 123);
    give_back(&rt, &mut pool, joined);
    assert_counts(&rt, &pool, 128, 1);
    pool.end();
}

#[test]
fn a_chain_of_another_pool_comes_back(rt: HostRuntime) {
    let mut pool = open_pool(&rt, rt.alloc(), 128);
    let mut other = open_pool(&rt, rt.alloc(), 128);
    let own = reserved(&rt, &mut pool, 64);
    let foreign = reserved(&rt, &mut other, 65);
    let released = pool.released();
    assert_eq!(rt; released, 0);
    match pool.release(foreign) {
        Ok(()) => panic!(rt; "129 blocks of 128"),
        Err(chain) => {
            assert_is(&rt, chain.blocks(), 2);
            give_back(&rt, &mut other, chain);
        }
    }
    assert_counts(&rt, &pool, 127, 0);
    give_back(&rt, &mut pool, own);
    assert_is(&rt, (pool.free(), other.free()), (128, 128));
    pool.end();
    other.end();
}

#[test]
fn a_long_chain_ends(rt: HostRuntime) {
    let mut long = Chain::empty();
    for _ in 0..16 {
        let mut pool = open_pool(&rt, rt.alloc(), 65_536);
        for _ in 0..511 {
            long = long.join(reserved(&rt, &mut pool, 8192));
        }
        pool.end();
    }
    assert_is(&rt, long.end(), 16 * 511 * 128);
    open_pool(&rt, rt.alloc(), 65_536).end();
}
