//! Chains that a pool keeps whole, and reserves that need blocks of chains of other lengths.

ghost use Rattle.std.specs.Prelude.{◌≤◌};
ghost use Rattle.sysv_model.specs.declared.limits.TheConstants.{MESSAGE_BYTES as most_bytes};

use super::{assert_counts, reserved};
use crate::parts::{assert_is, give_back, open_pool};
use std::process::Abort;
use sysv_pool::Pool;

/// Reserves this number of chains for bodies of `size` bytes, and then gives all of them back.
fn pass(rt: &impl Abort, pool: &mut Pool, chains: u32, size: usize)
    requires { size ≤ most_bytes }
{
    if chains == 0 {
        return;
    }
    let chain = reserved(rt, pool, size);
    pass(rt, pool, chains - 1, size);
    give_back(rt, pool, chain);
}

/// Asserts that too few blocks are free for a body of `size` bytes.
fn assert_too_few(rt: &impl Abort, pool: &mut Pool, size: usize)
    requires { size ≤ most_bytes }
{
    let free = pool.free();
    if let Some(chain) = pool.reserve(size) {
        let blocks = chain.end();
        panic!(rt; "{blocks} blocks for {size} bytes");
    }
    assert_is(rt, (size, pool.free()), (size, free));
}

// The chain of each length takes apart those before it, so the pool is never short of blocks.
#[test]
fn each_length_comes_back_and_is_reserved_again(rt: HostRuntime) {
    let mut pool = open_pool(&rt, rt.alloc(), 128);
    for blocks in 1..129_u32 {
        for _ in 0..2 {
            let size = blocks as usize * 64;
            assert!(rt; size <= 8192);
            let chain = reserved(&rt, &mut pool, size);
            assert_is(&rt, (chain.blocks(), pool.free()), (blocks, 128 - blocks));
            give_back(&rt, &mut pool, chain);
        }
    }
    assert_counts(&rt, &pool, 128, 256);
    pool.end();
}

// The pool has 28 blocks beside a chain of 100, of which the first reserve takes 22 more.
#[test]
fn a_longer_chain_is_cut(rt: HostRuntime) {
    let mut pool = open_pool(&rt, rt.alloc(), 128);
    pass(&rt, &mut pool, 1, 6400);
    let half = reserved(&rt, &mut pool, 3200);
    assert_is(&rt, (half.blocks(), pool.free()), (50, 78));
    assert_too_few(&rt, &mut pool, 4993);
    let rest = reserved(&rt, &mut pool, 4992);
    assert_is(&rt, (rest.blocks(), pool.free()), (78, 0));
    assert_too_few(&rt, &mut pool, 1);
    give_back(&rt, &mut pool, half);
    give_back(&rt, &mut pool, rest);
    assert_counts(&rt, &pool, 128, 3);
    pool.end();
}

// All blocks are in chains of 3, 50 and 75 blocks.
#[test]
fn shorter_chains_are_taken_together(rt: HostRuntime) {
    let mut pool = open_pool(&rt, rt.alloc(), 128);
    let first = reserved(&rt, &mut pool, 192);
    let second = reserved(&rt, &mut pool, 3200);
    let third = reserved(&rt, &mut pool, 4800);
    assert_counts(&rt, &pool, 0, 0);
    give_back(&rt, &mut pool, third);
    give_back(&rt, &mut pool, first);
    assert_counts(&rt, &pool, 78, 2);
    assert_too_few(&rt, &mut pool, 4993);
    let most = reserved(&rt, &mut pool, 4992);
    assert_is(&rt, (most.blocks(), pool.free()), (78, 0));
    give_back(&rt, &mut pool, second);
    give_back(&rt, &mut pool, most);
    let all = reserved(&rt, &mut pool, 8192);
    assert_is(&rt, (all.blocks(), pool.free()), (128, 0));
    give_back(&rt, &mut pool, all);
    assert_counts(&rt, &pool, 128, 5);
    pool.end();
}

// A pool keeps 16 chains of one length whole. Here 128 chains of a block come back.
#[test]
fn more_chains_of_a_length_than_are_kept(rt: HostRuntime) {
    let mut pool = open_pool(&rt, rt.alloc(), 128);
    pass(&rt, &mut pool, 128, 64);
    assert_counts(&rt, &pool, 128, 128);
    let most = reserved(&rt, &mut pool, 7232);
    assert_is(&rt, (most.blocks(), pool.free()), (113, 15));
    assert_too_few(&rt, &mut pool, 961);
    pass(&rt, &mut pool, 15, 1);
    let rest = reserved(&rt, &mut pool, 960);
    assert_is(&rt, (rest.blocks(), pool.free()), (15, 0));
    give_back(&rt, &mut pool, rest);
    give_back(&rt, &mut pool, most);
    assert_counts(&rt, &pool, 128, 145);
    pool.end();
}

// Chains of 0 and of 200 blocks are not kept whole.
#[test]
fn chains_of_other_lengths_come_back(rt: HostRuntime) {
    let mut pool = open_pool(&rt, rt.alloc(), 256);
    let long = reserved(&rt, &mut pool, 6400).join(reserved(&rt, &mut pool, 6400));
    assert_is(&rt, (long.blocks(), pool.free()), (200, 56));
    give_back(&rt, &mut pool, long);
    pass(&rt, &mut pool, 3, 0);
    assert_counts(&rt, &pool, 256, 4);
    pass(&rt, &mut pool, 2, 8192);
    assert_counts(&rt, &pool, 256, 6);
    pool.end();
}
