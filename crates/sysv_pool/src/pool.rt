//! The pool of blocks.

ghost use Rattle.std.specs.Prelude.{◌≡◌, ◌+◌, ◌-◌, ◌^◌, ◌<◌, ◌≤◌, ◌⊎◌, ◌↔◌, [], IfOk, IfSome, Err, MatchOption, MatchResult};
ghost use Rattle.sysv_model.specs.declared.limits.TheConstants.{MESSAGE_BYTES as most_bytes, MIN_BLOCKS as least_blocks, MAX_BLOCKS as most_blocks};
ghost use Rattle.sysv_model.specs.Pool.{blocks_for, Reserve, Release};
ghost use Rattle.sysv_pool.specs.Represents.{Represents, MakesTurn};
ghost use Rattle.sysv_pool.specs.Replies.{reserve_reply, release_reply};

use crate::chain::Chain;
use crate::free_list::FreeList;
use std::alloc::Global;
use std::marker::Model;
use sysv_model::{BLOCK_BYTES, MAX_BLOCKS, MIN_BLOCKS};
use thiserror::Error;

/// Why a pool was not opened.
#[derive(Clone, Copy, PartialEq, Eq, Debug, Error)]
pub enum PoolRefused {
    /// Allocation failed.
    #[error("no memory")]
    NoMemory,
    /// The number of blocks is not 128 to 65,536.
    #[error("a size out of range")]
    BadSize,
}

/// The blocks that hold message bodies (specific to this profile). Each block is free or in a chain
/// that was reserved.
///
/// A pool cannot be dropped; end it with `end`.
pub struct Pool {
    free_list: FreeList,
    count: u32,
    size: u32,
    released: u64,
}

impl Model for Pool {
    ghost use Rattle.std.specs.Prelude.{◌≡◌, ◌≤◌};
    ghost use Rattle.sysv_model.specs.declared.limits.TheConstants.{MAX_BLOCKS as most_blocks};
    ghost use Rattle.sysv_pool.specs.State.{State};

    ghost Value = { State };

    ghost view = { λ p. record { size = p.size; free = p.count; released = p.released } };

    ghost invariant = { λ p. (p.free_list ≡ p.count) × (p.count ≤ p.size)
        × (p.size ≤ most_blocks) };
}

impl Pool {
    /// Creates a pool of 128 to 65,536 blocks, all of them free.
    ///
    /// # Errors
    ///
    /// - `BadSize` if `blocks` is not in this range.
    /// - `NoMemory` if allocation fails.
    pub fn open(alloc: Global, blocks: u32) -> Result<Pool, PoolRefused>
        ensures opened { IfOk result (λ pool. (pool.size ≡ blocks) × Represents [] pool) }
        ensures bad_size { (result ≡ Err PoolRefused.BadSize)
            ↔ ((blocks < least_blocks) ⊎ (most_blocks < blocks)) }
    {
        if blocks < MIN_BLOCKS || blocks > MAX_BLOCKS {
            return Err(PoolRefused::BadSize);
        }
        let free_list = FreeList::open(alloc, blocks).map_err(|_| PoolRefused::NoMemory)?;
        Ok(Pool {
            free_list,
            count: blocks,
            size: blocks,
            released: 0,
        })
    }

    /// Reserves a chain for a body of `size` bytes: `size` / 64 blocks, rounded up, with no body in
    /// them.
    ///
    /// Returns `None`, with the pool unchanged, if fewer blocks are free. Allocates nothing.
    ///
    /// It takes constant time if the pool keeps a chain of this length whole. Otherwise it takes
    /// time in proportion to the number of blocks that it reserves, and looks at no more than 128
    /// stacks.
    ///
    /// # Conditions
    ///
    /// - `size` is at most 8,192.
    pub fn reserve(&mut self, size: usize) -> Option<Chain>
        requires { size ≤ most_bytes }
        ensures turn { MakesTurn self.old (Reserve size) (reserve_reply result) self.new }
        ensures chain { IfSome result (λ chain.
            chain ≡ record { blocks = blocks_for size; bytes = [] }) }
        ensures after { MatchOption result (self.new ≡ self.old) (λ chain.
            self.new ≡ record self.old { free = self.old.free - chain.blocks }) }
    {
        let count = size.div_ceil(BLOCK_BYTES) as u32;
        if count > self.count {
            return None;
        }
        let link = self.free_list.take(count);
        self.count -= count;
        Some(Chain {
            link,
            count,
            len: 0,
        })
    }

    /// Makes the blocks of the chain free and adds 1 to the released count. A chain without blocks
    /// is counted too.
    ///
    /// It allocates nothing. The pool keeps the chain whole in constant time, if it has space for
    /// one more of this length. Otherwise it takes time in proportion to the number of blocks in
    /// the chain.
    ///
    /// # Errors
    ///
    /// - The chain, with the pool unchanged, if more blocks than the pool has would then be free.
    ///   Such a chain belongs to another pool.
    ///
    /// # Conditions
    ///
    /// - The released count is below 2^63.
    pub fn release(&mut self, chain: Chain) -> Result<(), Chain>
        requires { self.old.released < 2 ^ 63 }
        ensures turn { MakesTurn self.old (Release chain.blocks) (release_reply result) self.new }
        ensures after { MatchResult result (λ _.
            self.new ≡ record self.old {
              free = self.old.free + chain.blocks;
              released = self.old.released + 1;
            }) (λ back. (back ≡ chain) × (self.new ≡ self.old)) }
    {
        if chain.count > self.size - self.count {
            return Err(chain);
        }
        let Chain {
            link,
            count,
            len: _,
        } = chain;
        self.free_list.put(link, count);
        self.count += count;
        self.released += 1;
        Ok(())
    }

    /// Returns the number of free blocks.
    pub fn free(&self) -> u32
        ensures { result ≡ self.now.free }
    {
        self.count
    }

    /// Returns the released count: the number of chains that were released, including chains
    /// without blocks.
    pub fn released(&self) -> u64
        ensures { result ≡ self.now.released }
    {
        self.released
    }

    /// Frees the memory of the free blocks. Chains that are still reserved keep their blocks.
    pub fn end(self) {
        let Pool {
            free_list,
            count: _,
            size: _,
            released: _,
        } = self;
        free_list.end();
    }
}
