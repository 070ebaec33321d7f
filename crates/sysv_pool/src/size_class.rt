//! Stacks of whole chains.

ghost use Rattle.std.specs.Prelude.{◌≡◌, ◌+◌, ◌≤◌, ◌⊎◌, length, IfOk, MatchOption, MatchResult};
ghost use Rattle.std.specs.List.{All};
ghost use Rattle.sysv_model.specs.declared.limits.TheConstants.{MAX_BLOCKS as most_blocks};
ghost use Rattle.sysv_pool.specs.Blocks.{contents_of, blocks_on};

use crate::blocks::Link;
use crate::loose::Loose;
use std::alloc::Global;
use std::marker::Model;
use sysv_model::NoMemory;

/// The most chains that a size class keeps.
const DEPTH: usize = 16;

/// A stack of free chains, all of the same number of blocks.
///
/// Dropping a size class drops its chains, each of them recursively. No chain of a size class has
/// more than 128 blocks.
#[derive(Drop)]
pub(crate) struct SizeClass {
    blocks: u32,
    chains: Vec<Link>,
}

impl Model for SizeClass {
    ghost use Rattle.std.specs.Prelude.{◌≡◌, ℕ, length};
    ghost use Rattle.std.specs.List.{All};
    ghost use Rattle.sysv_pool.specs.Blocks.{contents_of, blocks_on};

    ghost Value = { ℕ };

    ghost view = { λ s. blocks_on s.chains.items };

    ghost invariant = { λ s. All (λ link. length (contents_of link) ≡ s.blocks) s.chains.items };
}

impl SizeClass {
    /// Creates an empty size class for chains of `blocks` blocks, with space for all that it ever
    /// keeps.
    ///
    /// # Errors
    ///
    /// - `NoMemory` if allocation fails.
    pub(crate) fn open(alloc: Global, blocks: u32) -> Result<SizeClass, NoMemory>
        ensures { IfOk result (λ size_class. size_class ≡ 0) }
    {
        let chains = Vec::with_capacity(alloc, DEPTH).map_err(|_| NoMemory)?;
        Ok(SizeClass { blocks, chains })
    }

    /// Takes a chain of `blocks` blocks. Returns `None` if there is none here.
    pub(crate) fn take(&mut self, blocks: u32) -> Option<Link>
        ensures { MatchOption result (self.new ≡ self.old) (λ link.
            (length (contents_of link) ≡ blocks) × (self.new + blocks ≡ self.old)) }
    {
        if self.blocks != blocks {
            return None;
        }
        self.chains.pop()
    }

    /// Keeps a chain of `blocks` blocks.
    ///
    /// # Errors
    ///
    /// - The chain if the size class is full, or is for chains of another number of blocks.
    pub(crate) fn put(&mut self, link: Link, blocks: u32) -> Result<(), Link>
        requires { length (contents_of link) ≡ blocks }
        ensures { MatchResult result (λ _. self.new ≡ self.old + blocks) (λ back.
            (length (contents_of back) ≡ blocks) × (self.new ≡ self.old)) }
    {
        if self.blocks != blocks || self.chains.len() == self.chains.capacity() {
            return Err(link);
        }
        self.chains.push_reserved(link);
        Ok(())
    }

    /// Takes chains apart, one at a time, until `needed` blocks are loose or the size class is
    /// empty.
    pub(crate) fn take_apart(&mut self, loose: &mut Loose, needed: u32)
        requires { self.old + loose.old ≤ most_blocks }
        ensures all { self.new + loose.new ≡ self.old + loose.old }
        ensures enough { (needed ≤ loose.new) ⊎ (self.new ≡ 0) }
    {
        loosen(&mut self.chains, self.blocks, loose, needed);
    }
}

/// Takes chains of `each` blocks apart, the last one first, until `needed` blocks are loose or no
/// chain is left.
fn loosen(chains: &mut Vec<Link>, each: u32, loose: &mut Loose, needed: u32)
    requires same { All (λ link. length (contents_of link) ≡ each) chains.old.items }
    requires room { blocks_on chains.old.items + loose.old ≤ most_blocks }
    ensures same { All (λ link. length (contents_of link) ≡ each) chains.new.items }
    ensures all { blocks_on chains.new.items + loose.new ≡ blocks_on chains.old.items + loose.old }
    ensures enough { (needed ≤ loose.new) ⊎ (blocks_on chains.new.items ≡ 0) }
{
    while loose.blocks() < needed {
        let Some(link) = chains.pop() else { return };
        loose.add(link, each);
    }
}
