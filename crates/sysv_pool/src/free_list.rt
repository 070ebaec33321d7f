//! The free blocks of a pool.

ghost use Rattle.std.specs.Prelude.{◌≡◌, ◌+◌, ◌≤◌, ◌⊎◌, length, IfOk, MatchOption, MatchResult};
ghost use Rattle.std.specs.List.{sum};
ghost use Rattle.sysv_model.specs.declared.limits.TheConstants.{MAX_BLOCKS as most_blocks};
ghost use Rattle.sysv_pool.specs.Blocks.{contents_of};

use crate::blocks::Link;
use crate::loose::Loose;
use crate::size_class::SizeClass;
use std::alloc::Global;
use std::marker::Model;
use sysv_model::{BLOCK_BYTES, MESSAGE_BYTES, NoMemory};

/// The number of blocks of the longest message. A chain of at most so many is kept whole.
const SIZE_CLASSES: u32 = (MESSAGE_BYTES / BLOCK_BYTES) as u32;

/// The free blocks: whole chains in a size class for each number of blocks from 1 to 128, and loose
/// blocks.
pub(crate) struct FreeList {
    loose: Loose,
    size_classes: Vec<SizeClass>,
}

impl Model for FreeList {
    ghost use Rattle.std.specs.Prelude.{ℕ, ◌+◌};
    ghost use Rattle.std.specs.List.{sum};

    ghost Value = { ℕ };

    ghost view = { λ s. s.loose + sum s.size_classes.items };
}

impl FreeList {
    /// Creates a free list of `blocks` loose blocks, with space for all chains that it ever keeps.
    ///
    /// # Errors
    ///
    /// - `NoMemory` if allocation fails.
    pub(crate) fn open(alloc: Global, blocks: u32) -> Result<FreeList, NoMemory>
        ensures { IfOk result (λ free_list. free_list ≡ blocks) }
    {
        let size_classes = open_size_classes(alloc)?;
        let loose = Loose::open(alloc, blocks)?;
        Ok(FreeList {
            loose,
            size_classes,
        })
    }

    /// Takes `blocks` blocks, as one chain: a whole chain in constant time, if one is kept.
    /// Otherwise it cuts loose blocks; if they are too few, it first takes whole chains apart. It
    /// then moves fewer than 128 blocks beside those that it needs.
    pub(crate) fn take(&mut self, blocks: u32) -> Link
        requires enough { blocks ≤ self.old }
        requires most { self.old ≤ most_blocks }
        ensures chain { length (contents_of result) ≡ blocks }
        ensures left { self.new + blocks ≡ self.old }
    {
        if let Some(link) = take_whole(&mut self.size_classes, blocks) {
            return link;
        }
        gather(&mut self.size_classes, &mut self.loose, blocks);
        self.loose.cut(blocks)
    }

    /// Adds a chain of `blocks` blocks. It is kept whole if a size class has space for it, and
    /// taken apart otherwise.
    pub(crate) fn put(&mut self, link: Link, blocks: u32)
        requires all { length (contents_of link) ≡ blocks }
        requires room { self.old + blocks ≤ most_blocks }
        ensures { self.new ≡ self.old + blocks }
    {
        if let Err(back) = put_whole(&mut self.size_classes, link, blocks) {
            self.loose.add(back, blocks);
        }
    }

    /// Frees the memory of the blocks.
    pub(crate) fn end(self) {
        let FreeList {
            loose,
            size_classes: _,
        } = self;
        loose.end();
    }
}

/// Creates an empty size class for each number of blocks from 1 to 128.
///
/// # Errors
///
/// - `NoMemory` if allocation fails.
fn open_size_classes(alloc: Global) -> Result<Vec<SizeClass>, NoMemory>
    ensures { IfOk result (λ size_classes. sum size_classes.items ≡ 0) }
{
    let mut size_classes = Vec::with_capacity(alloc, SIZE_CLASSES as usize).map_err(|_| NoMemory)?;
    for place in 0..SIZE_CLASSES {
        size_classes.push_reserved(SizeClass::open(alloc, place + 1)?);
    }
    Ok(size_classes)
}

/// Takes a chain of `blocks` blocks from its size class. Returns `None` if none is kept.
fn take_whole(size_classes: &mut Vec<SizeClass>, blocks: u32) -> Option<Link>
    ensures { MatchOption result (sum size_classes.new.items ≡ sum size_classes.old.items) (λ link.
        (length (contents_of link) ≡ blocks)
        × (sum size_classes.new.items + blocks ≡ sum size_classes.old.items)) }
{
    let place = (blocks as usize).checked_sub(1)?;
    if place >= size_classes.len() {
        return None;
    }
    size_classes[place].take(blocks)
}

/// Keeps a chain of `blocks` blocks in its size class.
///
/// # Errors
///
/// - The chain if its size class is full, or if there is no size class for its number of blocks.
fn put_whole(size_classes: &mut Vec<SizeClass>, link: Link, blocks: u32) -> Result<(), Link>
    requires { length (contents_of link) ≡ blocks }
    ensures { MatchResult result (λ _. sum size_classes.new.items
        ≡ sum size_classes.old.items + blocks)
        (λ back. (length (contents_of back) ≡ blocks)
        × (sum size_classes.new.items ≡ sum size_classes.old.items)) }
{
    // For a chain without blocks it is past the last size class.
    let place = (blocks as usize).wrapping_sub(1);
    if place >= size_classes.len() {
        return Err(link);
    }
    size_classes[place].put(link, blocks)
}

/// Takes whole chains apart, the shortest ones first, until `needed` blocks are loose or no chain
/// is left.
fn gather(size_classes: &mut Vec<SizeClass>, loose: &mut Loose, needed: u32)
    requires { loose.old + sum size_classes.old.items ≤ most_blocks }
    ensures all { loose.new + sum size_classes.new.items ≡ loose.old + sum size_classes.old.items }
    ensures enough { (needed ≤ loose.new) ⊎ (sum size_classes.new.items ≡ 0) }
{
    for place in 0..size_classes.len() {
        if loose.blocks() >= needed {
            return;
        }
        size_classes[place].take_apart(loose, needed);
    }
}
