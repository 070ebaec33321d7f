//! The free blocks that are in no whole chain.

ghost use Rattle.std.specs.Prelude.{◌≡◌, ◌+◌, ◌≤◌, length, IfOk};
ghost use Rattle.sysv_model.specs.declared.limits.TheConstants.{MAX_BLOCKS as most_blocks};
ghost use Rattle.sysv_pool.specs.Blocks.{contents_of};

use crate::blocks::{Link, cut, free_all, linked, shift_all};
use std::alloc::Global;
use std::marker::Model;
use std::mem;
use sysv_model::NoMemory;

/// Linked free blocks, with their number.
pub(crate) struct Loose {
    link: Link,
    count: u32,
}

impl Model for Loose {
    ghost use Rattle.std.specs.Prelude.{◌≡◌, ℕ, length};
    ghost use Rattle.sysv_pool.specs.Blocks.{contents_of};

    ghost Value = { ℕ };

    ghost view = { λ l. l.count };

    ghost invariant = { λ l. length (contents_of l.link) ≡ l.count };
}

impl Loose {
    /// Creates `blocks` loose blocks.
    ///
    /// # Errors
    ///
    /// - `NoMemory` if allocation fails.
    pub(crate) fn open(alloc: Global, blocks: u32) -> Result<Loose, NoMemory>
        ensures { IfOk result (λ loose. loose ≡ blocks) }
    {
        let link = linked(alloc, blocks)?;
        Ok(Loose {
            link,
            count: blocks,
        })
    }

    /// Returns the number of blocks.
    pub(crate) fn blocks(&self) -> u32
        ensures { result ≡ self.now }
    {
        self.count
    }

    /// Adds the blocks of a chain of `blocks` blocks, one at a time.
    pub(crate) fn add(&mut self, link: Link, blocks: u32)
        requires all { length (contents_of link) ≡ blocks }
        requires room { self.old + blocks ≤ most_blocks }
        ensures { self.new ≡ self.old + blocks }
    {
        self.link = shift_all(link, self.link.take());
        self.count += blocks;
    }

    /// Takes `blocks` of the blocks, as one chain.
    pub(crate) fn cut(&mut self, blocks: u32) -> Link
        requires { blocks ≤ self.old }
        ensures chain { length (contents_of result) ≡ blocks }
        ensures left { self.new + blocks ≡ self.old }
    {
        let rest = cut(&mut self.link, blocks);
        self.count -= blocks;
        mem::replace(&mut self.link, rest)
    }

    /// Frees the memory of the blocks.
    pub(crate) fn end(self) {
        let Loose { link, count: _ } = self;
        free_all(link);
    }
}
