//! Chains of a pool's blocks, with message bodies in them.

ghost use Rattle.std.specs.Prelude.{◌≡◌, ◌+◌, ◌≤◌, [], ◌++◌, length, take};
ghost use Rattle.sysv_model.specs.declared.limits.TheConstants.{BODY_ROOM as body_room};
ghost use Rattle.sysv_model.specs.Pool.{blocks_for};
ghost use Rattle.sysv_pool.specs.Chain.{counted};

use crate::blocks::{Link, copy_front, fill_from, free_all, shift_all};
use std::marker::Model;
use sysv_model::Body;

/// Linked blocks of a pool, and the message body in them.
///
/// A chain can be neither dropped nor copied. Release it with `Pool::release`, join it to another
/// chain, or end it.
pub struct Chain {
    pub(crate) link: Link,
    pub(crate) count: u32,
    pub(crate) len: usize,
}

impl Model for Chain {
    ghost use Rattle.std.specs.Prelude.{◌≡◌, length, take};
    ghost use Rattle.std.specs.List.{concat};
    ghost use Rattle.sysv_pool.specs.Chain.{Chained, counted};
    ghost use Rattle.sysv_pool.specs.Blocks.{contents_of};

    ghost Value = { Chained };

    ghost view = { λ c. record {
      blocks = length (contents_of c.link);
      bytes = take c.len (concat (contents_of c.link));
    } };

    // The count is the largest u32 if there are more blocks.
    ghost invariant = { λ c. c.count ≡ counted (length (contents_of c.link)) };
}

impl Chain {
    /// Returns a chain without blocks.
    pub fn empty() -> Chain
        ensures { result ≡ record { blocks = 0; bytes = [] } }
    {
        Chain {
            link: None,
            count: 0,
            len: 0,
        }
    }

    /// Returns the number of blocks, or the largest `u32` if there are more.
    pub fn blocks(&self) -> u32
        ensures { result ≡ counted self.now.blocks }
    {
        self.count
    }

    /// Writes the body into the blocks. Allocates nothing.
    ///
    /// # Conditions
    ///
    /// - The chain has exactly the number of blocks for a body of this length, as `Pool::reserve`
    ///   returns it.
    pub fn fill(&mut self, body: &Body)
        requires { self.old.blocks ≡ blocks_for (length body.now) }
        ensures { self.new ≡ record { blocks = self.old.blocks; bytes = body.now } }
    {
        let len = body.len();
        fill_from(&mut self.link, 0, body);
        self.len = len;
    }

    /// Joins two chains into one chain with the blocks of both and no body.
    ///
    /// It allocates nothing. It takes time in proportion to the number of blocks of `other`.
    pub fn join(self, other: Chain) -> Chain
        ensures { result ≡ record { blocks = self.blocks + other.blocks; bytes = [] } }
    {
        let Chain {
            link,
            count,
            len: _,
        } = self;
        let Chain {
            link: others,
            count: more,
            len: _,
        } = other;
        Chain {
            link: shift_all(others, link),
            count: count.saturating_add(more),
            len: 0,
        }
    }

    /// Appends the first `n` bytes of the body to `out`. Allocates nothing, and leaves the chain
    /// unchanged.
    ///
    /// # Conditions
    ///
    /// - `n` is at most the length of the body in the chain.
    /// - `out` has space for `n` more bytes.
    pub fn copy_out(&self, n: usize, out: &mut Body)
        requires there { n ≤ length self.now.bytes }
        requires room { length out.old + n ≤ body_room }
        ensures { out.new ≡ out.old ++ take n self.now.bytes }
    {
        copy_front(&self.link, n, out);
    }

    /// Frees the blocks and returns their number, as `blocks` does. The blocks do not return to a
    /// pool.
    pub fn end(self) -> u32
        ensures { result ≡ counted self.blocks }
    {
        let Chain {
            link,
            count,
            len: _,
        } = self;
        free_all(link);
        count
    }
}
