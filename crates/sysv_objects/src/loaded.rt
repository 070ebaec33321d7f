//! A message body on its way to a queue.

ghost use Rattle.std.specs.Prelude.{◌≡◌, ◌≤◌, length};
ghost use Rattle.sysv_model.specs.declared.limits.TheConstants.{MESSAGE_BYTES as most_bytes};
ghost use Rattle.sysv_model.specs.Pool.{blocks_for};

use std::marker::Model;
use sysv_model::Body;
use sysv_pool::Chain;

/// A chain that holds a body of at most 8,192 bytes in the number of blocks that it needs.
///
/// It can be neither dropped nor copied; spend it with `into_chain`.
pub struct LoadedChain {
    chain: Chain,
    size: usize,
}

impl Model for LoadedChain {
    ghost use Rattle.std.specs.Prelude.{◌≡◌, ◌≤◌, length};
    ghost use Rattle.sysv_model.specs.declared.limits.TheConstants.{MESSAGE_BYTES};
    ghost use Rattle.sysv_model.specs.Pool.{blocks_for};
    ghost use Rattle.sysv_pool.specs.Chain.{Chained};

    ghost Value = { Chained };

    ghost view = { λ l. l.chain };

    ghost invariant = { λ l. (length l.chain.bytes ≡ l.size) × (l.chain.blocks ≡ blocks_for l.size)
        × (l.size ≤ MESSAGE_BYTES) };
}

impl LoadedChain {
    /// Writes the body into the chain and returns both.
    ///
    /// # Conditions
    ///
    /// - The chain has exactly the number of blocks for this body.
    /// - The body has at most 8,192 bytes.
    pub fn of(mut chain: Chain, body: &Body) -> LoadedChain
        requires blocks { chain.blocks ≡ blocks_for (length body.now) }
        requires short { length body.now ≤ most_bytes }
        ensures { result ≡ record { blocks = chain.blocks; bytes = body.now } }
    {
        chain.fill(body);
        LoadedChain {
            chain,
            size: body.len(),
        }
    }

    /// Returns the length of the body in bytes, 0 to 8,192.
    pub fn size(&self) -> usize
        ensures { result ≡ length self.now.bytes }
    {
        self.size
    }

    /// Returns the chain.
    pub fn into_chain(self) -> Chain
        ensures chain { result ≡ self }
        ensures blocks { result.blocks ≡ blocks_for (length result.bytes) }
        ensures short { length result.bytes ≤ most_bytes }
    {
        let LoadedChain { chain, size: _ } = self;
        chain
    }
}
