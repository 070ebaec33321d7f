//! Turns at the pool of blocks.

ghost use Rattle.std.specs.Prelude.{◌≡◌, ◌≤◌, ◌^◌, ◌<◌};
ghost use Rattle.sysv_model.specs.declared.limits.TheConstants.{MESSAGE_BYTES as most_bytes};
ghost use Rattle.sysv_objects.specs.PoolTurns.{PoolMoves, MayRelease};

use std::marker::Model;
use sysv_pool::{Chain, Pool};

/// The size of a message body, 0 to 8,192 bytes.
#[derive(Drop)]
pub struct TextSize {
    size: usize,
}

impl Model for TextSize {
    ghost use Rattle.std.specs.Prelude.{ℕ, ◌≤◌};
    ghost use Rattle.sysv_model.specs.declared.limits.TheConstants.{MESSAGE_BYTES};

    ghost Value = { ℕ };

    ghost view = { λ t. t.size };

    ghost invariant = { λ t. t.size ≤ MESSAGE_BYTES };
}

impl TextSize {
    /// Creates a size.
    ///
    /// # Conditions
    ///
    /// - `size` is at most 8,192.
    pub fn of(size: usize) -> TextSize
        requires { size ≤ most_bytes }
        ensures { result ≡ size }
    {
        TextSize { size }
    }

    /// Returns the number of bytes, 0 to 8,192.
    pub fn bytes(self) -> usize
        ensures size { result ≡ self }
        ensures short { result ≤ most_bytes }
    {
        self.size
    }
}

/// The requests to the pool. Each is the call of `Pool` with the same name.
pub enum PoolCall {
    Reserve(TextSize),
    Release(Chain),
}

/// The replies of the pool, in the order of the requests. A refused release hands its chain back.
pub enum PoolReply {
    Reserved(Option<Chain>),
    Released(Result<(), Chain>),
}

impl PoolCall {
    /// Makes the turn at this pool.
    ///
    /// # Conditions
    ///
    /// - For a release, the pool's released count is below 2^63.
    #[inline(always)]
    pub fn make(self, pool: &mut Pool) -> PoolReply
        requires { MayRelease self → pool.old.released < 2 ^ 63 }
        ensures { PoolMoves pool.old self result pool.new }
    {
        match self {
            PoolCall::Reserve(size) => PoolReply::Reserved(pool.reserve(size.bytes())),
            PoolCall::Release(chain) => PoolReply::Released(pool.release(chain)),
        }
    }
}
