//! The blocks that a removal returns.

ghost use Rattle.std.specs.Prelude.{◌≡◌, []};

use std::marker::Model;
use sysv_pool::Chain;

/// The blocks of the messages that a removal discarded (POSIX.1-2017, `msgctl`, IPC_RMID).
///
/// Contracts see it as the number of blocks. It can be neither dropped nor copied; spend it with
/// `into_chain`.
pub struct Discarded {
    pub(crate) chain: Chain,
}

impl Model for Discarded {
    ghost use Rattle.std.specs.Prelude.{◌≡◌, ℕ, []};

    ghost Value = { ℕ };

    ghost view = { λ d. d.chain.blocks };

    ghost invariant = { λ d. d.chain.bytes ≡ [] };
}

impl Discarded {
    /// Returns one chain with all the blocks and no body.
    pub fn into_chain(self) -> Chain
        ensures { result ≡ record { blocks = self; bytes = [] } }
    {
        let Discarded { chain } = self;
        chain
    }
}
