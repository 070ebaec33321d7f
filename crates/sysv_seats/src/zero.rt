//! The clock of a server.
ghost use Rattle.std.specs.Prelude.{◌≡◌};

use sysv_service::Clock;

/// A clock that always returns 0.
pub struct Zero;

impl Clock for Zero {
    ghost may = { λ _ now. now ≡ 0 };

    fn now(&self) -> u64 {
        0
    }
}

/// The clock of every handler of a server.
pub const ZERO: Zero = Zero;
