//! The seats of banks.
ghost use Rattle.sysv_gate.specs.History.{Moves};
ghost use Rattle.sysv_bank.specs.Resting.{IsTokenOf};

use std::marker::Model;
use std::snapshot::Snapshot;
use sysv_gate::{Object, TableKey, TableToken};

/// The right of one thread to take turns at each place of a bank, and what that thread knows of the
/// histories there and of the order of all turns. It works only with the bank that it came from. It
/// may move to another thread.
pub struct BankSeat<O: Object> {
    pub(crate) token: TableToken<O>,
    pub(crate) key: Snapshot<TableKey<O>>,
}

impl<O: Object> Model for BankSeat<O> {
    ghost use Rattle.sysv_bank.specs.Passes.{Pass};

    ghost Value = { Pass O O.Call O.Reply };

    ghost use Rattle.sysv_bank.specs.Resting.{pass_of, Rests};
    ghost use Rattle.sysv_gate.specs.History.{Moves};

    ghost view = { pass_of };

    ghost invariant = { Rests (Moves O.meaning O.counted) };
}

impl<O: Object> Drop for BankSeat<O> {
    fn drop(self) {
        let BankSeat { token: _, key: _ } = self;
    }
}

impl<O: Object> BankSeat<O> {
    pub(crate) fn into_token(self) -> TableToken<O>
        ensures { IsTokenOf (Moves O.meaning O.counted) self result }
    {
        let BankSeat { token, key: _ } = self;
        token
    }
}
