//! The calls at a place.
ghost use Rattle.std.specs.Prelude.{◌≡◌, IfOk, IfErr, OnOk};
ghost use Rattle.sysv_gate.specs.History.{Moves, IsAccepted};
ghost use Rattle.sysv_gate.specs.Turns.{HasWorn};
ghost use Rattle.sysv_gate.specs.Tables.{me_at, ReadsInOrder};
ghost use Rattle.sysv_gate.specs.Locks.{IsLockIn, IsPassAt, IsSame, EndsOrder, Idles, HasCalled, HasTried};

use crate::lock::PlaceLock;
use crate::lock::doorbell::DOORBELLS;
use crate::lock::turns::Entry;
use crate::object::Object;
use crate::refusals::{TryRefused, Worn};
use crate::table::{PlaceTable, TableToken};
use std::sync::Wait;

impl<O: Object> PlaceLock<O> {
    /// Makes the call in a turn of the pass's own, like `Gate::call`. Afterwards the turn is the
    /// last one in the order that the pass has seen, and the pass has read at most one more of any
    /// count at any place than that count has after this order.
    ///
    /// # Errors
    ///
    /// - `Worn` only if the tickets of the place have reached 2^62. The error holds the call.
    ///
    /// # Conditions
    ///
    /// - The lock belongs to the table, and so does the pass, which is at rest at the place.
    /// - Every object to which legal turns lead from the first one at the place accepts the call.
    #[inline(always)]
    pub fn call(
        &self,
        rt: &impl Wait,
        table: &PlaceTable<O>,
        token: &mut TableToken<O>,
        call: O::Call,
    ) -> Result<O::Reply, Worn<O::Call>>
        requires lock { IsLockIn table.now.shared self.now }
        requires at { IsPassAt table.now.shared self.now token.old }
        requires idle { Idles (me_at self.now.place token.old.me) }
        requires fits { IsAccepted (Moves O.meaning O.counted) O.accepts self.now.opening call }
        ensures same { IsSame self.now.place token.old token.new }
        ensures order { OnOk result (EndsOrder self.now.place token.old.me token.new.me) }
        ensures reads { OnOk result (ReadsInOrder (Moves O.meaning O.counted) O.counted
            token.new.me.0) }
        ensures ok { IfOk result (λ r. HasCalled (Moves O.meaning O.counted) O.counted
            self.now.opening (me_at self.now.place token.old.me) call r
            (me_at self.now.place token.new.me)) }
        ensures worn { IfErr result (λ w. (w.call ≡ call)
            × HasWorn (me_at self.now.place token.old.me) (me_at self.now.place token.new.me)) }
    {
        let Some(ticket) = self.acquire(rt, table, token) else {
            return Err(Worn { call });
        };
        self.tell_worn(ticket);
        self.reach(rt, table, token, ticket);
        let (reply, rose) = self.serve(table, token, call);
        self.wake_after(ticket, rose);
        Ok(reply)
    }

    /// Makes the call if no other pass holds a ticket, like `Gate::try_call`.
    ///
    /// # Errors
    ///
    /// The error holds the call.
    ///
    /// - `Busy` if another pass holds a ticket or draws one first.
    /// - `Worn` only if the tickets of the place have reached 2^62.
    ///
    /// # Conditions
    ///
    /// - The lock belongs to the table, and so does the pass, which is at rest at the place.
    /// - Every object to which legal turns lead from the first one at the place accepts the call.
    pub fn try_call(
        &self,
        table: &PlaceTable<O>,
        token: &mut TableToken<O>,
        call: O::Call,
    ) -> Result<O::Reply, TryRefused<O::Call>>
        requires lock { IsLockIn table.now.shared self.now }
        requires at { IsPassAt table.now.shared self.now token.old }
        requires idle { Idles (me_at self.now.place token.old.me) }
        requires fits { IsAccepted (Moves O.meaning O.counted) O.accepts self.now.opening call }
        ensures same { IsSame self.now.place token.old token.new }
        ensures order { OnOk result (EndsOrder self.now.place token.old.me token.new.me) }
        ensures reads { OnOk result (ReadsInOrder (Moves O.meaning O.counted) O.counted
            token.new.me.0) }
        ensures ok { IfOk result (λ r. HasCalled (Moves O.meaning O.counted) O.counted
            self.now.opening (me_at self.now.place token.old.me) call r
            (me_at self.now.place token.new.me)) }
        ensures err { IfErr result (λ e. HasTried (Moves O.meaning O.counted) self.now.opening
            (me_at self.now.place token.old.me) call e (me_at self.now.place token.new.me)) }
    {
        match self.enter(table, token) {
            Entry::Turn => Ok(self.serve(table, token, call).0),
            Entry::Busy => Err(TryRefused::Busy(call)),
            Entry::Worn => Err(TryRefused::Worn(call)),
        }
    }

    /// Wakes every thread that waits at the place, like `Gate::wake`.
    pub fn wake(&self, _rt: &impl Wait) {
        for bell in 0..DOORBELLS {
            self.doorbells.ring(bell);
        }
    }
}
