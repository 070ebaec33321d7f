//! One place of a table, and the steps on its words.
ghost use Rattle.std.specs.Prelude.{◌≡◌, ◌+◌, ◌*◌, ◌^◌, ◌<◌, ◌≤◌, cond, true, [], length, IfSome};
ghost use mathlib.Core.Option.{none};
ghost use Rattle.atomic_table.specs.Table.{step};
ghost use Rattle.sysv_gate.specs.History.{Moves, AreUpTo, after_all};
ghost use Rattle.sysv_gate.specs.Counts.{of_count};
ghost use Rattle.sysv_gate.specs.Steps.{Weighs, Draws, Enters, announced_by};
ghost use Rattle.sysv_gate.specs.Turns.{Waits, Looked, HasRead};
ghost use Rattle.sysv_gate.specs.Tables.{me_at};
ghost use Rattle.sysv_gate.specs.Locks.{IsLockIn, IsPassAt, IsSame};

pub(crate) mod acquire;
pub(crate) mod calls;
pub(crate) mod doorbell;
pub(crate) mod turns;
pub(crate) mod waits;

use crate::count::Count;
use crate::lock::doorbell::DOORBELLS;
use crate::object::Object;
use crate::table::words::{SERVING, TICKET};
use crate::table::{
    Announcing, Drawing, Entering, Looking, PlaceTable, Reading, TableToken, Weighing,
};
use std::alloc::Global;
use std::marker::Model;
use std::snapshot::Snapshot;
use sysv_doorbells::Doorbells;

/// One of several places that share a table, with the doorbells of the threads that wait there.
#[derive(Drop)]
pub struct PlaceLock<O: Object> {
    pub(crate) place: usize,
    /// The number of the first of the place's words.
    base: usize,
    /// The object that was at the place when the table was laid.
    opening: Snapshot<O>,
    /// The doorbells of the threads that wait at the place.
    pub(crate) doorbells: Doorbells,
}

impl<O: Object> Model for PlaceLock<O> {
    ghost use Rattle.std.specs.Prelude.{◌≡◌, ◌*◌, ◌^◌, ◌≤◌};
    ghost use Rattle.sysv_gate.specs.History.{AreUpTo};
    ghost use Rattle.sysv_gate.specs.Locks.{LockView};

    ghost Value = { LockView O };

    ghost view = { λ d. record { place = d.place; opening = d.opening.value } };

    ghost invariant = { λ d. (d.base ≡ 80 * d.place) × (d.base ≤ 2 ^ 60)
        × (d.doorbells.words ≡ 72) × AreUpTo (2 ^ 61) (O.counted d.opening.value) };
}

impl<O: Object> PlaceLock<O> {
    /// Makes the lock of the place, where `object` is. Returns `None` if memory is refused.
    ///
    /// # Conditions
    ///
    /// - `80 * place` is at most 2^60.
    /// - Both counts of `object` are at most 2^61.
    pub fn new(alloc: Global, place: usize, object: &O) -> Option<PlaceLock<O>>
        requires place { 80 * place ≤ 2 ^ 60 }
        requires counts { AreUpTo (2 ^ 61) (O.counted object.now) }
        ensures { IfSome result (λ l. (l.place ≡ place) × (l.opening ≡ object.now)) }
    {
        let doorbells = Doorbells::open(alloc, DOORBELLS as usize)?;
        Some(PlaceLock {
            place,
            base: 80 * place,
            opening: Snapshot::of(object),
            doorbells,
        })
    }

    /// Returns the number of this place's word among the words of the table.
    pub(crate) fn word(&self, word: usize) -> usize
        requires { word < 80 }
        ensures { result ≡ 80 * self.now.place + word }
    {
        self.base + word
    }

    /// Loads the ticket that is drawn next.
    pub(crate) fn weigh(&self, table: &PlaceTable<O>, token: &mut TableToken<O>) -> u64
        requires lock { IsLockIn table.now.shared self.now }
        requires at { IsPassAt table.now.shared self.now token.old }
        ensures same { IsSame self.now.place token.old token.new }
        ensures weighed { Weighs (step 1 32 0 0 none) (me_at self.now.place token.old.me) result
            (me_at self.now.place token.new.me) }
    {
        table.shared.load::<Weighing>(token, self.word(TICKET))
    }

    /// Draws `ticket` if it is the next one. Returns the next ticket that was found.
    pub(crate) fn draw_next(
        &self,
        table: &PlaceTable<O>,
        token: &mut TableToken<O>,
        ticket: u64,
    ) -> u64
        requires lock { IsLockIn table.now.shared self.now }
        requires at { IsPassAt table.now.shared self.now token.old }
        requires idle { Waits [] (me_at self.now.place token.old.me) }
        requires low { ticket < 2 ^ 62 }
        ensures same { IsSame self.now.place token.old token.new }
        ensures drawn { Draws (step 1 32 ticket (ticket + 1) none)
            (me_at self.now.place token.old.me) result (me_at self.now.place token.new.me) }
    {
        table
            .shared
            .compare_exchange::<Drawing>(token, self.word(TICKET), ticket, ticket + 1)
    }

    /// Draws `ticket` and begins its turn, if it is the next ticket. It is known to be the served
    /// one. Returns the next ticket that was found.
    pub(crate) fn enter_next(
        &self,
        table: &PlaceTable<O>,
        token: &mut TableToken<O>,
        ticket: u64,
    ) -> u64
        requires lock { IsLockIn table.now.shared self.now }
        requires at { IsPassAt table.now.shared self.now token.old }
        requires idle { Waits [] (me_at self.now.place token.old.me) }
        requires low { ticket < 2 ^ 62 }
        requires served { ticket ≡ (me_at self.now.place token.old.me).0.first
            + length (me_at self.now.place token.old.me).0.seen }
        ensures same { IsSame self.now.place token.old token.new }
        ensures entered { Enters (Moves O.meaning O.counted) O.counted
            (step 1 32 ticket (ticket + 1) none) (me_at self.now.place token.old.me) result
            (me_at self.now.place token.new.me) }
    {
        table
            .shared
            .compare_exchange::<Entering<O>>(token, self.word(TICKET), ticket, ticket + 1)
    }

    /// Loads the ticket that is served. If the pass holds that ticket, its turn begins.
    pub(crate) fn look(&self, table: &PlaceTable<O>, token: &mut TableToken<O>) -> u64
        requires lock { IsLockIn table.now.shared self.now }
        requires at { IsPassAt table.now.shared self.now token.old }
        requires idle { Waits (me_at self.now.place token.old.me).0.tickets
            (me_at self.now.place token.old.me) }
        ensures same { IsSame self.now.place token.old token.new }
        ensures looked { Looked (Moves O.meaning O.counted) O.counted self.now.opening
            (me_at self.now.place token.old.me) result (me_at self.now.place token.new.me) }
    {
        table.shared.load::<Looking<O>>(token, self.word(SERVING))
    }

    /// Reads the count as it is announced now.
    ///
    /// # Conditions
    ///
    /// - The lock belongs to the table, and so does the pass, which is at rest at the place.
    pub fn count(&self, table: &PlaceTable<O>, token: &mut TableToken<O>, count: Count) -> u64
        requires lock { IsLockIn table.now.shared self.now }
        requires at { IsPassAt table.now.shared self.now token.old }
        requires idle { Waits [] (me_at self.now.place token.old.me) }
        ensures same { IsSame self.now.place token.old token.new }
        ensures read { HasRead O.counted self.now.opening count (me_at self.now.place token.old.me)
            result (me_at self.now.place token.new.me) }
    {
        table
            .shared
            .load::<Reading<O>>(token, self.word(count.word()))
    }

    /// Announces a count in the pass's turn if it has risen.
    pub(crate) fn announce(
        &self,
        table: &PlaceTable<O>,
        token: &mut TableToken<O>,
        count: Count,
        rose: bool,
    )
        requires lock { IsLockIn table.now.shared self.now }
        requires at { IsPassAt table.now.shared self.now token.old }
        requires turn { (me_at self.now.place token.old.me).0.in_turn ≡ true }
        requires quiet { of_count count (me_at self.now.place token.old.me).0.announced ≡ 0 }
        requires low { of_count count (O.counted
            (after_all self.now.opening (me_at self.now.place token.old.me).0.seen)) < 2 ^ 63 }
        ensures same { IsSame self.now.place token.old token.new }
        ensures announced { me_at self.now.place token.new.me
            ≡ (
              announced_by count (cond rose 1 0) (me_at self.now.place token.old.me).0,
              (me_at self.now.place token.old.me).1,
            ) }
    {
        if rose {
            table
                .shared
                .fetch_add::<Announcing>(token, self.word(count.word()), 1);
        }
    }
}
