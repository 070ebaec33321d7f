//! Coming to a turn: a call tries to draw a ticket that is served at once, and sleeps without one.
ghost use Rattle.std.specs.Prelude.{◌≡◌, [], IfSome, IfNone};
ghost use Rattle.sysv_gate.specs.Turns.{Waits, HasDrawn, HasWorn};
ghost use Rattle.sysv_gate.specs.Tables.{me_at};
ghost use Rattle.sysv_gate.specs.Locks.{IsLockIn, IsPassAt, IsSame};

use crate::lock::PlaceLock;
use crate::lock::doorbell::ENTRANCE;
use crate::object::Object;
use crate::table::words::{LIMIT, SERVING, TICKET};
use crate::table::{PlaceTable, TableToken};
use std::hint;
use std::sync::Wait;

/// The number of looks whether no ticket is out before the thread sleeps without a ticket.
const TRIES: u64 = 128;

/// The greatest number of pauses between two such looks.
const MOST_PAUSES: u64 = 32;

/// The number of sleeps without a ticket before the thread draws one, whatever tickets are out.
const ROUNDS: u64 = 16;

/// Lets the processor pause so many times.
fn pause(times: u64) {
    for _ in 0..times {
        hint::spin_loop();
    }
}

impl<O: Object> PlaceLock<O> {
    /// Draws a ticket. It draws none while another is out, but looks a number of times and then
    /// sleeps; only after a number of sleeps it draws one in any case. Returns `None` only if the
    /// tickets have reached 2^62.
    #[inline(always)]
    pub(crate) fn acquire(
        &self,
        rt: &impl Wait,
        table: &PlaceTable<O>,
        token: &mut TableToken<O>,
    ) -> Option<u64>
        requires lock { IsLockIn table.now.shared self.now }
        requires at { IsPassAt table.now.shared self.now token.old }
        requires idle { Waits [] (me_at self.now.place token.old.me) }
        ensures same { IsSame self.now.place token.old token.new }
        ensures drawn { IfSome result (λ t. HasDrawn (me_at self.now.place token.old.me) t
            (me_at self.now.place token.new.me)) }
        ensures worn { IfNone result (HasWorn (me_at self.now.place token.old.me)
            (me_at self.now.place token.new.me)) }
    {
        if let Some(ticket) = self.draw_free(table, token) {
            return Some(ticket);
        }
        self.acquire_later(rt, table, token)
    }

    /// Draws a ticket like `acquire`, after a first look.
    #[inline(never)]
    fn acquire_later(
        &self,
        rt: &impl Wait,
        table: &PlaceTable<O>,
        token: &mut TableToken<O>,
    ) -> Option<u64>
        requires lock { IsLockIn table.now.shared self.now }
        requires at { IsPassAt table.now.shared self.now token.old }
        requires idle { Waits [] (me_at self.now.place token.old.me) }
        ensures same { IsSame self.now.place token.old token.new }
        ensures drawn { IfSome result (λ t. HasDrawn (me_at self.now.place token.old.me) t
            (me_at self.now.place token.new.me)) }
        ensures worn { IfNone result (HasWorn (me_at self.now.place token.old.me)
            (me_at self.now.place token.new.me)) }
    {
        for _ in 0..ROUNDS {
            if let Some(ticket) = self.draw_soon(table, token) {
                return Some(ticket);
            }
            self.doze_outside(rt, table);
        }
        self.draw(rt, table, token)
    }

    /// Draws the next ticket as soon as none is out, in a number of looks. Returns `None` if it
    /// drew none.
    fn draw_soon(&self, table: &PlaceTable<O>, token: &mut TableToken<O>) -> Option<u64>
        requires lock { IsLockIn table.now.shared self.now }
        requires at { IsPassAt table.now.shared self.now token.old }
        requires idle { Waits [] (me_at self.now.place token.old.me) }
        ensures same { IsSame self.now.place token.old token.new }
        ensures drawn { IfSome result (λ t. HasDrawn (me_at self.now.place token.old.me) t
            (me_at self.now.place token.new.me)) }
        ensures still { IfNone result (me_at self.now.place token.new.me
            ≡ me_at self.now.place token.old.me) }
    {
        let mut pauses = 1;
        for _ in 0..TRIES {
            pause(pauses);
            pauses = pauses.saturating_mul(2).min(MOST_PAUSES);
            if let Some(ticket) = self.draw_free(table, token) {
                return Some(ticket);
            }
            if self.next_ticket(table) >= LIMIT {
                break;
            }
        }
        None
    }

    /// Draws the next ticket if none is out, so that it is served at once. Returns `None` if it
    /// drew none.
    fn draw_free(&self, table: &PlaceTable<O>, token: &mut TableToken<O>) -> Option<u64>
        requires lock { IsLockIn table.now.shared self.now }
        requires at { IsPassAt table.now.shared self.now token.old }
        requires idle { Waits [] (me_at self.now.place token.old.me) }
        ensures same { IsSame self.now.place token.old token.new }
        ensures drawn { IfSome result (λ t. HasDrawn (me_at self.now.place token.old.me) t
            (me_at self.now.place token.new.me)) }
        ensures still { IfNone result (me_at self.now.place token.new.me
            ≡ me_at self.now.place token.old.me) }
    {
        let next = self.next_ticket(table);
        if next >= LIMIT || self.served_ticket(table) != next {
            return None;
        }
        if self.draw_next(table, token, next) != next {
            return None;
        }
        Some(next)
    }

    /// Sleeps until a turn has ended, if a ticket is out and more can be drawn.
    fn doze_outside(&self, rt: &impl Wait, table: &PlaceTable<O>)
        requires { IsLockIn table.now.shared self.now }
    {
        let sleeper = self.doorbells.enter(ENTRANCE);
        if self.is_busy(table) {
            self.doorbells.sleep(rt, &sleeper);
        }
        self.doorbells.leave(sleeper);
    }

    /// Returns whether a ticket is out and more can be drawn.
    fn is_busy(&self, table: &PlaceTable<O>) -> bool
        requires { IsLockIn table.now.shared self.now }
    {
        let next = self.next_ticket(table);
        next < LIMIT && self.served_ticket(table) != next
    }

    /// Loads the ticket that is drawn next, of which the pass learns nothing.
    fn next_ticket(&self, table: &PlaceTable<O>) -> u64
        requires { IsLockIn table.now.shared self.now }
    {
        table.shared.peek(self.word(TICKET))
    }

    /// Loads the ticket that is served, of which the pass learns nothing.
    fn served_ticket(&self, table: &PlaceTable<O>) -> u64
        requires { IsLockIn table.now.shared self.now }
    {
        table.shared.peek(self.word(SERVING))
    }
}
