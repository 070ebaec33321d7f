//! The parts of a call at a place. Each makes some steps on the table.
ghost use Rattle.std.specs.Prelude.{◌≡◌, ◌≢◌, ℕ, ◌^◌, ◌<◌, ◌≤◌, true, [], ◌∷◌, length, Option, Some, IfSome, IfNone};
ghost use Rattle.sysv_gate.specs.declared.table.place.Done.{Done as Served};
ghost use Rattle.sysv_gate.specs.declared.table.place.Place.{Place as Filled};
ghost use Rattle.sysv_gate.specs.Rule.{put};
ghost use Rattle.sysv_gate.specs.History.{Moves, IsAccepted, AreBelow};
ghost use Rattle.sysv_gate.specs.Steps.{HasTurn};
ghost use Rattle.sysv_gate.specs.Turns.{Waits, HasDrawn, HasWorn, SawMore, TurnCame, HasMade, Entered, Applied};
ghost use Rattle.sysv_gate.specs.Tables.{me_at, ReadsInOrder};
ghost use Rattle.sysv_gate.specs.Locks.{IsLockIn, IsPassAt, IsSame, EndsOrder};
ghost use Rattle.sysv_lists.specs.Numbers.{times};

use crate::count::Count;
use crate::lock::PlaceLock;
use crate::lock::doorbell::{ARRIVED, ENTRANCE, FREED, of_ticket};
use crate::object::Object;
use crate::table::place::{Done, Place};
use crate::table::words::{LIMIT, SERVING};
use crate::table::{Ending, PlaceTable, Spot, TableToken};
use std::hint;
use std::snapshot::Snapshot;
use std::sync::Wait;

/// The number of looks for the seat's ticket before the thread sleeps.
pub(crate) const LOOKS: u64 = 16_384;

// The result of a try to enter.
pub(crate) enum Entry {
    Turn,
    Busy,
    Worn,
}

/// Which of the two counts have risen in a turn.
#[derive(Clone, Copy)]
pub(crate) struct Rose {
    pub(crate) arrived: bool,
    pub(crate) freed: bool,
}

/// Makes the call, and records beside the object which call was served.
#[inline(always)]
pub(crate) fn apply<O: Object>(
    place: &mut Place<O, O::Call, O::Reply>,
    call: O::Call,
) -> (O::Reply, Rose)
    requires counts { AreBelow (2 ^ 63) (O.counted place.old.object) }
    requires accepted { O.accepts place.old.object call }
    ensures { Applied (Moves O.meaning O.counted) O.counted place.old.object call place.new
        result.0 result.1 }
{
    let before = place.object.counts();
    let asked = Snapshot::of(&call);
    let reply = place.object.apply(call);
    let after = place.object.counts();
    place.last.tell(Done {
        call: asked,
        reply: Snapshot::of(&reply),
    });
    let rose = Rose {
        arrived: after.0 > before.0,
        freed: after.1 > before.1,
    };
    (reply, rose)
}

/// Makes the call at the object in the slot.
#[inline(always)]
pub(crate) fn apply_in<O: Object>(spot: &mut Spot<O>, call: O::Call) -> (O::Reply, Rose)
    requires full { (object : O) × (last : Option (Served O.Call O.Reply))
        × (spot.old ≡ put object last) × AreBelow (2 ^ 63) (O.counted object)
        × O.accepts object call }
    ensures { (object : O) (last : Option (Served O.Call O.Reply)) → spot.old ≡ put object last →
        (place : Filled O O.Call O.Reply) × (spot.new ≡ Some place)
        × Applied (Moves O.meaning O.counted) O.counted object call place result.0 result.1 }
{
    let Some(place) = spot else { unreachable!() };
    apply(place, call)
}

impl<O: Object> PlaceLock<O> {
    /// Draws a ticket. Returns `None` only if the tickets have reached 2^62.
    pub(crate) fn draw(
        &self,
        rt: &impl Wait,
        table: &PlaceTable<O>,
        token: &mut TableToken<O>,
    ) -> Option<u64>
        requires lock { IsLockIn table.now.shared self.now }
        requires at { IsPassAt table.now.shared self.now token.old }
        requires idle { Waits [] (me_at self.now.place token.old.me) }
        ensures same { IsSame self.now.place token.old token.new }
        ensures drawn { IfSome result (λ t. HasDrawn (me_at self.now.place token.old.me) t
            (me_at self.now.place token.new.me)) }
        ensures worn { IfNone result (HasWorn (me_at self.now.place token.old.me)
            (me_at self.now.place token.new.me)) }
    {
        for _ in rt.forever() {
            let next = self.weigh(table, token);
            if next >= LIMIT {
                return None;
            }
            let found = self.draw_next(table, token, next);
            if found == next {
                return Some(next);
            }
        }
        unreachable!()
    }

    /// Draws the ticket that is served, if no other pass holds it, and so begins the turn.
    pub(crate) fn enter(&self, table: &PlaceTable<O>, token: &mut TableToken<O>) -> Entry
        requires lock { IsLockIn table.now.shared self.now }
        requires at { IsPassAt table.now.shared self.now token.old }
        requires idle { Waits [] (me_at self.now.place token.old.me) }
        ensures same { IsSame self.now.place token.old token.new }
        ensures entered { Entered (Moves O.meaning O.counted) O.counted self.now.opening
            (me_at self.now.place token.old.me) result (me_at self.now.place token.new.me) }
    {
        let next = self.weigh(table, token);
        if next >= LIMIT {
            return Entry::Worn;
        }
        let served = self.look(table, token);
        if served != next {
            return Entry::Busy;
        }
        let found = self.enter_next(table, token, served);
        if found != served {
            return Entry::Busy;
        }
        Entry::Turn
    }

    /// Waits until the ticket is served.
    #[inline(always)]
    pub(crate) fn reach(
        &self,
        rt: &impl Wait,
        table: &PlaceTable<O>,
        token: &mut TableToken<O>,
        ticket: u64,
    )
        requires lock { IsLockIn table.now.shared self.now }
        requires at { IsPassAt table.now.shared self.now token.old }
        requires waits { Waits (ticket ∷ []) (me_at self.now.place token.old.me) }
        ensures same { IsSame self.now.place token.old token.new }
        ensures turn { TurnCame (Moves O.meaning O.counted) O.counted self.now.opening
            (me_at self.now.place token.old.me).0 ticket (me_at self.now.place token.new.me) }
    {
        for _ in rt.forever() {
            if self.spin(table, token, ticket) == ticket {
                return;
            }
            if self.doze_until(rt, table, token, ticket) == ticket {
                return;
            }
        }
        unreachable!()
    }

    /// Sleeps until the ticket may be served, unless it is served already. Returns the ticket that
    /// it found served.
    #[inline(never)]
    fn doze_until(
        &self,
        rt: &impl Wait,
        table: &PlaceTable<O>,
        token: &mut TableToken<O>,
        ticket: u64,
    ) -> u64
        requires lock { IsLockIn table.now.shared self.now }
        requires at { IsPassAt table.now.shared self.now token.old }
        requires waits { Waits (ticket ∷ []) (me_at self.now.place token.old.me) }
        ensures same { IsSame self.now.place token.old token.new }
        ensures turn { result ≡ ticket → TurnCame (Moves O.meaning O.counted) O.counted
            self.now.opening (me_at self.now.place token.old.me).0 ticket
            (me_at self.now.place token.new.me) }
        ensures waits { result ≢ ticket
            → SawMore (me_at self.now.place token.old.me).0 (me_at self.now.place token.new.me) }
    {
        let sleeper = self.doorbells.enter(of_ticket(ticket));
        let served = self.look(table, token);
        if served != ticket {
            self.doorbells.sleep(rt, &sleeper);
        }
        self.doorbells.leave(sleeper);
        served
    }

    /// Looks a number of times whether the ticket is served, and returns the ticket that is.
    #[inline(always)]
    fn spin(&self, table: &PlaceTable<O>, token: &mut TableToken<O>, ticket: u64) -> u64
        requires lock { IsLockIn table.now.shared self.now }
        requires at { IsPassAt table.now.shared self.now token.old }
        requires waits { Waits (ticket ∷ []) (me_at self.now.place token.old.me) }
        ensures same { IsSame self.now.place token.old token.new }
        ensures turn { result ≡ ticket → TurnCame (Moves O.meaning O.counted) O.counted
            self.now.opening (me_at self.now.place token.old.me).0 ticket
            (me_at self.now.place token.new.me) }
        ensures waits { result ≢ ticket
            → SawMore (me_at self.now.place token.old.me).0 (me_at self.now.place token.new.me) }
    {
        let mut served = self.look(table, token);
        for _ in 1..LOOKS {
            if served == ticket {
                break;
            }
            hint::spin_loop();
            served = self.look(table, token);
        }
        served
    }

    /// Makes the turn: calls the object in its slot, announces its counts, and enters the turn into
    /// the history.
    #[inline(always)]
    pub(crate) fn serve(
        &self,
        table: &PlaceTable<O>,
        token: &mut TableToken<O>,
        call: O::Call,
    ) -> (O::Reply, Rose)
        requires lock { IsLockIn table.now.shared self.now }
        requires at { IsPassAt table.now.shared self.now token.old }
        requires turn { HasTurn (Moves O.meaning O.counted) O.counted self.now.opening
            (me_at self.now.place token.old.me) }
        requires ticket { (t : ℕ) × ((me_at self.now.place token.old.me).0.tickets ≡ t ∷ [])
            × ((me_at self.now.place token.old.me).0.in_turn ≡ true) }
        requires named { 1 ≤ times (me_at self.now.place token.old.me).0.number
            (me_at self.now.place token.old.me).0.numbers }
        requires room { length (me_at self.now.place token.old.me).0.seen < 2 ^ 62 }
        requires fits { IsAccepted (Moves O.meaning O.counted) O.accepts self.now.opening call }
        ensures same { IsSame self.now.place token.old token.new }
        ensures order { EndsOrder self.now.place token.old.me token.new.me }
        ensures made { HasMade (Moves O.meaning O.counted) self.now.opening
            (me_at self.now.place token.old.me).0 call result.0
            (me_at self.now.place token.new.me) }
        ensures reads { ReadsInOrder (Moves O.meaning O.counted) O.counted token.new.me.0 }
    {
        let spot = token.slot_mut(&table.shared, self.place);
        let (reply, rose) = apply_in(spot, call);
        self.announce(table, token, Count::Arrived, rose.arrived);
        self.announce(table, token, Count::Freed, rose.freed);
        table
            .shared
            .fetch_add::<Ending<O>>(token, self.word(SERVING), 1);
        (reply, rose)
    }

    /// Wakes the threads for which the end of the turn with this ticket is of use. If no thread
    /// sleeps, this is one load.
    #[inline(always)]
    pub(crate) fn wake_after(&self, ticket: u64, rose: Rose)
        requires { ticket < 2 ^ 62 }
    {
        if self.doorbells.has_sleepers().0 {
            self.wake_sleepers(ticket, rose);
        }
    }

    /// Wakes the thread with the next ticket or, if none sleeps with a ticket, one that sleeps
    /// without. Wakes also all threads that wait for a count that rose.
    #[inline(never)]
    fn wake_sleepers(&self, ticket: u64, rose: Rose)
        requires { ticket < 2 ^ 62 }
    {
        if !self.doorbells.ring(of_ticket(ticket + 1)).0 {
            self.doorbells.call_one();
        }
        if rose.arrived {
            self.doorbells.ring(ARRIVED);
        }
        if rose.freed {
            self.doorbells.ring(FREED);
        }
    }

    /// Wakes the threads that sleep without a ticket or wait for a count if this was the last
    /// ticket.
    pub(crate) fn tell_worn(&self, ticket: u64) {
        if ticket >= LIMIT - 1 {
            self.ring();
        }
    }

    /// Wakes the threads that sleep without a ticket or wait for a count.
    #[cold]
    pub(crate) fn ring(&self) {
        self.doorbells.ring(ENTRANCE);
        self.doorbells.ring(ARRIVED);
        self.doorbells.ring(FREED);
    }
}
