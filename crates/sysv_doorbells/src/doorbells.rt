//! The words of some doorbells, and all calls on them.
ghost use Rattle.std.specs.Prelude.{◌≡◌, ℕ, ◌+◌, ◌*◌, ◌<◌, [], IfSome, cond};
ghost use Rattle.sysv_doorbells.specs.declared.view.Stage.TheVariants.{Away, Come, Entered, Ready, Left, Near, Ringing, Passed};
ghost use Rattle.sysv_doorbells.specs.Seats.{rung_at, looked_in};
ghost use Rattle.sysv_doorbells.specs.Steps.{made_ready, moved};
ghost use Rattle.sysv_doorbells.specs.Rule.{away};

use crate::rule::{
    Begin, Belling, Call, Clear, CountIn, CountOut, Enter, Leave, Look, LookNear, Note, Open,
    PassAll, ReadStrokes, Spare, Stroke,
};
use crate::seats::{Sleeper, Token, Trace};
use crate::view::View;
use atomic_table::Table;
use std::alloc::Global;
use std::marker::Model;
use std::sync::Wait;

/// The word with the number of all sleepers.
const SLEEPERS: usize = 0;

/// The word that is 1 from a call at the entrance until a thread there looks once more.
const CALLED: usize = 1;

/// The first word of the entrance.
const ENTRANCE: usize = 2;

/// The greatest number of doorbells.
const MOST: usize = 1 << 20;

/// The bits that a sleep compares: the low 32.
const LOW_BITS: u64 = 0xffff_ffff;

/// Some doorbells. Threads share them by reference.
#[derive(Drop)]
pub struct Doorbells {
    table: Table<(), View, u64, Belling, Global>,
}

impl Model for Doorbells {
    ghost use Rattle.std.specs.Prelude.{◌≡◌, ◌+◌, ◌*◌, ◌^◌, ◌≤◌};
    ghost use Rattle.atomic_table.specs.Seated.{TableId};

    ghost Value = { TableId };

    ghost view = { λ d. d.table.shared.table_id };

    ghost invariant = { λ d. (d.table.shared.table_id.words ≡ 2 * d.table.shared.key + 2)
        × (d.table.shared.key ≤ 2 ^ 20) };
}

impl Doorbells {
    /// Makes this number of doorbells, at most 2^20. Nobody is at any. Returns `None` if there are
    /// more, or memory is refused.
    pub fn open(alloc: Global, many: usize) -> Option<Doorbells>
        ensures { IfSome result (λ d. d.words ≡ 2 * many + 2) }
    {
        if many > MOST {
            return None;
        }
        let zeros = vec![in alloc; 0; 2 * many + ENTRANCE].ok()?;
        let key = many as u64;
        let (table, _) = Table::of_words(alloc, &zeros, &key).ok()?;
        Some(Doorbells { table })
    }

    /// Enters the doorbell. The thread looks for what it waits for afterwards.
    ///
    /// # Conditions
    ///
    /// - There is a doorbell with this number.
    pub fn enter(&self, bell: u32) -> Sleeper
        requires within { 2 * bell + 3 < self.now.words }
        ensures { (result.table ≡ self.now) × (result.at ≡ 2 * bell + 2) }
    {
        let at = 2 * bell as usize + ENTRANCE;
        let mut token = self.come();
        self.table.shared.fetch_add::<Enter>(&mut token, at, 1);
        let strokes = self.read(&mut token, at);
        Sleeper { token, at, strokes }
    }

    /// Sleeps if the doorbell was not rung since it was entered.
    ///
    /// # Conditions
    ///
    /// - `seat` is a sleeper's seat of these doorbells.
    pub fn sleep(&self, rt: &impl Wait, seat: &Sleeper)
        requires { seat.now.table ≡ self.now }
    {
        let low = (seat.strokes & LOW_BITS) as u32;
        self.table.shared.park(rt, seat.at + 1, low);
    }

    /// Leaves the doorbell. If it is the entrance, one may be called again: the thread looks for
    /// what it waits for afterwards.
    ///
    /// # Conditions
    ///
    /// - `seat` is a sleeper's seat of these doorbells.
    pub fn leave(&self, seat: Sleeper) -> Trace
        requires { seat.table ≡ self.now }
        ensures { result ≡ record { table = self.now; stage = Away; at = seat.at } }
    {
        let Sleeper {
            mut token,
            at,
            strokes: _,
        } = seat;
        self.clear(&mut token, at);
        self.table.shared.fetch_sub::<Leave>(&mut token, at, 1);
        self.go(&mut token);
        Trace { token }
    }

    /// Returns whether a thread is at any doorbell. If none is, this is a ring of each doorbell.
    #[inline(always)]
    pub fn has_sleepers(&self) -> (bool, Trace)
        ensures { result.1 ≡ looked_in self.now result.0 }
    {
        let (found, token) = self.table.shared.load_new_seat::<PassAll>(SLEEPERS);
        (found > 0, Trace { token })
    }

    /// Rings: wakes all threads that sleep on the doorbell. If none has entered, this is one load.
    /// Returns whether one has entered.
    ///
    /// # Conditions
    ///
    /// - There is a doorbell with this number.
    pub fn ring(&self, bell: u32) -> (bool, Trace)
        requires within { 2 * bell + 3 < self.now.words }
        ensures { result.1 ≡ rung_at self.now (2 * bell + 2) result.0 }
    {
        let at = 2 * bell as usize + ENTRANCE;
        let (found, mut token) = self.table.shared.load_new_seat::<Look>(at);
        if found == 0 {
            return (false, Trace { token });
        }
        self.table.shared.fetch_add::<Stroke>(&mut token, at + 1, 1);
        self.table.shared.wake_all(at + 1);
        (true, Trace { token })
    }

    /// Rings the entrance for one: wakes one thread that sleeps there, unless one that was called is
    /// still on its way. Returns whether it called one.
    ///
    /// # Conditions
    ///
    /// - There is a doorbell.
    pub fn call_one(&self) -> (bool, Trace)
        requires within { 3 < self.now.words }
        ensures { result.1 ≡ rung_at self.now 2 result.0 }
    {
        let (found, mut token) = self.table.shared.load_new_seat::<LookNear>(ENTRANCE);
        if found == 0 {
            return (false, Trace { token });
        }
        if self.calls(&mut token) {
            self.table
                .shared
                .fetch_add::<Stroke>(&mut token, ENTRANCE + 1, 1);
            self.table.shared.wake_one(ENTRANCE + 1);
            return (true, Trace { token });
        }
        (false, Trace { token })
    }

    /// Says that one is called at the entrance. Returns whether none was.
    fn calls(&self, token: &mut Token) -> bool
        requires table { token.old.table_id ≡ self.now }
        requires near { (token.old.me.0.stage ≡ Near) × (token.old.me.0.at ≡ 2) }
        ensures table { token.new.table_id ≡ token.old.table_id }
        ensures called { token.new.me
            ≡ (moved (cond result Ringing Passed) token.old.me.0, token.old.me.1) }
    {
        if self.table.shared.load::<Spare>(token, CALLED) == 0 {
            return self.table.shared.swap::<Call>(token, CALLED, 1) == 0;
        }
        false
    }

    /// Counts a thread among all sleepers.
    fn come(&self) -> Token
        ensures table { result.table_id ≡ self.now }
        ensures me { result.me ≡ (moved Come away, []) }
    {
        let (_, mut token) = self.table.shared.load_new_seat::<Begin>(SLEEPERS);
        self.table
            .shared
            .fetch_add::<CountIn>(&mut token, SLEEPERS, 1);
        token
    }

    /// At the entrance, takes back that one is called.
    fn clear(&self, token: &mut Token, at: usize)
        requires table { token.old.table_id ≡ self.now }
        requires ready { token.old.me.0.stage ≡ Ready }
        ensures { (token.new.table_id ≡ token.old.table_id) × (token.new.me ≡ token.old.me) }
    {
        if at == ENTRANCE {
            self.table.shared.store::<Clear>(token, CALLED, 0);
        }
    }

    /// Counts the thread no more among all sleepers.
    fn go(&self, token: &mut Token)
        requires table { token.old.table_id ≡ self.now }
        requires left { token.old.me.0.stage ≡ Left }
        ensures table { token.new.table_id ≡ token.old.table_id }
        ensures gone { token.new.me ≡ (moved Away token.old.me.0, token.old.me.1) }
    {
        self.table.shared.fetch_sub::<CountOut>(token, SLEEPERS, 1);
    }

    /// Reads the number of strokes. At the entrance, one may be called again.
    fn read(&self, token: &mut Token, at: usize) -> u64
        requires bell { (bell : ℕ) × (at ≡ 2 * bell + 2) }
        requires within { at + 1 < self.now.words }
        requires table { token.old.table_id ≡ self.now }
        requires entered { (token.old.me.0.stage ≡ Entered) × (token.old.me.0.at ≡ at) }
        ensures table { token.new.table_id ≡ token.old.table_id }
        ensures ready { (since : ℕ) × (token.new.me
            ≡ (made_ready result since token.old.me.0, token.old.me.1)) }
    {
        if at != ENTRANCE {
            return self.table.shared.load::<ReadStrokes>(token, at + 1);
        }
        let strokes = self.table.shared.load::<Note>(token, at + 1);
        self.table.shared.store::<Open>(token, CALLED, 0);
        strokes
    }
}
