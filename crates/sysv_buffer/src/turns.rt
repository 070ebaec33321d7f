//! The parts of a call of a `OneBuffer`. Each makes some steps on the table.
ghost use Rattle.std.specs.Prelude.{◌≡◌, ◌+◌, ◌%◌, ◌^◌, ◌≤◌, true, false, [], ◌∷◌, ◌++◌, length, Some, None, IfSome, IfNone};
ghost use Rattle.sysv_buffer.specs.Turns.{IsOf, IsSame, HasPut, HasRoom, IsIdleProducer, IsIdleConsumer, Reached, Looked, IsStuck};
ghost use Rattle.sysv_buffer.specs.declared.turns.Found.TheVariants.{Item, Spent};
ghost use Rattle.sysv_buffer.specs.declared.view.Role.TheVariants.{Producer, Consumer};

use crate::board::{IN, LIMIT, OUT, Token};
use crate::buffer::OneBuffer;
use crate::rule::{CountingIn, CountingOut, Looking, Putting, Reaching, Taking};
use std::hint;
use std::sync::Wait;
use std::sync::atomic::Ordering::SeqCst;

/// The number of looks of an end before it sleeps.
pub(crate) const SPINS: u64 = 1024;

/// The bits of the word that a sleep compares: the low 32.
pub(crate) const LOW_BITS: u64 = 0xffff_ffff;

/// What the producer finds.
#[derive(Clone, Copy)]
pub(crate) enum Reach {
    /// The producer holds this cell.
    Room(usize),
    /// Every cell has an item. It holds the number of items taken.
    Full(u64),
    /// 2^62 items were put.
    WornOut,
}

/// What the consumer finds.
#[derive(Clone, Copy)]
pub(crate) enum Found {
    /// The consumer holds this cell, which has the next item.
    Item(usize),
    /// No item is in the buffer. It holds the number of items put.
    Empty(u64),
    /// 2^62 items were taken.
    Spent,
}

impl<T> OneBuffer<T> {
    /// Takes the next cell out of the table if a cell is empty.
    pub(crate) fn reach(&self, token: &mut Token<T>) -> Reach
        requires table { IsOf self.now token.old }
        requires idle { IsIdleProducer token.old.me }
        ensures same { IsSame token.old token.new }
        ensures reached { Reached self.now.room token.old.me.0.put result token.new.me }
    {
        let count = self.table.shared.load::<CountingIn>(token, IN);
        if count >= LIMIT {
            return Reach::WornOut;
        }
        let out = self.table.shared.load::<Reaching>(token, OUT);
        let room = self.room as u64;
        if count - out >= room {
            return Reach::Full(out);
        }
        Reach::Room((count % room) as usize)
    }

    /// Puts the item into the cell that the producer holds, and returns the cell to the table.
    pub(crate) fn fill(&self, token: &mut Token<T>, cell: usize, item: T)
        requires table { IsOf self.now token.old }
        requires producer { token.old.me.0.role ≡ Producer }
        requires busy { token.old.me.0.holds ≡ true }
        requires out { token.old.me.1 ≡ (cell, None) ∷ [] }
        requires place { cell ≡ length token.old.me.0.put % self.now.room }
        ensures same { IsSame token.old token.new }
        ensures put { token.new.me
            ≡ (record token.old.me.0 { put = token.old.me.0.put ++ item ∷ []; holds = false }, []) }
    {
        let shared = &self.table.shared;
        let left = shared.exchange(token, cell, Some(item));
        let None = left else { unreachable!() };
        shared.fetch_add::<Putting>(token, IN, 1);
    }

    /// Takes the cell of the next item out of the table if there is an item.
    pub(crate) fn look(&self, token: &mut Token<T>) -> Found
        requires table { IsOf self.now token.old }
        requires idle { IsIdleConsumer token.old.me }
        ensures same { IsSame token.old token.new }
        ensures looked { Looked self.now.room token.old.me result token.new.me }
    {
        let count = self.table.shared.load::<CountingOut>(token, OUT);
        if count >= LIMIT {
            return Found::Spent;
        }
        let put = self.table.shared.load::<Looking>(token, IN);
        if put <= count {
            return Found::Empty(put);
        }
        Found::Item((count % self.room as u64) as usize)
    }

    /// Takes the item from the cell that the consumer holds, and returns the cell to the table.
    pub(crate) fn empty(&self, token: &mut Token<T>, cell: usize) -> T
        requires table { IsOf self.now token.old }
        requires consumer { token.old.me.0.role ≡ Consumer }
        requires busy { token.old.me.0.holds ≡ true }
        requires out { (x : T) × (token.old.me.1 ≡ (cell, Some x) ∷ []) }
        requires place { cell ≡ token.old.me.0.taken % self.now.room }
        ensures same { IsSame token.old token.new }
        ensures was { token.old.me.1 ≡ (cell, Some result) ∷ [] }
        ensures taken { token.new.me
            ≡ (record token.old.me.0 { taken = token.old.me.0.taken + 1; holds = false }, []) }
    {
        let shared = &self.table.shared;
        let Some(item) = shared.exchange(token, cell, None) else {
            unreachable!()
        };
        shared.fetch_add::<Taking>(token, OUT, 1);
        item
    }

    /// Looks a number of times for an empty cell.
    fn spin_room(&self, token: &mut Token<T>) -> Reach
        requires table { IsOf self.now token.old }
        requires idle { IsIdleProducer token.old.me }
        ensures same { IsSame token.old token.new }
        ensures reached { Reached self.now.room token.old.me.0.put result token.new.me }
    {
        let mut found = self.reach(token);
        for _ in 1..SPINS {
            if !matches!(found, Reach::Full(_)) {
                break;
            }
            hint::spin_loop();
            found = self.reach(token);
        }
        found
    }

    /// Waits for an empty cell, and takes it out of the table. Returns `None` only if 2^62 items
    /// were put.
    pub(crate) fn await_room(&self, rt: &impl Wait, token: &mut Token<T>) -> Option<usize>
        requires table { IsOf self.now token.old }
        requires idle { IsIdleProducer token.old.me }
        ensures same { IsSame token.old token.new }
        ensures room { IfSome result (λ cell.
            HasRoom self.now.room cell token.old.me.0.put token.new.me) }
        ensures worn { IfNone result (HasPut token.old.me.0.put token.new.me
            × (2 ^ 62 ≤ length token.old.me.0.put)) }
    {
        for _ in rt.forever() {
            match self.spin_room(token) {
                Reach::Room(cell) => return Some(cell),
                Reach::WornOut => return None,
                Reach::Full(out) => self.sleep(rt, token, OUT, out),
            }
        }
        unreachable!()
    }

    /// Looks a number of times for an item.
    fn spin_item(&self, token: &mut Token<T>) -> Found
        requires table { IsOf self.now token.old }
        requires idle { IsIdleConsumer token.old.me }
        ensures same { IsSame token.old token.new }
        ensures looked { Looked self.now.room token.old.me result token.new.me }
    {
        let mut found = self.look(token);
        for _ in 1..SPINS {
            if !matches!(found, Found::Empty(_)) {
                break;
            }
            hint::spin_loop();
            found = self.look(token);
        }
        found
    }

    /// Waits for an item, and takes its cell out of the table. Returns `None` only if 2^62 items
    /// were taken.
    pub(crate) fn await_item(&self, rt: &impl Wait, token: &mut Token<T>) -> Option<usize>
        requires table { IsOf self.now token.old }
        requires idle { IsIdleConsumer token.old.me }
        ensures same { IsSame token.old token.new }
        ensures item { IfSome result (λ cell.
            Looked self.now.room token.old.me (Item cell) token.new.me) }
        ensures worn { IfNone result (Looked self.now.room token.old.me Spent token.new.me) }
    {
        for _ in rt.forever() {
            match self.spin_item(token) {
                Found::Item(cell) => return Some(cell),
                Found::Spent => return None,
                Found::Empty(put) => self.sleep(rt, token, IN, put),
            }
        }
        unreachable!()
    }

    /// Sleeps until a wake if the word still has the value that was found. It registers as a
    /// sleeper before it sleeps, so that the other end wakes it. The condition rules out a sleep on
    /// another word or value.
    fn sleep(&self, rt: &impl Wait, token: &Token<T>, word: usize, found: u64)
        requires stuck { IsStuck self.now.room word found token.now.me }
    {
        self.sleepers.fetch_add(1, SeqCst);
        self.table.shared.park(rt, word, (found & LOW_BITS) as u32);
        self.sleepers.fetch_sub(1, SeqCst);
    }

    /// Wakes the other end if it sleeps on this word.
    pub(crate) fn wake(&self, word: usize)
        requires { word ≤ 16 }
    {
        if self.sleepers.load(SeqCst) > 0 {
            self.table.shared.wake_all(word);
        }
    }
}
