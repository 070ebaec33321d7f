//! Puts and takes that wait for their turn.
ghost use Rattle.std.specs.Prelude.{◌≡◌, ◌≤◌, ◌^◌, IfOk, IfErr, OnOk, OnErr, IfSome, IfNone, [], length};
ghost use Rattle.sysv_buffer.specs.ManyEnds.{Looks, Puts, Takes};
ghost use Rattle.sysv_buffer.specs.ManyTurns.{IsOf, IsSame, Waits, Keeps, HasRoom, HasItem, SawLast};

use crate::board::{IN, OUT};
use crate::many::ManyBuffer;
use crate::many_board::Token;
use crate::many_turns::{Next, Room};
use crate::refusals::{PutWorn, TakeWorn};
use crate::seat::Seat;
use crate::turns::LOW_BITS;
use std::sync::Wait;
use std::sync::atomic::AtomicU64;
use std::sync::atomic::Ordering::SeqCst;
use std::{hint, thread};

/// The number of looks of a seat before it yields to other threads.
const LOOKS: u32 = 128;

/// The number of looks of a seat, with a yield after each, before it sleeps.
const YIELDS: u32 = 16;

impl<T: Drop> ManyBuffer<T> {
    /// Waits for its turn and for an empty cell, and puts `item` into that cell.
    ///
    /// # Errors
    ///
    /// - `PutWorn` only if 2^62 items were put. Nothing is put, and the error holds the item.
    ///
    /// # Conditions
    ///
    /// - `seat` is a seat of this buffer.
    pub fn put(&self, rt: &impl Wait, seat: &mut Seat<T>, item: T) -> Result<(), PutWorn<T>>
        requires { seat.old.buffer ≡ self.now }
        ensures buffer { seat.new.buffer ≡ self.now }
        ensures ok { OnOk result (Puts item seat.old seat.new) }
        ensures worn { IfErr result (λ e. (e.item ≡ item) × (2 ^ 62 ≤ length seat.new.seen)
            × Looks seat.old seat.new) }
    {
        let token = &mut seat.token;
        let Some(cell) = self.await_room(rt, token) else {
            return Err(PutWorn { item });
        };
        self.place(token, cell, item);
        self.wake(IN);
        Ok(())
    }

    /// Waits for its turn and for an item, and takes that item. A seat takes from later and later
    /// places.
    ///
    /// # Errors
    ///
    /// - `TakeWorn` only if 2^62 items were taken. Nothing is taken.
    ///
    /// # Conditions
    ///
    /// - `seat` is a seat of this buffer.
    pub fn take(&self, rt: &impl Wait, seat: &mut Seat<T>) -> Result<T, TakeWorn>
        requires { seat.old.buffer ≡ self.now }
        ensures buffer { seat.new.buffer ≡ self.now }
        ensures ok { IfOk result (λ item. Takes item seat.old seat.new) }
        ensures worn { OnErr result ((2 ^ 62 ≤ seat.new.gone) × Looks seat.old seat.new) }
    {
        let token = &mut seat.token;
        let Some(cell) = self.await_item(rt, token) else {
            return Err(TakeWorn);
        };
        let item = self.remove(token, cell);
        self.wake(OUT);
        Ok(item)
    }
}

impl<T> ManyBuffer<T> {
    /// Waits until the next ticket for a put is free and a cell is empty, and takes that cell out
    /// of the table. Returns `None` only if 2^62 items were put. It holds no ticket while it waits,
    /// so no thread waits for a thread that sleeps.
    fn await_room(&self, rt: &impl Wait, token: &mut Token<T>) -> Option<usize>
        requires table { IsOf self.now token.old }
        requires idle { Waits [] [] token.old.me }
        ensures same { IsSame token.old token.new }
        ensures keeps { Keeps token.old.me.0 token.new.me.0 }
        ensures room { IfSome result (λ cell. HasRoom self.now.room cell token.new.me) }
        ensures worn { IfNone result (Waits [] [] token.new.me
            × (2 ^ 62 ≤ length token.new.me.0.seen)) }
    {
        for _ in rt.forever() {
            match self.find_room(token) {
                Room::Cell(cell) => return Some(cell),
                Room::Worn => return None,
                Room::Full(out) => self.pause(rt, token, OUT, out),
                Room::Busy(count) => self.pause(rt, token, IN, count),
            }
        }
        unreachable!()
    }

    /// Waits until the next ticket for a take is free and an item is in the buffer, and takes the
    /// item's cell out of the table. Returns `None` only if 2^62 items were taken.
    fn await_item(&self, rt: &impl Wait, token: &mut Token<T>) -> Option<usize>
        requires table { IsOf self.now token.old }
        requires idle { Waits [] [] token.old.me }
        ensures same { IsSame token.old token.new }
        ensures keeps { Keeps token.old.me.0 token.new.me.0 }
        ensures item { IfSome result (λ cell. HasItem self.now.room cell token.new.me) }
        ensures worn { IfNone result (Waits [] [] token.new.me × (2 ^ 62 ≤ token.new.me.0.gone)) }
    {
        for _ in rt.forever() {
            match self.find_item(token) {
                Next::Cell(cell) => return Some(cell),
                Next::Worn => return None,
                Next::Empty(put) => self.pause(rt, token, IN, put),
                Next::Busy(count) => self.pause(rt, token, OUT, count),
            }
        }
        unreachable!()
    }

    /// The number of threads that sleep on this word, IN or OUT.
    pub(crate) fn sleepers(&self, word: usize) -> &AtomicU64 {
        if word == IN {
            &self.in_sleepers
        } else {
            &self.out_sleepers
        }
    }

    /// Looks a number of times whether the word has changed from `found`, and then sleeps until a
    /// wake. It registers as a sleeper before it sleeps, so that other threads wake it. The
    /// condition rules out a sleep on a value that the seat did not see last in this word.
    fn pause(&self, rt: &impl Wait, token: &Token<T>, word: usize, found: u64)
        requires saw { SawLast word found token.now.me }
    {
        for _ in 0..LOOKS {
            if self.table.shared.peek(word) != found {
                return;
            }
            hint::spin_loop();
        }
        for _ in 0..YIELDS {
            if self.table.shared.peek(word) != found {
                return;
            }
            thread::yield_now();
        }
        self.sleepers(word).fetch_add(1, SeqCst);
        self.table.shared.park(rt, word, (found & LOW_BITS) as u32);
        self.sleepers(word).fetch_sub(1, SeqCst);
    }
}
