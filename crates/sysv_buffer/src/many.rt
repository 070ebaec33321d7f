//! Buffers for many producers and consumers.
ghost use Rattle.std.specs.Prelude.{◌≡◌, ◌<◌, ◌≤◌, ◌⊎◌, ◌↔◌, length, IfOk, IfErr, OnOk, IsErrOf};
ghost use Rattle.sysv_buffer.specs.ManyEnds.{opened, split_off, Joins, HasItsOwn, Looks, Puts, Takes, GivesBack, Misses};
ghost use Rattle.sysv_buffer.specs.declared.buffer.TheConstants.{MAX_CELLS};

use crate::board::{IN, OUT};
use crate::buffer::MAX_CELLS;
use crate::many_board::{Board, lay};
use crate::many_rule::{CountingPut, Gathering, Sharing};
use crate::many_turns::{Next, Room};
use crate::refusals::{ManyPutRefused, ManyTakeRefused, OpenRefused};
use crate::seat::Seat;
use std::alloc::Global;
use std::marker::Model;
use std::sync::atomic::AtomicU64;
use std::sync::atomic::Ordering::SeqCst;

/// A row of cells through which threads hand items to each other, in one order, each once. Threads
/// share it by reference, and each thread uses a seat of its own.
#[derive(Drop)]
pub struct ManyBuffer<T> {
    pub(crate) table: Board<T>,
    pub(crate) room: usize,
    pub(crate) in_sleepers: AtomicU64,
    pub(crate) out_sleepers: AtomicU64,
}

impl<T> Model for ManyBuffer<T> {
    ghost use Rattle.std.specs.Prelude.{◌≡◌, ◌<◌, ◌≤◌};
    ghost use Rattle.sysv_buffer.specs.Ends.{Buffered};
    ghost use Rattle.sysv_buffer.specs.declared.buffer.TheConstants.{MAX_CELLS};

    ghost Value = { Buffered };

    ghost view = { λ b. record { table = b.table.shared.table_id; room = b.room } };

    ghost invariant = { λ b. (b.table.shared.table_id.words ≡ 64)
        × (b.table.shared.table_id.slots ≡ b.room) × (0 < b.room) × (b.room ≤ MAX_CELLS) };
}

impl<T: Drop> ManyBuffer<T> {
    /// Opens a buffer of `cells` empty cells, 1 to 1,024. Returns it with its first seat.
    ///
    /// # Errors
    ///
    /// - `BadSize` if and only if `cells` is not 1 to 1,024.
    /// - `NoMemory` if memory is refused.
    pub fn open(alloc: Global, cells: usize) -> Result<(ManyBuffer<T>, Seat<T>), OpenRefused>
        ensures ok { IfOk result (λ o. (o.0.room ≡ cells) × (o.1 ≡ opened o.0)) }
        ensures bad_size { IsErrOf result OpenRefused.BadSize
            ↔ ((cells < 1) ⊎ (MAX_CELLS < cells)) }
    {
        if cells < 1 || cells > MAX_CELLS {
            return Err(OpenRefused::BadSize);
        }
        let Some((table, token)) = lay(alloc, cells) else {
            return Err(OpenRefused::NoMemory);
        };
        let buffer = ManyBuffer {
            table,
            room: cells,
            in_sleepers: AtomicU64::new(0),
            out_sleepers: AtomicU64::new(0),
        };
        Ok((buffer, Seat { token }))
    }

    /// Returns a new seat of this buffer. The new seat has seen what `seat` has seen, and has put
    /// and taken nothing.
    ///
    /// # Conditions
    ///
    /// - `seat` is a seat of this buffer.
    pub fn split(&self, seat: &mut Seat<T>) -> Seat<T>
        requires { seat.old.buffer ≡ self.now }
        ensures same { seat.new ≡ seat.old }
        ensures new { result ≡ split_off seat.old }
    {
        let token = self.table.shared.split_seat::<Sharing>(&mut seat.token);
        Seat { token }
    }

    /// Merges `other` into `seat`. Afterwards `seat` has seen at least the items that either seat
    /// had seen, and has the places that both put into and took from.
    ///
    /// # Conditions
    ///
    /// - `seat` and `other` are seats of this buffer.
    pub fn join(&self, seat: &mut Seat<T>, other: Seat<T>)
        requires seat { seat.old.buffer ≡ self.now }
        requires other { other.buffer ≡ self.now }
        ensures buffer { seat.new.buffer ≡ self.now }
        ensures joined { Joins seat.old other seat.new }
    {
        let token = other.into_token();
        let shared = &self.table.shared;
        shared.join_seat::<Gathering>(&mut seat.token, token);
        shared.load::<CountingPut>(&mut seat.token, IN);
    }

    /// Returns the number of items that were put so far. Afterwards the seat has seen all of them.
    ///
    /// # Conditions
    ///
    /// - `seat` is a seat of this buffer.
    pub fn put_count(&self, seat: &mut Seat<T>) -> u64
        requires { seat.old.buffer ≡ self.now }
        ensures buffer { seat.new.buffer ≡ self.now }
        ensures count { result ≡ length seat.new.seen }
        ensures seen { Looks seat.old seat.new }
        ensures own { HasItsOwn seat.new }
    {
        self.table.shared.load::<CountingPut>(&mut seat.token, IN)
    }

    /// Puts `item` into the next cell if that cell is empty and no other seat has the turn. It
    /// never waits. It wakes the threads that sleep until an item arrives or a put is over.
    ///
    /// # Errors
    ///
    /// Nothing is put, and the error holds the item.
    ///
    /// - `Full` only if every cell had an item when the counts were loaded.
    /// - `Busy` if another seat has the turn, and only if a cell was empty when the counts were
    ///   loaded.
    /// - `Worn` only if 2^62 items were put.
    ///
    /// # Conditions
    ///
    /// - `seat` is a seat of this buffer.
    pub fn try_put(&self, seat: &mut Seat<T>, item: T) -> Result<(), ManyPutRefused<T>>
        requires { seat.old.buffer ≡ self.now }
        ensures buffer { seat.new.buffer ≡ self.now }
        ensures ok { OnOk result (Puts item seat.old seat.new) }
        ensures err { IfErr result (λ e. GivesBack item seat.new e × Looks seat.old seat.new) }
    {
        match self.find_room(&mut seat.token) {
            Room::Cell(cell) => {
                self.place(&mut seat.token, cell, item);
                self.wake(IN);
                Ok(())
            }
            Room::Full(_) => Err(ManyPutRefused::Full(item)),
            Room::Busy(_) => Err(ManyPutRefused::Busy(item)),
            Room::Worn => Err(ManyPutRefused::Worn(item)),
        }
    }

    /// Takes the oldest item in the buffer if no other seat has the turn. A seat takes from later
    /// and later places. It never waits. It wakes the threads that sleep until a cell is empty or a
    /// take is over.
    ///
    /// # Errors
    ///
    /// Nothing is taken.
    ///
    /// - `Empty` only if no item was in the buffer when the counts were loaded.
    /// - `Busy` if another seat has the turn, and only if an item was in the buffer when the counts
    ///   were loaded.
    /// - `Worn` only if 2^62 items were taken.
    ///
    /// # Conditions
    ///
    /// - `seat` is a seat of this buffer.
    pub fn try_take(&self, seat: &mut Seat<T>) -> Result<T, ManyTakeRefused>
        requires { seat.old.buffer ≡ self.now }
        ensures buffer { seat.new.buffer ≡ self.now }
        ensures ok { IfOk result (λ item. Takes item seat.old seat.new) }
        ensures err { IfErr result (λ e. Misses seat.new e × Looks seat.old seat.new) }
    {
        match self.find_item(&mut seat.token) {
            Next::Cell(cell) => {
                let item = self.remove(&mut seat.token, cell);
                self.wake(OUT);
                Ok(item)
            }
            Next::Empty(_) => Err(ManyTakeRefused::Empty),
            Next::Busy(_) => Err(ManyTakeRefused::Busy),
            Next::Worn => Err(ManyTakeRefused::Worn),
        }
    }

    /// Wakes the threads that sleep on this word.
    pub(crate) fn wake(&self, word: usize)
        requires { word ≤ 16 }
    {
        if self.sleepers(word).load(SeqCst) > 0 {
            self.table.shared.wake_all(word);
        }
    }
}
