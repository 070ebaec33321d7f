//! Buffers for one producer and one consumer.
ghost use Rattle.std.specs.Prelude.{◌≡◌, ◌^◌, ◌<◌, ◌≤◌, ◌⊎◌, ◌↔◌, [], ◌∷◌, ◌++◌, length, IfOk, IfErr, OnOk, OnErr, IsErrOf};
ghost use Rattle.sysv_buffer.specs.Refusals.{HandsBack, FindsNone};
ghost use Rattle.sysv_buffer.specs.declared.buffer.TheConstants.{MAX_CELLS};

use crate::board::{Board, IN, OUT, lay};
use crate::ends::{Consumer, Producer};
use crate::refusals::{OpenRefused, PutRefused, PutWorn, TakeRefused, TakeWorn};
use crate::rule::Parting;
use crate::turns::{Found, Reach};
use std::alloc::Global;
use std::marker::Model;
use std::sync::Wait;
use std::sync::atomic::AtomicU64;

/// The largest number of cells of a buffer. The smallest is one.
pub(crate) const MAX_CELLS: usize = 1024;

/// A row of cells through which one thread hands items to another, in order, each once. The two
/// ends share it by reference.
#[derive(Drop)]
pub struct OneBuffer<T> {
    pub(crate) table: Board<T>,
    pub(crate) room: usize,
    pub(crate) sleepers: AtomicU64,
}

impl<T> Model for OneBuffer<T> {
    ghost use Rattle.std.specs.Prelude.{◌≡◌, ◌<◌};
    ghost use Rattle.sysv_buffer.specs.Ends.{Buffered};

    ghost Value = { Buffered };

    ghost view = { λ b. record { table = b.table.shared.table_id; room = b.room } };

    ghost invariant = { λ b. (b.table.shared.table_id.words ≡ 32)
        × (b.table.shared.table_id.slots ≡ b.room) × (0 < b.room) };
}

impl<T: Drop> OneBuffer<T> {
    /// Opens a buffer of `cells` empty cells, 1 to 1,024. Returns it with its two ends.
    ///
    /// # Errors
    ///
    /// - `BadSize` if and only if `cells` is not 1 to 1,024.
    /// - `NoMemory` if memory is refused.
    pub fn open(
        alloc: Global,
        cells: usize,
    ) -> Result<(OneBuffer<T>, Producer<T>, Consumer<T>), OpenRefused>
        ensures ok { IfOk result (λ o. (o.0.room ≡ cells)
            × (o.1 ≡ record { buffer = o.0; put = []; gone = 0 })
            × (o.2 ≡ record { buffer = o.0; taken = []; seen = [] })) }
        ensures bad_size { IsErrOf result OpenRefused.BadSize
            ↔ ((cells < 1) ⊎ (MAX_CELLS < cells)) }
    {
        if cells < 1 || cells > MAX_CELLS {
            return Err(OpenRefused::BadSize);
        }
        let Some((table, mut token)) = lay(alloc, cells) else {
            return Err(OpenRefused::NoMemory);
        };
        let other = table.shared.split_seat::<Parting>(&mut token);
        let buffer = OneBuffer {
            table,
            room: cells,
            sleepers: AtomicU64::new(0),
        };
        Ok((buffer, Producer { token }, Consumer { token: other }))
    }

    /// Puts `item` into the next cell if that cell is empty. It never waits. It wakes the consumer
    /// if the consumer sleeps.
    ///
    /// # Errors
    ///
    /// Nothing is put, and the error holds the item.
    ///
    /// - `Full` only if every cell had an item when the counts were loaded.
    /// - `Worn` only if 2^62 items were put.
    ///
    /// # Conditions
    ///
    /// - `end` is the producer's end of this buffer.
    pub fn try_put(&self, end: &mut Producer<T>, item: T) -> Result<(), PutRefused<T>>
        requires { end.old.buffer ≡ self.now }
        ensures buffer { end.new.buffer ≡ self.now }
        ensures ok { OnOk result (end.new.put ≡ end.old.put ++ item ∷ []) }
        ensures err { IfErr result (λ e. HandsBack item end.new e × (end.new.put ≡ end.old.put)) }
    {
        match self.reach(&mut end.token) {
            Reach::Room(cell) => {
                self.fill(&mut end.token, cell, item);
                self.wake(IN);
                Ok(())
            }
            Reach::Full(_) => Err(PutRefused::Full(item)),
            Reach::WornOut => Err(PutRefused::Worn(item)),
        }
    }

    /// Waits until a cell is empty, and puts `item` into it.
    ///
    /// # Errors
    ///
    /// - `PutWorn` only if 2^62 items were put. Nothing is put, and the error holds the item.
    ///
    /// # Conditions
    ///
    /// - `end` is the producer's end of this buffer.
    pub fn put(&self, rt: &impl Wait, end: &mut Producer<T>, item: T) -> Result<(), PutWorn<T>>
        requires { end.old.buffer ≡ self.now }
        ensures buffer { end.new.buffer ≡ self.now }
        ensures ok { OnOk result (end.new.put ≡ end.old.put ++ item ∷ []) }
        ensures worn { IfErr result (λ e. (e.item ≡ item) × (2 ^ 62 ≤ length end.old.put)
            × (end.new.put ≡ end.old.put)) }
    {
        let Some(cell) = self.await_room(rt, &mut end.token) else {
            return Err(PutWorn { item });
        };
        self.fill(&mut end.token, cell, item);
        self.wake(IN);
        Ok(())
    }

    /// Takes the oldest item in the buffer. It never waits. It wakes the producer if the producer
    /// sleeps.
    ///
    /// # Errors
    ///
    /// Nothing is taken.
    ///
    /// - `Empty` only if no item was in the buffer when the counts were loaded.
    /// - `Worn` only if 2^62 items were taken.
    ///
    /// # Conditions
    ///
    /// - `end` is the consumer's end of this buffer.
    pub fn try_take(&self, end: &mut Consumer<T>) -> Result<T, TakeRefused>
        requires { end.old.buffer ≡ self.now }
        ensures buffer { end.new.buffer ≡ self.now }
        ensures ok { IfOk result (λ item. end.new.taken ≡ end.old.taken ++ item ∷ []) }
        ensures err { IfErr result (λ e. FindsNone end.new e × (end.new.taken ≡ end.old.taken)) }
    {
        match self.look(&mut end.token) {
            Found::Item(cell) => {
                let item = self.empty(&mut end.token, cell);
                self.wake(OUT);
                Ok(item)
            }
            Found::Empty(_) => Err(TakeRefused::Empty),
            Found::Spent => Err(TakeRefused::Worn),
        }
    }

    /// Waits until an item is in the buffer, and takes the oldest one.
    ///
    /// # Errors
    ///
    /// - `TakeWorn` only if 2^62 items were taken. Nothing is taken.
    ///
    /// # Conditions
    ///
    /// - `end` is the consumer's end of this buffer.
    pub fn take(&self, rt: &impl Wait, end: &mut Consumer<T>) -> Result<T, TakeWorn>
        requires { end.old.buffer ≡ self.now }
        ensures buffer { end.new.buffer ≡ self.now }
        ensures ok { IfOk result (λ item. end.new.taken ≡ end.old.taken ++ item ∷ []) }
        ensures worn { OnErr result ((2 ^ 62 ≤ length end.old.taken)
            × (end.new.taken ≡ end.old.taken)) }
    {
        let Some(cell) = self.await_item(rt, &mut end.token) else {
            return Err(TakeWorn);
        };
        let item = self.empty(&mut end.token, cell);
        self.wake(OUT);
        Ok(item)
    }
}
