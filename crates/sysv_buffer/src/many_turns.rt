//! The parts of a call of a `ManyBuffer`. Each makes some steps on the table.
ghost use Rattle.std.specs.Prelude.{◌≡◌, [], ◌∷◌, Some};
ghost use Rattle.sysv_buffer.specs.ManyTurns.{IsOf, IsSame, Waits, HasRoom, HasItem, FindsRoom, FindsItem, HasPut, HasTaken};

use crate::board::{IN, LIMIT, OUT};
use crate::many::ManyBuffer;
use crate::many_board::{PUT_TICKET, TAKE_TICKET, Token};
use crate::many_rule::{
    CountingPut, CountingTaken, DrawingPut, DrawingTake, Placing, ReachingItem, ReachingRoom,
    Removing,
};

/// The result of a try for an empty cell.
#[derive(Clone, Copy)]
pub(crate) enum Room {
    /// The seat holds this cell.
    Cell(usize),
    /// Every cell has an item. It holds the number of items taken.
    Full(u64),
    /// Another seat has the ticket for the next put. It holds the number of items put.
    Busy(u64),
    /// 2^62 items were put.
    Worn,
}

/// The result of a try for an item.
#[derive(Clone, Copy)]
pub(crate) enum Next {
    /// The seat holds this cell, which has the next item.
    Cell(usize),
    /// No item is in the buffer. It holds the number of items put.
    Empty(u64),
    /// Another seat has the ticket for the next take. It holds the number of items taken.
    Busy(u64),
    /// 2^62 items were taken.
    Worn,
}

impl<T> ManyBuffer<T> {
    /// If there is an empty cell, draws the ticket whose turn it is and takes the cell out of the
    /// table.
    pub(crate) fn find_room(&self, token: &mut Token<T>) -> Room
        requires table { IsOf self.now token.old }
        requires idle { Waits [] [] token.old.me }
        ensures same { IsSame token.old token.new }
        ensures found { FindsRoom self.now.room token.old.me result token.new.me }
    {
        let shared = &self.table.shared;
        let room = self.room as u64;
        let count = shared.load::<CountingPut>(token, IN);
        if count >= LIMIT {
            return Room::Worn;
        }
        let out = shared.load::<CountingTaken>(token, OUT);
        if out + room <= count {
            return Room::Full(out);
        }
        if shared.compare_exchange::<DrawingPut>(token, PUT_TICKET, count, count + 1) != count {
            return Room::Busy(count);
        }
        shared.load::<ReachingRoom>(token, OUT);
        Room::Cell((count % room) as usize)
    }

    /// If there is an item, draws the ticket whose turn it is and takes the item's cell out of the
    /// table.
    pub(crate) fn find_item(&self, token: &mut Token<T>) -> Next
        requires table { IsOf self.now token.old }
        requires idle { Waits [] [] token.old.me }
        ensures same { IsSame token.old token.new }
        ensures found { FindsItem self.now.room token.old.me result token.new.me }
    {
        let shared = &self.table.shared;
        let count = shared.load::<CountingTaken>(token, OUT);
        if count >= LIMIT {
            return Next::Worn;
        }
        let put = shared.load::<CountingPut>(token, IN);
        if put <= count {
            return Next::Empty(put);
        }
        if shared.compare_exchange::<DrawingTake>(token, TAKE_TICKET, count, count + 1) != count {
            return Next::Busy(count);
        }
        shared.load::<ReachingItem>(token, IN);
        Next::Cell((count % self.room as u64) as usize)
    }

    /// Puts the item into the cell that the seat holds, and returns the cell to the table.
    pub(crate) fn place(&self, token: &mut Token<T>, cell: usize, item: T)
        requires table { IsOf self.now token.old }
        requires room { HasRoom self.now.room cell token.old.me }
        ensures same { IsSame token.old token.new }
        ensures put { HasPut item token.old.me.0 token.new.me }
    {
        let shared = &self.table.shared;
        let left = shared.exchange(token, cell, Some(item));
        let None = left else { unreachable!() };
        shared.fetch_add::<Placing>(token, IN, 1);
    }

    /// Takes the item from the cell that the seat holds, and returns the cell to the table.
    pub(crate) fn remove(&self, token: &mut Token<T>, cell: usize) -> T
        requires table { IsOf self.now token.old }
        requires item { HasItem self.now.room cell token.old.me }
        ensures same { IsSame token.old token.new }
        ensures was { token.old.me.1 ≡ (cell, Some result) ∷ [] }
        ensures taken { HasTaken result token.old.me.0 token.new.me }
    {
        let shared = &self.table.shared;
        let Some(item) = shared.exchange(token, cell, None) else {
            unreachable!()
        };
        shared.fetch_add::<Removing>(token, OUT, 1);
        item
    }
}
