//! The errors of this crate.
use thiserror::Error;

/// The reasons why a buffer was not opened.
#[derive(Clone, Copy, PartialEq, Eq, Debug, Error)]
pub enum OpenRefused {
    /// Memory was refused.
    #[error("no memory")]
    NoMemory,
    /// The number of cells is not 1 to 1,024.
    #[error("a size out of range")]
    BadSize,
}

/// The reasons why `OneBuffer::try_put` did not put the item. The error holds the item.
#[derive(Drop)]
pub enum PutRefused<T> {
    /// Every cell has an item.
    Full(T),
    /// 2^62 items were put.
    Worn(T),
}

/// 2^62 items were put. The error holds the item that was not put.
#[derive(Drop)]
pub struct PutWorn<T> {
    /// The item that was not put.
    pub item: T,
}

/// The reasons why `OneBuffer::try_take` took no item.
#[derive(Clone, Copy, PartialEq, Eq, Debug, Error)]
pub enum TakeRefused {
    /// No item is in the buffer.
    #[error("no item waits")]
    Empty,
    /// 2^62 items were taken.
    #[error("the buffer is worn out")]
    Worn,
}

/// 2^62 items were taken.
#[derive(Clone, Copy, PartialEq, Eq, Debug, Error)]
#[error("the buffer is worn out")]
pub struct TakeWorn;

/// The reasons why `ManyBuffer::try_put` did not put the item. The error holds the item.
#[derive(Drop)]
pub enum ManyPutRefused<T> {
    /// Every cell has an item.
    Full(T),
    /// Another seat has the turn.
    Busy(T),
    /// 2^62 items were put.
    Worn(T),
}

/// The reasons why `ManyBuffer::try_take` took no item.
#[derive(Clone, Copy, PartialEq, Eq, Debug, Error)]
pub enum ManyTakeRefused {
    /// No item is in the buffer.
    #[error("no item waits")]
    Empty,
    /// Another seat has the turn.
    #[error("another has the turn")]
    Busy,
    /// 2^62 items were taken.
    #[error("the buffer is worn out")]
    Worn,
}
