//! What parked calls wait for.
ghost use Rattle.std.specs.Prelude.{◌≡◌, ◌==◌, Some, IsTrue, ◌↔◌, true};
ghost use Rattle.sysv_parking.specs.Keys.{bounded_sum, hash_of, line_any, line_except, line_exact, line_of, line_room, line_up_to, slot_in, word_of};

use sysv_keys::{SLOTS, slot_of_id};
use sysv_model::Selector;

/// The word of the sends that wait for blocks. Before it are the words of the receives at each
/// slot, and then those of the sends that wait for room at each slot.
pub const BLOCKS_WORD: usize = 2 * SLOTS;

/// The word of the gets that wait for a key to be settled.
pub const SETTLED_WORD: usize = BLOCKS_WORD + 1;

/// The number of words. Each is for the calls that wait for one count.
pub const WORDS: usize = SETTLED_WORD + 1;

/// The number of bits of the hash of a slot and an exact type.
const HASH_BITS: u32 = 12;

/// The number of lines of receives of an exact type. The types of all slots share them by hash.
const EXACT_LINES: usize = 1 << HASH_BITS;

/// 2^64 divided by the golden ratio, an odd number: products with it differ in their high bits.
const SPREAD: u64 = 0x9E37_79B9_7F4A_7C15;

/// 2^64 divided by the square of that, an odd number: slots differ in the high bits too.
const SLOT_SPREAD: u64 = 0x61C8_8646_80B5_83EB;

/// The line of the sends that wait for blocks. Before it are the lines of each slot's receives of
/// any type, of types up to a bound and of all types but one, of the sends that wait for room at
/// each slot, and of receives of an exact type.
pub(crate) const BLOCKS_LINE: usize = 4 * SLOTS + EXACT_LINES;

/// The line of the gets that wait for a key to be settled.
pub(crate) const SETTLED_LINE: usize = BLOCKS_LINE + 1;

/// The number of lines.
pub(crate) const LINES: usize = SETTLED_LINE + 1;

/// Whose call waits at which queue. The permissions of a queue are the same for all calls of a
/// caller that read, and for all that write.
#[derive(Clone, Copy, PartialEq, Eq, Debug)]
pub struct Caller {
    /// The identifier of the queue.
    pub id: i32,
    /// The caller's user.
    pub uid: u32,
    /// The caller's group.
    pub gid: u32,
}

/// What a parked call waits for.
#[derive(Clone, Copy, PartialEq, Eq, Debug)]
pub enum Key {
    /// A message that the selector names.
    Message {
        /// Whose receive it is.
        caller: Caller,
        /// The messages that it requests.
        selector: Selector,
    },
    /// Room on the queue.
    Room {
        /// Whose send it is.
        caller: Caller,
        /// The length of its frame.
        length: usize,
    },
    /// Blocks.
    Blocks {
        /// Whose send it is.
        caller: Caller,
        /// The length of its frame.
        length: usize,
    },
    /// A key of a queue that is being settled.
    Settled,
}

impl Key {
    /// Returns the word of the calls that wait for the same count.
    pub fn word(self) -> usize
        ensures { result ≡ word_of self }
    {
        match self {
            Key::Message { caller, .. } => slot_of_id(caller.id),
            Key::Room { caller, .. } => room_word(slot_of_id(caller.id)),
            Key::Blocks { .. } => BLOCKS_WORD,
            Key::Settled => SETTLED_WORD,
        }
    }

    /// Returns whether the call is one at the queue of this slot.
    pub fn is_at(self, slot: usize) -> bool
        ensures { IsTrue result ↔ (slot_in self ≡ Some slot) }
    {
        match self {
            Key::Message { caller, .. } | Key::Room { caller, .. } | Key::Blocks { caller, .. } =>
                slot_of_id(caller.id) == slot,
            Key::Settled => false,
        }
    }

    /// Returns whether both calls wait for the same.
    pub fn is_same(self, other: Key) -> bool
        ensures { result ≡ true → self ≡ other }
    {
        match (self, other) {
            (
                Key::Message { caller, selector },
                Key::Message {
                    caller: one,
                    selector: requested,
                },
            ) => caller == one && selector == requested,
            (
                Key::Room { caller, length },
                Key::Room {
                    caller: one,
                    length: size,
                },
            ) => { caller == one && length == size }
            (
                Key::Blocks { caller, length },
                Key::Blocks {
                    caller: one,
                    length: size,
                },
            ) => { caller == one && length == size }
            (Key::Settled, Key::Settled) => true,
            _ => false,
        }
    }

    /// Returns the line of the calls that wait for the same.
    pub(crate) fn line(self) -> usize
        ensures { result ≡ line_of self }
    {
        match self {
            Key::Message { caller, selector } => {
                let slot = slot_of_id(caller.id);
                match selector {
                    Selector::Any => any_line(slot),
                    Selector::UpTo(_) => up_to_line(slot),
                    Selector::Except(_) => except_line(slot),
                    Selector::Exactly(mtype) => exact_line(slot, mtype),
                }
            }
            Key::Room { caller, .. } => room_line(slot_of_id(caller.id)),
            Key::Blocks { .. } => BLOCKS_LINE,
            Key::Settled => SETTLED_LINE,
        }
    }
}

/// Returns the word of the sends that wait for room at a slot.
pub fn room_word(slot: usize) -> usize
    ensures { result ≡ bounded_sum SLOTS slot }
{
    SLOTS.saturating_add(slot)
}

/// Returns the line of the receives of any type at a slot.
pub(crate) fn any_line(slot: usize) -> usize
    ensures { result ≡ line_any slot }
{
    slot
}

/// Returns the line of the receives of types up to a bound at a slot.
pub(crate) fn up_to_line(slot: usize) -> usize
    ensures { result ≡ line_up_to slot }
{
    SLOTS.saturating_add(slot)
}

/// Returns the line of the receives of all types but one at a slot.
pub(crate) fn except_line(slot: usize) -> usize
    ensures { result ≡ line_except slot }
{
    (2 * SLOTS).saturating_add(slot)
}

/// Returns the line of the sends that wait for room at a slot.
pub(crate) fn room_line(slot: usize) -> usize
    ensures { result ≡ line_room slot }
{
    (3 * SLOTS).saturating_add(slot)
}

/// Returns the line of the receives of an exact type at a slot.
pub(crate) fn exact_line(slot: usize, mtype: i64) -> usize
    ensures { result ≡ line_exact slot mtype }
{
    (4 * SLOTS).saturating_add(hash(slot, mtype))
}

/// Returns the hash of a slot and an exact type, below `EXACT_LINES`.
fn hash(slot: usize, mtype: i64) -> usize
    ensures { result ≡ hash_of slot mtype }
{
    let at_slot = (slot as u64).wrapping_mul(SLOT_SPREAD);
    let mixed = mtype.unsigned_abs().wrapping_add(at_slot);
    (mixed.wrapping_mul(SPREAD) >> (u64::BITS - HASH_BITS)) as usize
}
