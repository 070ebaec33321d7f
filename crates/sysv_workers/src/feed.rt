//! The side of the buffer that the source feeds.
ghost use Rattle.std.specs.Prelude.{◌≡◌, ◌^◌, ◌≤◌, true, false, List, length, Some, IfSome, IfNone};
ghost use Rattle.std.specs.List.{FoldsTo};
ghost use Rattle.sysv_buffer.specs.ManyEnds.{Puts};
ghost use Rattle.sysv_workers.specs.Feeding.{counted, HasFed};
ghost use Rattle.sysv_workers.specs.Sources.{GivesAll};

use crate::source::Source;
use std::sync::Wait;
use sysv_buffer::{ManyBuffer, PutWorn, Seat};

/// The number of items and end marks that wear out a buffer.
pub(crate) const WEAR: u64 = 1 << 62;

/// What the buffer holds between the source and the workers.
#[derive(Drop)]
pub(crate) enum Feed<T> {
    Item(T),
    /// An end mark. The worker that takes it ends.
    End,
}

/// Puts the items of the source until it has no more, and returns their number. Returns `None` only
/// if the source has returned at least 2^62 items, which wear out the buffer.
pub(crate) fn put_all<T: Drop, S: Source<T>, R: Wait>(
    rt: &R,
    buffer: &ManyBuffer<Feed<T>>,
    seat: &mut Seat<Feed<T>>,
    source: &mut S,
) -> Option<u64>
    requires { seat.old.buffer ≡ buffer.now }
    ensures buffer { seat.new.buffer ≡ buffer.now }
    ensures takes { seat.new.takes ≡ seat.old.takes }
    ensures gave { IfSome result (λ n. (given : List T)
        × GivesAll S.gives source.old given source.new × HasFed given 0 seat.new
        × (n ≡ counted (length given))) }
    ensures worn { IfNone result (2 ^ 62 ≤ length seat.new.seen) }
    ensures returned { IfNone result ((given : List T)
        × FoldsTo (λ s x s'. S.gives s (Some x) s') source.old given source.new
        × (2 ^ 62 ≤ length given)) }
{
    let mut items = 0_u64;
    for _ in rt.forever() {
        let Some(item) = source.next() else {
            return Some(items);
        };
        if !put_item(rt, buffer, seat, item, items) {
            return None;
        }
        items = items.saturating_add(1);
    }
    unreachable!()
}

/// Puts one more item, after this number of items. Returns `false` only if the buffer is worn out
/// and at least 2^62 items were put before. No buffer is worn out by fewer, so a put that is
/// refused before then is tried again.
fn put_item<T: Drop, R: Wait>(
    rt: &R,
    buffer: &ManyBuffer<Feed<T>>,
    seat: &mut Seat<Feed<T>>,
    item: T,
    before: u64,
) -> bool
    requires { seat.old.buffer ≡ buffer.now }
    ensures buffer { seat.new.buffer ≡ buffer.now }
    ensures takes { seat.new.takes ≡ seat.old.takes }
    ensures put { result ≡ true → Puts (Feed.Item item) seat.old seat.new }
    ensures worn { result ≡ false → (2 ^ 62 ≤ before) × (2 ^ 62 ≤ length seat.new.seen) }
{
    let mut feed = Feed::Item(item);
    for _ in rt.forever() {
        match buffer.put(rt, seat, feed) {
            Ok(()) => return true,
            Err(_) if before >= WEAR => return false,
            Err(PutWorn { item }) => feed = item,
        }
    }
    unreachable!()
}

/// Puts `count` end marks. Returns `false` only if the buffer is worn out.
pub(crate) fn put_marks<T: Drop, R: Wait>(
    rt: &R,
    buffer: &ManyBuffer<Feed<T>>,
    seat: &mut Seat<Feed<T>>,
    count: usize,
) -> bool
    requires { seat.old.buffer ≡ buffer.now }
    ensures buffer { seat.new.buffer ≡ buffer.now }
    ensures takes { seat.new.takes ≡ seat.old.takes }
    ensures marks { result ≡ true → (given : List T) → HasFed given 0 seat.old →
        HasFed given count seat.new }
    ensures longer { length seat.old.seen ≤ length seat.new.seen }
    ensures worn { result ≡ false → 2 ^ 62 ≤ length seat.new.seen }
{
    for _ in 0..count {
        if buffer.put(rt, seat, Feed::End).is_err() {
            return false;
        }
    }
    true
}
