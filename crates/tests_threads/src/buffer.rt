//! Items through a buffer, by one thread and by two.
ghost use Rattle.std.specs.Prelude.{◌≡◌};

use crate::parts::assert_is;
use std::alloc::Global;
use std::process::Abort;
use std::sync::Wait;
use sysv_buffer::{Consumer, OneBuffer, OpenRefused, Producer, PutRefused, TakeRefused, TakeWorn};

mod drops;
mod many;
mod many_threads;
mod threads;
mod wakes;

/// An item that cannot be copied.
#[derive(Drop)]
struct Ware {
    number: u64,
}

/// Opens a buffer with its ends. Tolerates one refusal of memory.
fn opened<T: Drop>(
    rt: &impl Abort,
    alloc: Global,
    cells: usize,
) -> (OneBuffer<T>, Producer<T>, Consumer<T>)
    ensures { (result.1.buffer ≡ result.0) × (result.2.buffer ≡ result.0) }
{
    match OneBuffer::open(alloc, cells) {
        Err(OpenRefused::NoMemory) => match OneBuffer::open(alloc, cells) {
            Ok(made) => made,
            Err(why) => panic!(rt; "a second try: {why}"),
        },
        Ok(made) => made,
        Err(why) => panic!(rt; "{cells} cells: {why}"),
    }
}

/// Returns the number of the item that was handed back because the buffer was full.
fn came_back(put: Result<(), PutRefused<Ware>>) -> Option<u64> {
    match put {
        Ok(()) => None,
        Err(PutRefused::Full(item)) => Some(item.number),
        Err(PutRefused::Worn(_)) => Some(u64::MAX),
    }
}

/// Returns the number of the item that was taken, or why there was none.
fn number_of(taken: Result<Ware, TakeRefused>) -> Result<u64, TakeRefused> {
    match taken {
        Ok(item) => Ok(item.number),
        Err(why) => Err(why),
    }
}

#[test]
fn two_cells_hold_two_items(rt: HostRuntime) {
    let (buffer, mut puts, mut takes) = opened(&rt, rt.alloc(), 2);
    assert_is(
        &rt,
        came_back(buffer.try_put(&mut puts, Ware { number: 1 })),
        None,
    );
    assert_is(
        &rt,
        came_back(buffer.try_put(&mut puts, Ware { number: 2 })),
        None,
    );
    assert_is(
        &rt,
        came_back(buffer.try_put(&mut puts, Ware { number: 3 })),
        Some(3),
    );
    assert_is(&rt, number_of(buffer.try_take(&mut takes)), Ok(1));
    assert_is(&rt, number_of(buffer.try_take(&mut takes)), Ok(2));
    assert_is(
        &rt,
        number_of(buffer.try_take(&mut takes)),
        Err(TakeRefused::Empty),
    );
}

#[test]
fn a_full_buffer_and_an_empty_one_go_on(rt: HostRuntime) {
    let (buffer, mut puts, mut takes) = opened(&rt, rt.alloc(), 1);
    let first = came_back(buffer.try_put(&mut puts, Ware { number: 1 }));
    let full = came_back(buffer.try_put(&mut puts, Ware { number: 2 }));
    assert_is(&rt, (first, full), (None, Some(2)));
    assert_is(&rt, number_of(buffer.try_take(&mut takes)), Ok(1));
    let empty = number_of(buffer.try_take(&mut takes));
    assert_is(&rt, empty, Err(TakeRefused::Empty));
    let third = came_back(buffer.try_put(&mut puts, Ware { number: 3 }));
    assert_is(&rt, third, None);
    assert_is(&rt, number_of(buffer.try_take(&mut takes)), Ok(3));
}

/// Puts an item and takes one, and asserts that it is the same item.
fn put_and_take<R: Abort + Wait>(
    rt: &R,
    buffer: &OneBuffer<Ware>,
    puts: &mut Producer<Ware>,
    takes: &mut Consumer<Ware>,
    number: u64,
)
    requires puts { puts.old.buffer ≡ buffer.now }
    requires takes { takes.old.buffer ≡ buffer.now }
    ensures puts { puts.new.buffer ≡ buffer.now }
    ensures takes { takes.new.buffer ≡ buffer.now }
{
    assert!(rt; buffer.put(rt, puts, Ware { number }).is_ok());
    match buffer.take(rt, takes) {
        Ok(item) => assert_eq!(rt; item.number, number),
        Err(TakeWorn) => panic!(rt; "worn at {number}"),
    }
}

#[test]
fn waits_that_need_not_wait(rt: HostRuntime) {
    let (buffer, mut puts, mut takes) = opened(&rt, rt.alloc(), 1);
    put_and_take(&rt, &buffer, &mut puts, &mut takes, 1);
    put_and_take(&rt, &buffer, &mut puts, &mut takes, 2);
    put_and_take(&rt, &buffer, &mut puts, &mut takes, 3);
}

#[test]
fn sizes_out_of_range(rt: HostRuntime) {
    for cells in [0, 1025, usize::MAX] {
        match OneBuffer::<Ware>::open(rt.alloc(), cells) {
            Err(OpenRefused::BadSize) => {}
            _ => panic!(rt; "{cells} cells"),
        }
    }
    for cells in [1, 1024] {
        let (buffer, mut puts, _takes) = opened(&rt, rt.alloc(), cells);
        assert_is(
            &rt,
            came_back(buffer.try_put(&mut puts, Ware { number: 7 })),
            None,
        );
    }
}
