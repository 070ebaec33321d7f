//! Items through a buffer of many producers and consumers.
ghost use Rattle.std.specs.Prelude.{◌≡◌};

use super::Ware;
use crate::parts::assert_is;
use std::alloc::Global;
use std::process::Abort;
use sysv_buffer::{ManyBuffer, ManyPutRefused, ManyTakeRefused, OpenRefused, Seat};

/// Opens a buffer with its first seat. Tolerates one refusal of memory.
pub(super) fn opened<T: Drop>(
    rt: &impl Abort,
    alloc: Global,
    cells: usize,
) -> (ManyBuffer<T>, Seat<T>)
    ensures { result.1.buffer ≡ result.0 }
{
    match ManyBuffer::open(alloc, cells) {
        Err(OpenRefused::NoMemory) => match ManyBuffer::open(alloc, cells) {
            Ok(made) => made,
            Err(why) => panic!(rt; "a second try: {why}"),
        },
        Ok(made) => made,
        Err(why) => panic!(rt; "{cells} cells: {why}"),
    }
}

/// Returns the number of the item that was handed back because the buffer was full.
fn came_back(put: Result<(), ManyPutRefused<Ware>>) -> Option<u64> {
    match put {
        Ok(()) => None,
        Err(ManyPutRefused::Full(item)) => Some(item.number),
        Err(ManyPutRefused::Busy(_)) => Some(u64::MAX),
        Err(ManyPutRefused::Worn(_)) => Some(u64::MAX - 1),
    }
}

/// Returns the number of the item that was taken, or why there was none.
fn number_of(taken: Result<Ware, ManyTakeRefused>) -> Result<u64, ManyTakeRefused> {
    match taken {
        Ok(item) => Ok(item.number),
        Err(why) => Err(why),
    }
}

#[test]
fn two_cells_of_many_hold_two_items(rt: HostRuntime) {
    let (buffer, mut seat) = opened(&rt, rt.alloc(), 2);
    assert_is(
        &rt,
        came_back(buffer.try_put(&mut seat, Ware { number: 1 })),
        None,
    );
    assert_is(
        &rt,
        came_back(buffer.try_put(&mut seat, Ware { number: 2 })),
        None,
    );
    assert_is(
        &rt,
        came_back(buffer.try_put(&mut seat, Ware { number: 3 })),
        Some(3),
    );
    assert_is(&rt, number_of(buffer.try_take(&mut seat)), Ok(1));
    assert_is(&rt, number_of(buffer.try_take(&mut seat)), Ok(2));
    assert_is(
        &rt,
        number_of(buffer.try_take(&mut seat)),
        Err(ManyTakeRefused::Empty),
    );
}

#[test]
fn seats_come_and_go(rt: HostRuntime) {
    let (buffer, mut one) = opened(&rt, rt.alloc(), 1);
    let mut two = buffer.split(&mut one);
    assert_is(
        &rt,
        came_back(buffer.try_put(&mut two, Ware { number: 7 })),
        None,
    );
    assert_is(
        &rt,
        came_back(buffer.try_put(&mut one, Ware { number: 8 })),
        Some(8),
    );
    assert_is(&rt, number_of(buffer.try_take(&mut one)), Ok(7));
    buffer.join(&mut one, two);
    assert_is(
        &rt,
        came_back(buffer.try_put(&mut one, Ware { number: 9 })),
        None,
    );
    assert_is(&rt, number_of(buffer.try_take(&mut one)), Ok(9));
}

#[test]
fn a_full_buffer_of_many_and_an_empty_one_go_on(rt: HostRuntime) {
    let (buffer, mut seat) = opened(&rt, rt.alloc(), 1);
    let first = came_back(buffer.try_put(&mut seat, Ware { number: 1 }));
    let full = came_back(buffer.try_put(&mut seat, Ware { number: 2 }));
    assert_is(&rt, (first, full), (None, Some(2)));
    assert_is(&rt, number_of(buffer.try_take(&mut seat)), Ok(1));
    let empty = number_of(buffer.try_take(&mut seat));
    assert_is(&rt, empty, Err(ManyTakeRefused::Empty));
    let third = came_back(buffer.try_put(&mut seat, Ware { number: 3 }));
    assert_is(&rt, third, None);
    assert_is(&rt, number_of(buffer.try_take(&mut seat)), Ok(3));
}

#[test]
fn puts_of_all_seats_are_counted(rt: HostRuntime) {
    let (buffer, mut one) = opened(&rt, rt.alloc(), 2);
    let mut two = buffer.split(&mut one);
    assert_is(&rt, buffer.put_count(&mut one), 0);
    let first = came_back(buffer.try_put(&mut one, Ware { number: 1 }));
    let second = came_back(buffer.try_put(&mut two, Ware { number: 2 }));
    assert_is(&rt, (first, second), (None, None));
    assert_is(&rt, number_of(buffer.try_take(&mut one)), Ok(1));
    assert_is(&rt, buffer.put_count(&mut one), 2);
    assert_is(&rt, buffer.put_count(&mut two), 2);
}

#[test]
fn sizes_of_many_out_of_range(rt: HostRuntime) {
    for cells in [0, 1025, usize::MAX] {
        match ManyBuffer::<Ware>::open(rt.alloc(), cells) {
            Err(OpenRefused::BadSize) => {}
            _ => panic!(rt; "{cells} cells"),
        }
    }
    for cells in [1, 1024] {
        let (buffer, mut seat) = opened(&rt, rt.alloc(), cells);
        assert_is(
            &rt,
            came_back(buffer.try_put(&mut seat, Ware { number: 7 })),
            None,
        );
    }
}
