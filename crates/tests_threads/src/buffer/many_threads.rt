//! Two threads put items, and two take them.
ghost use Rattle.std.specs.Prelude.{◌≡◌, ◌≤◌};

use super::Ware;
use super::many::opened;
use std::sync::Wait;
use std::thread::{Threads, join};
use sysv_buffer::{ManyBuffer, Seat};

/// The number of items that each producer puts and each consumer takes.
const ITEMS: u64 = 100;

/// How often each number was taken.
type Marks = [u64; 200];

/// Puts `ITEMS` numbers, from `first` on. Returns false if one was refused.
fn put_some(rt: &impl Wait, buffer: &ManyBuffer<Ware>, mut seat: Seat<Ware>, first: u64) -> bool
    requires seat { seat.buffer ≡ buffer.now }
    requires low { first ≤ 100 }
{
    for number in 0..ITEMS {
        let ware = Ware {
            number: first + number,
        };
        if buffer.put(rt, &mut seat, ware).is_err() {
            return false;
        }
    }
    true
}

/// Takes `ITEMS` numbers, and marks them.
fn take_some(rt: &impl Wait, buffer: &ManyBuffer<Ware>, mut seat: Seat<Ware>) -> Marks
    requires { seat.buffer ≡ buffer.now }
{
    let mut marks = [0_u64; 200];
    for _ in 0..ITEMS {
        let Ok(item) = buffer.take(rt, &mut seat) else {
            return marks;
        };
        if let Some(mark) = marks.get_mut(item.number as usize) {
            *mark = mark.saturating_add(1);
        }
    }
    marks
}

/// Runs two producers at once.
fn put_by_two<R: Threads + Wait + Sync>(
    rt: &R,
    buffer: &ManyBuffer<Ware>,
    one: Seat<Ware>,
    two: Seat<Ware>,
) -> bool
    requires one { one.buffer ≡ buffer.now }
    requires two { two.buffer ≡ buffer.now }
{
    let (first, second) = join(
        rt,
        || -> bool
            requires { one.buffer ≡ buffer.now }
        { put_some(rt, buffer, one, 0) },
        || -> bool
            requires { two.buffer ≡ buffer.now }
        { put_some(rt, buffer, two, ITEMS) },
    );
    first && second
}

/// Runs two consumers at once.
fn take_by_two<R: Threads + Wait + Sync>(
    rt: &R,
    buffer: &ManyBuffer<Ware>,
    one: Seat<Ware>,
    two: Seat<Ware>,
) -> (Marks, Marks)
    requires one { one.buffer ≡ buffer.now }
    requires two { two.buffer ≡ buffer.now }
{
    join(
        rt,
        || -> Marks
            requires { one.buffer ≡ buffer.now }
        { take_some(rt, buffer, one) },
        || -> Marks
            requires { two.buffer ≡ buffer.now }
        { take_some(rt, buffer, two) },
    )
}

/// Runs all four at once. Returns whether all was put, and what was taken.
fn exchange<R: Threads + Wait + Sync>(
    rt: &R,
    buffer: &ManyBuffer<Ware>,
    mut seat: Seat<Ware>,
) -> (bool, (Marks, Marks))
    requires { seat.buffer ≡ buffer.now }
{
    let one = buffer.split(&mut seat);
    let two = buffer.split(&mut seat);
    let three = buffer.split(&mut seat);
    join(
        rt,
        || -> bool
            requires one { one.buffer ≡ buffer.now }
            requires two { two.buffer ≡ buffer.now }
        { put_by_two(rt, buffer, one, two) },
        || -> (Marks, Marks)
            requires three { three.buffer ≡ buffer.now }
            requires seat { seat.buffer ≡ buffer.now }
        { take_by_two(rt, buffer, three, seat) },
    )
}

#[test]
fn each_item_comes_once(rt: HostRuntime) {
    for cells in [1, 2, 64] {
        let (buffer, seat) = opened(&rt, rt.alloc(), cells);
        let (put, (one, two)) = exchange(&rt, &buffer, seat);
        assert!(rt; put, "{cells} cells");
        for (left, right) in one.iter().zip(two.iter()) {
            assert_eq!(rt; left.saturating_add(*right), 1);
        }
    }
}
