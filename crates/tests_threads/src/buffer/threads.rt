//! One thread puts items, and another takes them.
ghost use Rattle.std.specs.Prelude.{◌≡◌};

use super::{Ware, opened};
use std::sync::Wait;
use std::thread::{Threads, join};
use sysv_buffer::{Consumer, OneBuffer, Producer};

/// The number of items.
const ITEMS: u64 = 20_000;

/// Puts the numbers from 0 on. Returns false if one was refused.
fn put_all(rt: &impl Wait, buffer: &OneBuffer<Ware>, mut end: Producer<Ware>) -> bool
    requires { end.buffer ≡ buffer.now }
{
    for number in 0..ITEMS {
        if buffer.put(rt, &mut end, Ware { number }).is_err() {
            return false;
        }
    }
    true
}

/// Takes the same number of items, and returns whether they were the numbers from 0 on.
fn take_all(rt: &impl Wait, buffer: &OneBuffer<Ware>, mut end: Consumer<Ware>) -> bool
    requires { end.buffer ≡ buffer.now }
{
    for number in 0..ITEMS {
        match buffer.take(rt, &mut end) {
            Ok(item) if item.number == number => {}
            _ => return false,
        }
    }
    true
}

/// Runs both threads at once.
fn exchange<R: Threads + Wait + Sync>(
    rt: &R,
    buffer: &OneBuffer<Ware>,
    puts: Producer<Ware>,
    takes: Consumer<Ware>,
) -> bool
    requires puts { puts.buffer ≡ buffer.now }
    requires takes { takes.buffer ≡ buffer.now }
{
    let (one, two) = join(
        rt,
        || -> bool
            requires { puts.buffer ≡ buffer.now }
        { put_all(rt, buffer, puts) },
        || -> bool
            requires { takes.buffer ≡ buffer.now }
        { take_all(rt, buffer, takes) },
    );
    one && two
}

#[test]
fn items_come_in_order(rt: HostRuntime) {
    for cells in [1, 2, 64] {
        let (buffer, puts, takes) = opened(&rt, rt.alloc(), cells);
        assert!(rt; exchange(&rt, &buffer, puts, takes), "{cells} cells");
    }
}
