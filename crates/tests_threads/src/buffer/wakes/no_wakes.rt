//! Ends and seats that have slept are no longer counted as sleepers. A run counts the wakes after
//! the mark, and expects none.
ghost use Rattle.std.specs.Prelude.{◌≡◌};

use super::{How, LATE, put_and_take_of_many, take_and_put_of_many};
use crate::buffer::{Ware, many, opened};
use std::alloc::Global;
use std::sync::Wait;
use std::sync::atomic::AtomicU64;
use std::sync::atomic::Ordering::SeqCst;
use std::thread;
use std::thread::{Threads, join};
use std::time::{Clock, Duration};
use sysv_buffer::{Consumer, OneBuffer, Producer};
use tests_kit::mark;

/// Takes an item that it sleeps for. Takes another one after the other thread has put both.
fn take_two(
    rt: &impl Wait,
    alloc: Global,
    buffer: &OneBuffer<Ware>,
    mut end: Consumer<Ware>,
    over: &AtomicU64,
) -> bool
    requires { end.buffer ≡ buffer.now }
{
    let first = buffer.take(rt, &mut end);
    wait_until(rt, over);
    let _marked = mark(alloc);
    let second = buffer.try_take(&mut end);
    first.is_ok() && second.is_ok()
}

fn wait_until(rt: &impl Wait, over: &AtomicU64) {
    for _ in rt.forever() {
        if over.load(SeqCst) == 1 {
            return;
        }
        thread::yield_now();
    }
    unreachable!()
}

fn put_two_late(
    rt: &impl Clock,
    buffer: &OneBuffer<Ware>,
    mut end: Producer<Ware>,
    over: &AtomicU64,
) -> bool
    requires { end.buffer ≡ buffer.now }
{
    thread::sleep(rt, Duration::from_millis(LATE));
    let first = buffer.try_put(&mut end, Ware { number: 7 });
    let second = buffer.try_put(&mut end, Ware { number: 8 });
    over.store(1, SeqCst);
    first.is_ok() && second.is_ok()
}

fn take_and_put_two<R: Threads + Wait + Clock + Sync>(
    rt: &R,
    alloc: Global,
    buffer: &OneBuffer<Ware>,
    puts: Producer<Ware>,
    takes: Consumer<Ware>,
) -> (bool, bool)
    requires puts { puts.buffer ≡ buffer.now }
    requires takes { takes.buffer ≡ buffer.now }
{
    let over = AtomicU64::new(0);
    join(
        rt,
        || take_two(rt, alloc, buffer, takes, &over),
        || put_two_late(rt, buffer, puts, &over),
    )
}

#[test]
fn buffer_of_one(rt: HostRuntime) {
    let (buffer, puts, takes) = opened(&rt, rt.alloc(), 2);
    let both = take_and_put_two(&rt, rt.alloc(), &buffer, puts, takes);
    assert_eq!(rt; both, (true, true));
}

// A seat has slept until an item came, and another one until a cell was empty. Item 8 is left.
#[test]
fn buffer_of_many(rt: HostRuntime) {
    let (buffer, mut seat) = many::opened(&rt, rt.alloc(), 1);
    let takes = buffer.split(&mut seat);
    let (_told, late) = take_and_put_of_many(&rt, &buffer, takes, How::Waits);
    let first = buffer.try_put(&mut seat, Ware { number: 7 });
    let puts = buffer.split(&mut seat);
    let (_told, taken) = put_and_take_of_many(&rt, &buffer, puts, How::Waits);
    assert_eq!(rt; (late, first.is_ok(), taken), (true, true, Some(7)));
    let _marked = mark(rt.alloc());
    let last = buffer.try_take(&mut seat);
    assert!(rt; matches!(&last, Ok(item) if item.number == 8));
    let put = buffer.try_put(&mut seat, Ware { number: 9 });
    assert!(rt; put.is_ok());
}
