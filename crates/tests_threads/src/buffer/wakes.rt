//! An end or a seat that waits sleeps, and the tries, puts and takes of another wake it.
ghost use Rattle.std.specs.Prelude.{◌≡◌};

mod no_wakes;

use super::{Ware, many, opened};
use std::sync::Wait;
use std::thread;
use std::thread::{Threads, join};
use std::time::{Clock, CpuClock, Duration};
use sysv_buffer::{Consumer, ManyBuffer, OneBuffer, Producer, Seat};

/// The other thread tries after so many milliseconds, when the one that waits has gone to sleep.
const LATE: u64 = 500;

/// An end that waits so long uses less processor time than this, in milliseconds.
const LITTLE: u64 = 100;

/// The number of the item that was put and taken, if the thread that waited slept meanwhile.
fn slept(told: Option<(u64, Duration)>) -> Option<u64> {
    match told {
        Some((number, used)) if used < Duration::from_millis(LITTLE) => Some(number),
        _ => None,
    }
}

/// The number of the item that is taken, and the processor time of the take.
fn take<R: Wait + CpuClock>(
    rt: &R,
    buffer: &OneBuffer<Ware>,
    mut end: Consumer<Ware>,
) -> Option<(u64, Duration)>
    requires { end.buffer ≡ buffer.now }
{
    let before = rt.thread_cpu_time().ok()?;
    let item = buffer.take(rt, &mut end).ok()?;
    let used = rt.thread_cpu_time().ok()?.checked_sub(before)?;
    Some((item.number, used))
}

fn try_put_late(rt: &impl Clock, buffer: &OneBuffer<Ware>, mut end: Producer<Ware>) -> bool
    requires { end.buffer ≡ buffer.now }
{
    thread::sleep(rt, Duration::from_millis(LATE));
    buffer.try_put(&mut end, Ware { number: 7 }).is_ok()
}

fn take_and_try_put<R: Threads + Wait + Clock + CpuClock + Sync>(
    rt: &R,
    buffer: &OneBuffer<Ware>,
    puts: Producer<Ware>,
    takes: Consumer<Ware>,
) -> (Option<(u64, Duration)>, bool)
    requires puts { puts.buffer ≡ buffer.now }
    requires takes { takes.buffer ≡ buffer.now }
{
    join(
        rt,
        || take(rt, buffer, takes),
        || try_put_late(rt, buffer, puts),
    )
}

#[test]
fn a_try_put_wakes_the_consumer(rt: HostRuntime) {
    let (buffer, puts, takes) = opened(&rt, rt.alloc(), 1);
    let (told, put) = take_and_try_put(&rt, &buffer, puts, takes);
    assert_eq!(rt; (slept(told), put), (Some(7), true));
}

/// The number of the item that is put, and the processor time of the put.
fn put<R: Wait + CpuClock>(
    rt: &R,
    buffer: &OneBuffer<Ware>,
    mut end: Producer<Ware>,
    number: u64,
) -> Option<(u64, Duration)>
    requires { end.buffer ≡ buffer.now }
{
    let before = rt.thread_cpu_time().ok()?;
    buffer.put(rt, &mut end, Ware { number }).ok()?;
    let used = rt.thread_cpu_time().ok()?.checked_sub(before)?;
    Some((number, used))
}

fn try_take_late(rt: &impl Clock, buffer: &OneBuffer<Ware>, mut end: Consumer<Ware>) -> Option<u64>
    requires { end.buffer ≡ buffer.now }
{
    thread::sleep(rt, Duration::from_millis(LATE));
    Some(buffer.try_take(&mut end).ok()?.number)
}

fn put_and_try_take<R: Threads + Wait + Clock + CpuClock + Sync>(
    rt: &R,
    buffer: &OneBuffer<Ware>,
    puts: Producer<Ware>,
    takes: Consumer<Ware>,
) -> (Option<(u64, Duration)>, Option<u64>)
    requires puts { puts.buffer ≡ buffer.now }
    requires takes { takes.buffer ≡ buffer.now }
{
    join(
        rt,
        || put(rt, buffer, puts, 8),
        || try_take_late(rt, buffer, takes),
    )
}

#[test]
fn a_try_take_wakes_the_producer(rt: HostRuntime) {
    let (buffer, mut puts, takes) = opened(&rt, rt.alloc(), 1);
    let first = buffer.try_put(&mut puts, Ware { number: 7 });
    assert!(rt; first.is_ok());
    let (told, taken) = put_and_try_take(&rt, &buffer, puts, takes);
    assert_eq!(rt; (slept(told), taken), (Some(8), Some(7)));
}

/// The same with the seats of a buffer of many.
fn take_of_many<R: Wait + CpuClock>(
    rt: &R,
    buffer: &ManyBuffer<Ware>,
    mut seat: Seat<Ware>,
) -> Option<(u64, Duration)>
    requires { seat.buffer ≡ buffer.now }
{
    let before = rt.thread_cpu_time().ok()?;
    let item = buffer.take(rt, &mut seat).ok()?;
    let used = rt.thread_cpu_time().ok()?.checked_sub(before)?;
    Some((item.number, used))
}

/// How the thread that comes late puts or takes.
#[derive(Clone, Copy)]
enum How {
    Tries,
    Waits,
}

fn put_late_to_many<R: Wait + Clock>(
    rt: &R,
    buffer: &ManyBuffer<Ware>,
    mut seat: Seat<Ware>,
    how: How,
) -> bool
    requires { seat.buffer ≡ buffer.now }
{
    thread::sleep(rt, Duration::from_millis(LATE));
    match how {
        How::Tries => buffer.try_put(&mut seat, Ware { number: 7 }).is_ok(),
        How::Waits => buffer.put(rt, &mut seat, Ware { number: 7 }).is_ok(),
    }
}

fn take_and_put_of_many<R: Threads + Wait + Clock + CpuClock + Sync>(
    rt: &R,
    buffer: &ManyBuffer<Ware>,
    mut seat: Seat<Ware>,
    how: How,
) -> (Option<(u64, Duration)>, bool)
    requires { seat.buffer ≡ buffer.now }
{
    let other = buffer.split(&mut seat);
    join(
        rt,
        || take_of_many(rt, buffer, seat),
        || put_late_to_many(rt, buffer, other, how),
    )
}

#[test]
fn a_try_put_wakes_a_seat(rt: HostRuntime) {
    let (buffer, seat) = many::opened(&rt, rt.alloc(), 1);
    let (told, put) = take_and_put_of_many(&rt, &buffer, seat, How::Tries);
    assert_eq!(rt; (slept(told), put), (Some(7), true));
}

#[test]
fn a_put_wakes_a_seat(rt: HostRuntime) {
    let (buffer, seat) = many::opened(&rt, rt.alloc(), 1);
    let (told, put) = take_and_put_of_many(&rt, &buffer, seat, How::Waits);
    assert_eq!(rt; (slept(told), put), (Some(7), true));
}

fn put_to_many<R: Wait + CpuClock>(
    rt: &R,
    buffer: &ManyBuffer<Ware>,
    mut seat: Seat<Ware>,
    number: u64,
) -> Option<(u64, Duration)>
    requires { seat.buffer ≡ buffer.now }
{
    let before = rt.thread_cpu_time().ok()?;
    buffer.put(rt, &mut seat, Ware { number }).ok()?;
    let used = rt.thread_cpu_time().ok()?.checked_sub(before)?;
    Some((number, used))
}

fn take_late_of_many<R: Wait + Clock>(
    rt: &R,
    buffer: &ManyBuffer<Ware>,
    mut seat: Seat<Ware>,
    how: How,
) -> Option<u64>
    requires { seat.buffer ≡ buffer.now }
{
    thread::sleep(rt, Duration::from_millis(LATE));
    let number = match how {
        How::Tries => buffer.try_take(&mut seat).ok()?.number,
        How::Waits => buffer.take(rt, &mut seat).ok()?.number,
    };
    Some(number)
}

fn put_and_take_of_many<R: Threads + Wait + Clock + CpuClock + Sync>(
    rt: &R,
    buffer: &ManyBuffer<Ware>,
    mut seat: Seat<Ware>,
    how: How,
) -> (Option<(u64, Duration)>, Option<u64>)
    requires { seat.buffer ≡ buffer.now }
{
    let other = buffer.split(&mut seat);
    join(
        rt,
        || put_to_many(rt, buffer, seat, 8),
        || take_late_of_many(rt, buffer, other, how),
    )
}

#[test]
fn a_try_take_wakes_a_seat(rt: HostRuntime) {
    let (buffer, mut seat) = many::opened(&rt, rt.alloc(), 1);
    let first = buffer.try_put(&mut seat, Ware { number: 7 });
    assert!(rt; first.is_ok());
    let (told, taken) = put_and_take_of_many(&rt, &buffer, seat, How::Tries);
    assert_eq!(rt; (slept(told), taken), (Some(8), Some(7)));
}

#[test]
fn a_take_wakes_a_seat(rt: HostRuntime) {
    let (buffer, mut seat) = many::opened(&rt, rt.alloc(), 1);
    let first = buffer.try_put(&mut seat, Ware { number: 7 });
    assert!(rt; first.is_ok());
    let (told, taken) = put_and_take_of_many(&rt, &buffer, seat, How::Waits);
    assert_eq!(rt; (slept(told), taken), (Some(8), Some(7)));
}
