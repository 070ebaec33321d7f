//! Items between threads, through a buffer of many producers and consumers.
ghost use Rattle.std.specs.Prelude.{◌≡◌};

use crate::watch::{Time, Watch, nanos_if};
use std::alloc::Global;
use std::sync::Wait;
use std::thread::{Threads, for_each_mut};
use std::time::{Clock, CpuClock};
use sysv_buffer::{ManyBuffer, Seat};

/// At most this number of threads run at once.
const THREADS: usize = 4;

/// What a thread does with each item.
#[derive(Clone, Copy)]
enum Act {
    Put,
    Take,
    PutAndTake,
}

/// A thread: its seat at a buffer, its task there, and how often it repeats it.
#[derive(Drop)]
struct Worker<'a> {
    buffer: &'a ManyBuffer<u64>,
    seat: Seat<u64>,
    act: Act,
    items: u64,
    /// How many items it put or took.
    done: u64,
    ghost fits: { seat.buffer ≡ buffer.now },
}

impl<'a> Worker<'a> {
    fn new(buffer: &'a ManyBuffer<u64>, seat: Seat<u64>, act: Act, items: u64) -> Worker<'a>
        requires { seat.buffer ≡ buffer.now }
    {
        Worker {
            buffer,
            seat,
            act,
            items,
            done: 0,
        }
    }

    /// Returns a second thread at the same buffer.
    fn split(&mut self, act: Act) -> Worker<'a> {
        let seat = self.buffer.split(&mut self.seat);
        Worker::new(self.buffer, seat, act, self.items)
    }

    fn run(&mut self, rt: &impl Wait) {
        for number in 0..self.items {
            if !self.step(rt, number) {
                return;
            }
            self.done = self.done.saturating_add(1);
        }
    }

    fn step(&mut self, rt: &impl Wait, number: u64) -> bool {
        match self.act {
            Act::Put => self.put(rt, number),
            Act::Take => self.take(rt),
            Act::PutAndTake => self.put(rt, number) && self.take(rt),
        }
    }

    fn put(&mut self, rt: &impl Wait, number: u64) -> bool {
        self.buffer.put(rt, &mut self.seat, number).is_ok()
    }

    fn take(&mut self, rt: &impl Wait) -> bool {
        self.buffer.take(rt, &mut self.seat).is_ok()
    }

    fn is_done(&self) -> bool {
        self.done == self.items
    }
}

/// Has the threads run, and returns the nanoseconds until the last has ended, or `None` if one did
/// not put or take each item.
fn time_of<R: Threads + Wait + Clock + CpuClock + Sync>(
    rt: &R,
    workers: &mut [Worker],
) -> Option<u64> {
    let watch = Watch::start(rt, Time::Passed);
    for_each_mut(rt, workers, THREADS, &|_, worker| worker.run(rt));
    let done = workers.iter().all(|worker| worker.is_done());
    nanos_if(rt, watch, done)
}

/// Returns the nanoseconds of items that one thread puts and another takes.
pub(crate) fn time_of_one_to_one<R: Threads + Wait + Clock + CpuClock + Sync>(
    rt: &R,
    alloc: Global,
    cells: usize,
    items: u64,
) -> Option<u64> {
    let Ok((buffer, seat)) = ManyBuffer::open(alloc, cells) else {
        return None;
    };
    let mut one = Worker::new(&buffer, seat, Act::Put, items);
    let other = one.split(Act::Take);
    time_of(rt, &mut [one, other])
}

/// Returns the nanoseconds until each of two threads has put `items` items and each of two others
/// has taken the same number.
pub(crate) fn time_of_two_to_two<R: Threads + Wait + Clock + CpuClock + Sync>(
    rt: &R,
    alloc: Global,
    cells: usize,
    items: u64,
) -> Option<u64> {
    let Ok((buffer, seat)) = ManyBuffer::open(alloc, cells) else {
        return None;
    };
    let mut one = Worker::new(&buffer, seat, Act::Put, items);
    let two = one.split(Act::Take);
    let three = one.split(Act::Put);
    let four = one.split(Act::Take);
    time_of(rt, &mut [one, two, three, four])
}

/// Returns the nanoseconds of items that one thread puts and takes in turn, so that it never
/// sleeps.
pub(crate) fn time_alone<R: Wait + Clock + CpuClock>(
    rt: &R,
    alloc: Global,
    cells: usize,
    items: u64,
) -> Option<u64> {
    let Ok((buffer, seat)) = ManyBuffer::open(alloc, cells) else {
        return None;
    };
    let mut worker = Worker::new(&buffer, seat, Act::PutAndTake, items);
    let watch = Watch::start(rt, Time::Passed);
    worker.run(rt);
    nanos_if(rt, watch, worker.is_done())
}
