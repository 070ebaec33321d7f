//! The task of one thread of a measurement, and the time that two threads take together.
use crate::eventcount::locked::LockedCount;
use crate::eventcount::place::Place;
use crate::watch::{Time, Watch, nanos_if};
use std::alloc::Global;
use std::sync::Wait;
use std::thread;
use std::thread::{Threads, for_each_mut};
use std::time::{Clock, CpuClock, Duration};
use sysv_eventcount::Eventcount;

/// At most this number of threads run at once.
const THREADS: usize = 2;

/// The task of a thread.
#[derive(Clone, Copy)]
pub(crate) enum Act {
    /// Ends at once.
    Rest,
    /// Advances repeatedly.
    Advance,
    /// Advances repeatedly, and wakes each time.
    AdvanceAndWake,
    /// Reads repeatedly.
    Read,
    /// One side of a ping-pong: it waits for each second value, from this one on, and advances to
    /// the next.
    Play(u64),
    /// One side of a ping-pong over the locked count.
    PlayLocked(u64),
    /// Waits for the first advance.
    Sleep,
    /// Advances after a second.
    Rouse,
}

/// A place and a locked count, the task of a thread there, and how often it is repeated.
#[derive(Drop)]
struct Part<'a> {
    place: Place<'a>,
    locked: &'a LockedCount,
    act: Act,
    times: u64,
}

impl Part<'_> {
    fn run<R: Wait + Clock>(&mut self, rt: &R) {
        let place = &mut self.place;
        let times = self.times;
        match self.act {
            Act::Rest => {}
            Act::Advance => advance_often(place, times),
            Act::AdvanceAndWake => wake_often(rt, place, times),
            Act::Read => read_often(place, times),
            Act::Play(first) => play(rt, place, first, times),
            Act::PlayLocked(first) => play_locked(rt, self.locked, first, times),
            Act::Sleep => place.hear(rt, 1),
            Act::Rouse => rouse(rt, place),
        }
    }
}

fn advance_often(place: &mut Place, times: u64) {
    for _ in 0..times {
        place.advance();
    }
}

fn wake_often(rt: &impl Wait, place: &mut Place, times: u64) {
    for _ in 0..times {
        place.advance();
        place.wake(rt);
    }
}

fn read_often(place: &mut Place, times: u64) {
    for _ in 0..times {
        place.read();
    }
}

/// The value that a player waits for in a round.
fn value_of(first: u64, round: u64) -> u64 {
    first.wrapping_add(round.wrapping_mul(2))
}

fn play(rt: &impl Wait, place: &mut Place, first: u64, rounds: u64) {
    for round in 0..rounds {
        place.hear(rt, value_of(first, round));
        place.advance();
        place.wake(rt);
    }
}

fn play_locked(rt: &impl Wait, count: &LockedCount, first: u64, rounds: u64) {
    for round in 0..rounds {
        count.await_at_least(rt, value_of(first, round));
        count.advance(rt);
    }
}

fn rouse<R: Wait + Clock>(rt: &R, place: &mut Place) {
    thread::sleep(rt, Duration::from_secs(1));
    place.advance();
    place.wake(rt);
}

fn time_at<R: Threads + Wait + Clock + CpuClock + Sync>(
    rt: &R,
    time: Time,
    mut place: Place,
    locked: &LockedCount,
    acts: [Act; 2],
    times: u64,
) -> Option<u64> {
    let [one, other] = acts;
    let watch = Watch::start(rt, time);
    let Some(second) = place.split() else {
        return None;
    };
    let here = Part {
        place,
        locked,
        act: one,
        times,
    };
    let beside = Part {
        place: second,
        locked,
        act: other,
        times,
    };
    for_each_mut(rt, &mut [here, beside], THREADS, &|_, part| part.run(rt));
    nanos_if(rt, watch, true)
}

/// Has two threads act over a new eventcount and a new locked count, each `times` times if it
/// repeats its act. Returns the nanoseconds until both have ended, or `None` if a step failed.
pub(crate) fn time_of<R: Threads + Wait + Clock + CpuClock + Sync>(
    rt: &R,
    alloc: Global,
    time: Time,
    acts: [Act; 2],
    times: u64,
) -> Option<u64> {
    let locked = LockedCount::new(0);
    let Ok((count, seat)) = Eventcount::open(alloc, 0) else {
        return None;
    };
    time_at(rt, time, Place::new(&count, seat), &locked, acts, times)
}
