//! Calls at the places of a bank, each thread at a place of its own.
ghost use Rattle.std.specs.Prelude.{◌≡◌, ◌<◌, length};
ghost use Rattle.std.specs.List.{All};
ghost use Rattle.std.specs.Thread.{IsSync};
ghost use Rattle.sysv_bank.specs.Banks.{gates_of};

use crate::gate::calls::TIMES;
use crate::gate::sum::{Raise, Sum};
use crate::watch::{Time, Watch};
use std::alloc::Global;
use std::sync::Wait;
use std::thread::{Threads, for_each_mut};
use std::time::{Clock, CpuClock};
use sysv_bank::{Bank, BankSeat};

/// The number of places in the bank.
const PLACES: usize = 4;

/// Returns the nanoseconds that `threads` threads take for their calls, each at a place of its own.
pub(crate) fn time_at_places<R: Threads + Wait + Clock + CpuClock + Sync>(
    rt: &R,
    alloc: Global,
    threads: usize,
) -> Option<u64> {
    let objects = Vec::from_array(alloc, [Sum::new(), Sum::new(), Sum::new(), Sum::new()]).ok()?;
    let Ok((bank, mut seat)) = Bank::open(alloc, objects, 0) else {
        return None;
    };
    let mut seats = split_all(alloc, &bank, &mut seat, threads);
    let nanos = call_timed(rt, &bank, seats.as_mut_slice());
    let all = seats.len() == threads;
    bank.close(seat);
    if all { nanos } else { None }
}

/// Returns a seat for each thread, fewer if memory runs out.
fn split_all(
    alloc: Global,
    bank: &Bank<Sum>,
    seat: &mut BankSeat<Sum>,
    threads: usize,
) -> Vec<BankSeat<Sum>, Global>
    requires { gates_of seat.old.seats ≡ bank.now }
    ensures seat { gates_of seat.new.seats ≡ bank.now }
    ensures seats { All (λ s. gates_of s.seats ≡ bank.now) result.items }
{
    let mut seats = Vec::new(alloc);
    for _ in 0..threads {
        split_one(alloc, bank, seat, &mut seats);
    }
    seats
}

/// Adds a seat, unless memory runs out.
fn split_one(
    alloc: Global,
    bank: &Bank<Sum>,
    seat: &mut BankSeat<Sum>,
    seats: &mut Vec<BankSeat<Sum>, Global>,
)
    requires seat { gates_of seat.old.seats ≡ bank.now }
    requires seats { All (λ s. gates_of s.seats ≡ bank.now) seats.old.items }
    ensures seat { gates_of seat.new.seats ≡ bank.now }
    ensures seats { All (λ s. gates_of s.seats ≡ bank.now) seats.new.items }
{
    if let Ok(other) = bank.split(alloc, seat) {
        let _ = seats.push(other);
    }
}

fn call_timed<R: Threads + Wait + Clock + CpuClock + Sync>(
    rt: &R,
    bank: &Bank<Sum>,
    seats: &mut [BankSeat<Sum>],
) -> Option<u64>
    requires bank { length bank.now ≡ 4 }
    requires seats { All (λ s. gates_of s.seats ≡ bank.now) seats.old }
{
    let watch = Watch::start(rt, Time::Passed);
    call_all(rt, bank, seats);
    watch?.nanos(rt)
}

fn call_all<R: Threads + Wait + Sync>(rt: &R, bank: &Bank<Sum>, seats: &mut [BankSeat<Sum>])
    requires bank { length bank.now ≡ 4 }
    requires seats { All (λ s. gates_of s.seats ≡ bank.now) seats.old }
{
    let threads = seats.len().max(1);
    for_each_mut(
        rt,
        seats,
        threads,
        &|place, seat: &mut BankSeat<Sum>|
            requires { IsSync R.row × (gates_of seat.now.seats ≡ bank.now) × (length bank.now ≡ 4) }
        { call_often(rt, bank, place % PLACES, seat) },
    );
}

fn call_often(rt: &impl Wait, bank: &Bank<Sum>, place: usize, seat: &mut BankSeat<Sum>)
    requires seat { gates_of seat.old.seats ≡ bank.now }
    requires place { place < length bank.now }
{
    for _ in 0..TIMES {
        let _ = bank.call(rt, place, seat, Raise::Arrived);
    }
}
