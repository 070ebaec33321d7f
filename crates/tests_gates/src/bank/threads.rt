//! A thread that sleeps at one place of a bank, and a thread that wakes it.
ghost use Rattle.std.specs.Prelude.{◌≡◌, length};
ghost use Rattle.sysv_bank.specs.Banks.{gates_of};

use super::opened;
use crate::parts::assert_is;
use crate::sum::Sum;
use std::alloc::Global;
use std::sync::Wait;
use std::test::Fail;
use std::thread;
use std::thread::{Threads, join};
use std::time::{Clock, Duration};
use sysv_bank::{Bank, BankSeat};
use sysv_gate::{Awaited, Count};

/// Waits for the first count at place 1.
fn await_there(rt: &impl Wait, bank: &Bank<Sum>, mut seat: BankSeat<Sum>) -> Awaited
    requires seat { gates_of seat.seats ≡ bank.now }
    requires three { length bank.now ≡ 3 }
{
    bank.await_count(rt, 1, &mut seat, Count::Arrived, 1)
}

/// Raises the first count at place 1 by a try once the other thread sleeps, and then wakes all who
/// sleep there.
fn try_and_wake<R: Wait + Clock>(rt: &R, bank: &Bank<Sum>, mut seat: BankSeat<Sum>) -> Option<u64>
    requires seat { gates_of seat.seats ≡ bank.now }
    requires three { length bank.now ≡ 3 }
{
    thread::sleep(rt, Duration::from_millis(100));
    let reply = bank.try_call(1, &mut seat, 1).ok();
    bank.wake(rt, 1);
    reply
}

fn wait_and_wake<R: Threads + Wait + Clock + Sync>(
    rt: &R,
    alloc: Global,
    bank: &Bank<Sum>,
    seat: &mut BankSeat<Sum>,
) -> Option<(Awaited, Option<u64>)>
    requires seat { gates_of seat.old.seats ≡ bank.now }
    requires three { length bank.now ≡ 3 }
    ensures { gates_of seat.new.seats ≡ bank.now }
{
    let waits = bank.split(alloc, seat).ok()?;
    let wakes = bank.split(alloc, seat).ok()?;
    Some(join(
        rt,
        || await_there(rt, bank, waits),
        || try_and_wake(rt, bank, wakes),
    ))
}

// The try wakes nobody, so that only a wake at its place ends the wait.
#[test]
fn a_wake_ends_a_wait_at_its_place(rt: HostRuntime) -> Result<(), Fail> {
    let (bank, mut seat) = opened(rt.alloc(), 0).ok_or("no memory")?;
    let told = wait_and_wake(&rt, rt.alloc(), &bank, &mut seat);
    let closings = bank.close(seat);
    assert_is(&rt, told, Some((Awaited::Reached(1), Some(20))));
    assert_is(&rt, closings.len(), 3);
    Ok(())
}
