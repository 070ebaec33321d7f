//! Banks used by one thread.
ghost use Rattle.std.specs.Prelude.{◌≡◌, ◌+◌, ◌%◌, ◌^◌, ◌≤◌, length, IfOk, IfSome};
ghost use Rattle.std.specs.List.{All};
ghost use Rattle.sysv_bank.specs.Banks.{gates_of};

mod held;
mod keeper;
mod place;
mod threads;

use crate::gate::{came_back, worn_of};
use crate::parts::{LIMIT, assert_is};
use crate::sum::Sum;
use std::alloc::Global;
use std::test::Fail;
use sysv_bank::{Bank, BankSeat};
use sysv_gate::{Awaited, Closing, Count, OpenRefused};

/// Opens a bank of three sums, of 10, 20 and 30.
fn opened(alloc: Global, first: u64) -> Option<(Bank<Sum>, BankSeat<Sum>)>
    ensures { IfSome result (λ o. (gates_of o.1.seats ≡ o.0) × (length o.0 ≡ 3)) }
{
    let objects = Vec::from_array(alloc, [Sum::new(10), Sum::new(20), Sum::new(30)]).ok()?;
    Bank::open(alloc, objects, first).ok()
}

/// Returns the number of turns at all places.
fn turns_of(closings: Vec<Closing<Sum>, Global>) -> u64 {
    closings
        .iter()
        .fold(0, |turns: u64, closing| turns.wrapping_add(closing.turns))
}

#[test]
fn each_place_has_its_own_turns(rt: HostRuntime) -> Result<(), Fail> {
    let (bank, mut seat) = opened(rt.alloc(), 5).ok_or("no memory")?;
    assert_is(&rt, bank.call(&rt, 1, &mut seat, 5).ok(), Some(20));
    assert_is(&rt, bank.try_call(1, &mut seat, 4).ok(), Some(25));
    assert_is(&rt, bank.call(&rt, 2, &mut seat, 7).ok(), Some(30));
    bank.wake(&rt, 1);
    assert_is(
        &rt,
        (
            bank.count(0, &mut seat, Count::Arrived),
            bank.count(0, &mut seat, Count::Freed),
        ),
        (0, 0),
    );
    assert_is(
        &rt,
        (
            bank.count(1, &mut seat, Count::Arrived),
            bank.count(1, &mut seat, Count::Freed),
        ),
        (1, 1),
    );
    assert_is(
        &rt,
        bank.await_count(&rt, 2, &mut seat, Count::Arrived, 1),
        Awaited::Reached(1),
    );
    assert_is(
        &rt,
        bank.await_count(&rt, 1, &mut seat, Count::Freed, 1),
        Awaited::Reached(1),
    );
    let mut sums = Vec::new(rt.alloc());
    for closing in bank.close(seat) {
        let sum = closing.object.map_or(0, |sum| sum.sum);
        sums.push((closing.turns, sum)).map_err(|_| "no memory")?;
    }
    assert!(rt; sums.as_slice() == [(0, 10), (2, 29), (1, 37)].as_slice());
    Ok(())
}

#[test]
fn seats_are_split_and_joined_together(rt: HostRuntime) -> Result<(), Fail> {
    let (bank, mut seat) = opened(rt.alloc(), 0).ok_or("no memory")?;
    let mut other = bank.split(rt.alloc(), &mut seat).expect(&rt, "a split");
    assert_is(&rt, bank.call(&rt, 0, &mut other, 1).ok(), Some(10));
    assert_is(&rt, bank.call(&rt, 0, &mut seat, 2).ok(), Some(11));
    assert_is(&rt, bank.try_call(2, &mut other, 3).ok(), Some(30));
    assert_is(&rt, bank.count(2, &mut seat, Count::Arrived), 1);
    bank.join(&mut seat, other);
    assert_is(&rt, turns_of(bank.close(seat)), 3);
    Ok(())
}

#[test]
fn a_worn_place_serves_nothing(rt: HostRuntime) -> Result<(), Fail> {
    let (bank, mut seat) = opened(rt.alloc(), LIMIT - 1).ok_or("no memory")?;
    assert_is(&rt, bank.call(&rt, 2, &mut seat, 5).ok(), Some(30));
    assert_is(&rt, came_back(bank.call(&rt, 2, &mut seat, 5)), Some(5));
    assert_is(&rt, worn_of(bank.try_call(2, &mut seat, 6)), Some(6));
    assert_is(
        &rt,
        bank.await_count(&rt, 2, &mut seat, Count::Freed, 1),
        Awaited::Worn,
    );
    assert_is(&rt, bank.try_call(1, &mut seat, 6).ok(), Some(20));
    assert_is(&rt, turns_of(bank.close(seat)), 2);
    Ok(())
}

#[test]
fn a_start_above_the_limit_is_refused(rt: HostRuntime) -> Result<(), Fail> {
    let objects = Vec::from_array(rt.alloc(), [Sum::new(10)]).map_err(|_| "no memory")?;
    match Bank::open(rt.alloc(), objects, LIMIT + 1) {
        Err(OpenRefused::BadStart(back)) => assert_is(&rt, back.len(), 1),
        _ => panic!(rt; "the start is above the limit"),
    }
    Ok(())
}
