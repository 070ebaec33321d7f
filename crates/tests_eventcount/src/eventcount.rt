//! Eventcounts and sequencers used by one thread.
ghost use Rattle.std.specs.Prelude.{◌≡◌};

mod threads;

use crate::parts::{LIMIT, assert_is};
use std::test::Fail;
use sysv_eventcount::{Awaited, Eventcount, OpenRefused, Seat, Sequencer, Worn};

fn advance_three_times(count: &Eventcount, seat: &mut Seat) -> Option<[u64; 3]>
    requires { seat.old.counter ≡ count.now }
    ensures { seat.new.counter ≡ seat.old.counter }
{
    let first = count.advance(seat).ok()?;
    let second = count.advance(seat).ok()?;
    let third = count.advance(seat).ok()?;
    Some([first, second, third])
}

#[test]
fn an_eventcount_counts_advances(rt: HostRuntime) -> Result<(), Fail> {
    let (count, mut seat) = Eventcount::open(rt.alloc(), 0)?;
    assert_is(&rt, advance_three_times(&count, &mut seat), Some([1, 2, 3]));
    let three = count.await_turns(&mut seat, 3, 10);
    let four = count.await_turns(&mut seat, 4, 10);
    assert_is(&rt, (three, four), (Awaited::Reached(3), Awaited::Short(3)));
    let read = count.read(&mut seat);
    assert_is(&rt, (read, count.await_at_least(&rt, &mut seat, 3)), (3, 3));
    count.wake(&rt);
    Ok(())
}

/// Advances with a seat that was split off. Returns the result, and what the other seat reads
/// before and after the two are joined.
fn advance_beside(count: &Eventcount, seat: &mut Seat) -> Option<(u64, u64, Awaited, u64)>
    requires { seat.old.counter ≡ count.now }
{
    let mut other = count.split(seat).ok()?;
    let advanced = count.advance(&mut other).ok()?;
    let read = count.read(seat);
    let awaited = count.await_turns(seat, 4, 1);
    count.join(seat, other);
    Some((advanced, read, awaited, count.read(seat)))
}

// A read that returns only what its own seat has seen would be too low here.
#[test]
fn read_tells_own_knowledge_only(rt: HostRuntime) -> Result<(), Fail> {
    let (count, mut seat) = Eventcount::open(rt.alloc(), 3)?;
    let seen = advance_beside(&count, &mut seat);
    assert_is(&rt, seen, Some((4, 4, Awaited::Reached(4), 4)));
    Ok(())
}

fn draw_three(turns: &Sequencer, seat: &mut Seat) -> Option<[u64; 3]>
    requires { seat.old.counter ≡ turns.now }
    ensures { seat.new.counter ≡ seat.old.counter }
{
    let first = turns.ticket(seat).ok()?;
    let second = turns.ticket(seat).ok()?;
    let third = turns.ticket(seat).ok()?;
    Some([first, second, third])
}

/// Draws with a seat that was split off, and again after that seat was joined.
fn draw_beside(turns: &Sequencer, seat: &mut Seat) -> Option<[u64; 2]>
    requires { seat.old.counter ≡ turns.now }
{
    let mut other = turns.split(seat).ok()?;
    let beside = turns.ticket(&mut other).ok()?;
    turns.join(seat, other);
    let after = turns.ticket(seat).ok()?;
    Some([beside, after])
}

#[test]
fn a_sequencer_draws_each_number_once(rt: HostRuntime) -> Result<(), Fail> {
    let (turns, mut seat) = Sequencer::open(rt.alloc(), 0)?;
    assert_is(&rt, draw_three(&turns, &mut seat), Some([0, 1, 2]));
    assert_is(&rt, draw_beside(&turns, &mut seat), Some([3, 4]));
    Ok(())
}

/// This function has no handle for waiting, so none of these calls can take one of std's locks.
fn step_without_waiting(
    count: &Eventcount,
    counting: &mut Seat,
    turns: &Sequencer,
    drawing: &mut Seat,
) -> Option<(u64, u64, Awaited)>
    requires counting { counting.old.counter ≡ count.now }
    requires drawing { drawing.old.counter ≡ turns.now }
{
    let turn = turns.ticket(drawing).ok()?;
    let awaited = count.await_turns(counting, turn, 1);
    count.advance(counting).ok()?;
    Some((turn, count.read(counting), awaited))
}

#[test]
fn one_lock_round_everything(rt: HostRuntime) -> Result<(), Fail> {
    let (count, mut counting) = Eventcount::open(rt.alloc(), 5)?;
    let (turns, mut drawing) = Sequencer::open(rt.alloc(), 5)?;
    let stepped = step_without_waiting(&count, &mut counting, &turns, &mut drawing);
    assert_is(&rt, stepped, Some((5, 6, Awaited::Reached(5))));
    Ok(())
}

/// Splits the newest seat up to `most` times, and returns how often that was possible.
fn count_splits(count: &Eventcount, seat: Seat, most: u32) -> u32
    requires { seat.counter ≡ count.now }
{
    let mut newest = seat;
    for done in 0..most {
        let Ok(next) = count.split(&mut newest) else {
            return done;
        };
        newest = next;
    }
    most
}

/// Splits the seats of a sequencer in the same way.
fn count_ticket_splits(turns: &Sequencer, seat: Seat, most: u32) -> u32
    requires { seat.counter ≡ turns.now }
{
    let mut newest = seat;
    for done in 0..most {
        let Ok(next) = turns.split(&mut newest) else {
            return done;
        };
        newest = next;
    }
    most
}

#[test]
fn the_newest_seat_splits_ten_times(rt: HostRuntime) -> Result<(), Fail> {
    let (count, seat) = Eventcount::open(rt.alloc(), 0)?;
    assert_is(&rt, count_splits(&count, seat, 100), 10);
    let (turns, seat) = Sequencer::open(rt.alloc(), 0)?;
    assert_is(&rt, count_ticket_splits(&turns, seat, 100), 10);
    Ok(())
}

#[test]
fn a_worn_sequencer_draws_nothing(rt: HostRuntime) -> Result<(), Fail> {
    let (turns, mut seat) = Sequencer::open(rt.alloc(), LIMIT)?;
    assert_is(&rt, turns.ticket(&mut seat), Err(Worn));
    Ok(())
}

#[test]
fn a_worn_eventcount_counts_nothing(rt: HostRuntime) -> Result<(), Fail> {
    let (count, mut seat) = Eventcount::open(rt.alloc(), LIMIT)?;
    assert_is(&rt, count.advance(&mut seat), Err(Worn));
    assert_is(&rt, count.read(&mut seat), LIMIT);
    Ok(())
}

#[test]
fn the_last_advance_reaches_the_limit(rt: HostRuntime) -> Result<(), Fail> {
    let (count, mut seat) = Eventcount::open(rt.alloc(), LIMIT - 1)?;
    assert_is(&rt, count.advance(&mut seat), Ok(LIMIT));
    assert_is(&rt, count.advance(&mut seat), Err(Worn));
    assert_is(&rt, count.read(&mut seat), LIMIT);
    Ok(())
}

#[test]
fn an_eventcount_above_the_limit_is_refused(rt: HostRuntime) {
    let opened = Eventcount::open(rt.alloc(), LIMIT + 1);
    assert!(rt; matches!(&opened, Err(OpenRefused::BadStart)));
}

#[test]
fn a_sequencer_above_the_limit_is_refused(rt: HostRuntime) {
    let opened = Sequencer::open(rt.alloc(), LIMIT + 1);
    assert!(rt; matches!(&opened, Err(OpenRefused::BadStart)));
}
