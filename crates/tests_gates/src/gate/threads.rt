//! Seats in several threads.
ghost use Rattle.std.specs.Prelude.{◌≡◌};

mod no_wakes;
mod passed_over;

use super::opened;
use crate::parts::{LIMIT, assert_is, millis};
use crate::sum::Sum;
use std::sync::Wait;
use std::test::Fail;
use std::thread::{Threads, for_each_mut, join};
use std::time::{Clock, CpuClock, Duration};
use std::{hint, thread};
use sysv_gate::{Awaited, Gate, Object, Seat};

/// How often each thread repeats its task.
const TIMES: u64 = 2_000;

/// The number of rounds in which the two counts rise in turn.
const ROUNDS: u64 = 500;

/// How often a watcher looks, every 10 milliseconds, before it takes a standstill for a lost wake.
const PATIENCE: u64 = 300;

/// A test by time has this many trials. One that shows what is wanted is enough, because a thread
/// of a busy machine may be late.
const TRIALS: u64 = 8;

/// The thread that wakes others does so after this number of milliseconds, or after twice as many,
/// when they sleep.
const LATE: u64 = 50;

/// The task of a thread.
#[derive(Clone, Copy)]
enum Role {
    Idle,
    /// Adds 3 repeatedly.
    Adds,
    /// Raises the first count, and waits for the second, in each round.
    Says,
    /// Waits for the first count, and raises the second, in each round.
    Answers,
    /// Looks at the counts until the last round is over.
    Watches,
    /// Waits for a count that no call raises.
    WaitsInVain,
    /// Waits until the second count is at least this number.
    WaitsForFreed(u64),
    /// Draws the last ticket and adds this number, once others sleep.
    WearsOut(u8),
    /// Raises both counts, after other threads sleep.
    RaisesBoth,
    /// Waits for the first count, and notes the time at which it returns.
    NotesTime,
    /// Raises the first count by a try, once others sleep. Later it notes the time, and wakes all.
    TriesAndWakes,
}

/// A thread, and the last number that it was told.
#[derive(Drop)]
struct Member<'b> {
    gate: &'b Gate<Sum>,
    seat: Seat<Sum>,
    role: Role,
    told: Option<u64>,
    ghost fits: { seat.gate ≡ gate.now },
}

impl<'b> Member<'b> {
    /// Creates a thread with a seat that is split off.
    fn new(gate: &'b Gate<Sum>, seat: &mut Seat<Sum>, role: Role) -> Member<'b>
        requires { seat.old.gate ≡ gate.now }
        ensures { seat.new.gate ≡ gate.now }
    {
        Member {
            gate,
            seat: gate.split(seat),
            role,
            told: None,
        }
    }

    fn act<R: Wait + Clock>(&mut self, rt: &R) {
        self.told = match self.role {
            Role::Idle => None,
            Role::Adds => add_often(rt, self.gate, &mut self.seat),
            Role::Says => say_often(rt, self.gate, &mut self.seat),
            Role::Answers => answer_often(rt, self.gate, &mut self.seat),
            Role::Watches => watch(rt, self.gate, &mut self.seat),
            Role::WaitsInVain => wait_in_vain(rt, self.gate, &mut self.seat),
            Role::WaitsForFreed(goal) => wait_for_freed(rt, self.gate, &mut self.seat, goal),
            Role::WearsOut(call) => wear_out(rt, self.gate, &mut self.seat, call),
            Role::RaisesBoth => raise_both(rt, self.gate, &mut self.seat),
            Role::NotesTime => note_time(rt, self.gate, &mut self.seat),
            Role::TriesAndWakes => try_and_wake(rt, self.gate, &mut self.seat),
        };
    }
}

fn act_all<R: Threads + Wait + Clock + Sync>(rt: &R, members: &mut [Member]) {
    for_each_mut(rt, members, 4, &|_, member| member.act(rt));
}

/// Returns what four threads were told.
fn told_to_four<R: Threads + Wait + Clock + Sync>(
    rt: &R,
    gate: &Gate<Sum>,
    seat: &mut Seat<Sum>,
    roles: [Role; 4],
) -> [Option<u64>; 4]
    requires { seat.old.gate ≡ gate.now }
    ensures { seat.new.gate ≡ gate.now }
{
    let [one, two, three, four] = roles;
    let mut members = [
        Member::new(gate, seat, one),
        Member::new(gate, seat, two),
        Member::new(gate, seat, three),
        Member::new(gate, seat, four),
    ];
    act_all(rt, &mut members);
    members.map(|member| member.told)
}

/// Returns the sum before the last call.
fn add_often(rt: &impl Wait, gate: &Gate<Sum>, seat: &mut Seat<Sum>) -> Option<u64>
    requires { seat.old.gate ≡ gate.now }
    ensures { seat.new.gate ≡ gate.now }
{
    let mut last = 0;
    for _ in 0..TIMES {
        last = gate.call(rt, seat, 3).ok()?;
    }
    Some(last)
}

#[test]
fn four_threads_take_all_their_turns(rt: HostRuntime) -> Result<(), Fail> {
    let (gate, mut seat) = opened(&rt, 7).ok_or("no memory")?;
    let told = told_to_four(&rt, &gate, &mut seat, [Role::Adds; 4]);
    let closing = gate.close(seat);
    let sum = closing.object.ok_or("the object is at home")?.sum;
    assert!(rt; told.contains(&Some(23_997)));
    assert!(rt;
        told.iter()
            .all(|last| last.is_some_and(|last| last <= 23_997))
    );
    assert_is(&rt, (closing.turns, sum), (8_000, 24_000));
    Ok(())
}

/// How often a slow turn pauses the processor, which takes some tenths of a second or more.
const PAUSES: u32 = 1 << 26;

/// An object whose turn is slow if a call passes 1.
#[derive(Drop)]
struct Slow {
    slow: u64,
}

impl Object for Slow {
    type Call = u8;

    type Reply = u64;

    ghost meaning = { λ _ _ _ _. Unit {0} };

    ghost counted = { λ _. (0, 0) };

    fn apply(&mut self, call: u8) -> u64 {
        if call == 1 {
            for _ in 0..PAUSES {
                hint::spin_loop();
            }
            self.slow = self.slow.wrapping_add(1);
        }
        self.slow
    }

    fn counts(&self) -> (u64, u64) {
        (0, 0)
    }
}

/// Takes a slow turn.
fn call_slowly(rt: &impl Wait, gate: &Gate<Slow>, mut seat: Seat<Slow>) -> bool
    requires { seat.gate ≡ gate.now }
{
    gate.call(rt, &mut seat, 1).is_ok()
}

/// Calls while the other turn lasts, and returns the processor time of the waiting thread.
fn call_after<R: Wait + Clock + CpuClock>(
    rt: &R,
    gate: &Gate<Slow>,
    mut seat: Seat<Slow>,
) -> Option<Duration>
    requires { seat.gate ≡ gate.now }
{
    thread::sleep(rt, Duration::from_millis(50));
    let before = rt.thread_cpu_time().ok()?;
    gate.call(rt, &mut seat, 0).ok()?;
    rt.thread_cpu_time().ok()?.checked_sub(before)
}

fn wait_out_a_turn<R: Threads + Wait + Clock + CpuClock + Sync>(
    rt: &R,
    gate: &Gate<Slow>,
    slow: Seat<Slow>,
    waiting: Seat<Slow>,
) -> (bool, Option<Duration>)
    requires slow { slow.gate ≡ gate.now }
    requires waiting { waiting.gate ≡ gate.now }
{
    join(
        rt,
        || call_slowly(rt, gate, slow),
        || call_after(rt, gate, waiting),
    )
}

#[test]
fn a_waiter_sleeps(rt: HostRuntime) -> Result<(), Fail> {
    let Ok((gate, mut seat)) = Gate::open(rt.alloc(), Slow { slow: 0 }) else {
        return Err("no memory".into());
    };
    let slow = gate.split(&mut seat);
    let waiting = gate.split(&mut seat);
    let (held, used) = wait_out_a_turn(&rt, &gate, slow, waiting);
    let closing = gate.close(seat);
    assert!(rt; held && used.is_some_and(|used| used < Duration::from_millis(100)));
    assert_is(&rt, closing.turns, 2);
    Ok(())
}

/// Spends some time, in each round a different one.
fn dither(round: u64) {
    for _ in 0..round.wrapping_mul(977) % 4096 {
        hint::spin_loop();
    }
}

/// Returns the second count after the last round.
fn say_often(rt: &impl Wait, gate: &Gate<Sum>, seat: &mut Seat<Sum>) -> Option<u64>
    requires { seat.old.gate ≡ gate.now }
    ensures { seat.new.gate ≡ gate.now }
{
    for round in 1..=ROUNDS {
        dither(round);
        gate.call(rt, seat, 1).ok()?;
        gate.await_freed(rt, seat, round);
    }
    Some(gate.freed(seat))
}

/// Returns the first count after the last round.
fn answer_often(rt: &impl Wait, gate: &Gate<Sum>, seat: &mut Seat<Sum>) -> Option<u64>
    requires { seat.old.gate ≡ gate.now }
    ensures { seat.new.gate ≡ gate.now }
{
    for round in 1..=ROUNDS {
        gate.await_arrived(rt, seat, round);
        dither(round.wrapping_mul(31));
        gate.call(rt, seat, 2).ok()?;
    }
    Some(gate.arrived(seat))
}

/// Returns the round in which the counts stood still for seconds, if they did. In that case it
/// wakes the sleeping threads, so that the rounds continue.
fn watch<R: Wait + Clock>(rt: &R, gate: &Gate<Sum>, seat: &mut Seat<Sum>) -> Option<u64>
    requires { seat.old.gate ≡ gate.now }
    ensures { seat.new.gate ≡ gate.now }
{
    let mut stood = None;
    let mut before = 0;
    let mut patience = PATIENCE;
    for _ in 0..100_000 {
        let now = gate.freed(seat);
        if now >= ROUNDS {
            break;
        }
        patience = if now == before {
            patience.saturating_sub(1)
        } else {
            PATIENCE
        };
        if patience == 0 {
            stood = Some(now);
            gate.wake(rt);
        }
        before = now;
        thread::sleep(rt, Duration::from_millis(10));
    }
    stood
}

// A lost wake leaves both threads asleep, and the watcher reports the round.
#[test]
fn no_wake_is_lost(rt: HostRuntime) -> Result<(), Fail> {
    let (gate, mut seat) = opened(&rt, 0).ok_or("no memory")?;
    let roles = [Role::Says, Role::Answers, Role::Watches, Role::Idle];
    let told = told_to_four(&rt, &gate, &mut seat, roles);
    assert_is(&rt, told, [Some(ROUNDS), Some(ROUNDS), None, None]);
    assert_is(&rt, gate.close(seat).turns, 2 * ROUNDS);
    Ok(())
}

/// Returns the count that it reached, or none if the gate was worn out first.
fn wait_in_vain(rt: &impl Wait, gate: &Gate<Sum>, seat: &mut Seat<Sum>) -> Option<u64>
    requires { seat.old.gate ≡ gate.now }
    ensures { seat.new.gate ≡ gate.now }
{
    match gate.await_arrived(rt, seat, 1) {
        Awaited::Reached(count) => Some(count),
        Awaited::Worn => None,
    }
}

/// Returns the count that it reached, or `None` if the gate was worn out first.
fn wait_for_freed(rt: &impl Wait, gate: &Gate<Sum>, seat: &mut Seat<Sum>, goal: u64) -> Option<u64>
    requires { seat.old.gate ≡ gate.now }
    ensures { seat.new.gate ≡ gate.now }
{
    match gate.await_freed(rt, seat, goal) {
        Awaited::Reached(count) => Some(count),
        Awaited::Worn => None,
    }
}

/// Returns the sum before its turn.
fn wear_out<R: Wait + Clock>(
    rt: &R,
    gate: &Gate<Sum>,
    seat: &mut Seat<Sum>,
    call: u8,
) -> Option<u64>
    requires { seat.old.gate ≡ gate.now }
    ensures { seat.new.gate ≡ gate.now }
{
    thread::sleep(rt, Duration::from_millis(100));
    gate.call(rt, seat, call).ok()
}

#[test]
fn a_sleeper_is_told_that_the_gate_is_worn(rt: HostRuntime) -> Result<(), Fail> {
    let (gate, mut seat) = opened(&rt, LIMIT - 1).ok_or("no memory")?;
    let roles = [Role::WaitsInVain, Role::WearsOut(2), Role::Idle, Role::Idle];
    let told = told_to_four(&rt, &gate, &mut seat, roles);
    assert_is(&rt, told, [None, Some(0), None, None]);
    assert_is(&rt, gate.close(seat).turns, 1);
    Ok(())
}

// The last turn raises the first count, so that only the wear wakes those who wait for the second.
#[test]
fn a_sleeper_for_freed_is_told_that_the_gate_is_worn(rt: HostRuntime) -> Result<(), Fail> {
    let (gate, mut seat) = opened(&rt, LIMIT - 1).ok_or("no memory")?;
    let roles = [
        Role::WaitsForFreed(1),
        Role::WaitsForFreed(1),
        Role::WearsOut(1),
        Role::Idle,
    ];
    let told = told_to_four(&rt, &gate, &mut seat, roles);
    assert_is(&rt, told, [None, None, Some(0), None]);
    assert_is(&rt, gate.close(seat).turns, 1);
    Ok(())
}

/// Returns the sum before its second turn.
fn raise_both<R: Wait + Clock>(rt: &R, gate: &Gate<Sum>, seat: &mut Seat<Sum>) -> Option<u64>
    requires { seat.old.gate ≡ gate.now }
    ensures { seat.new.gate ≡ gate.now }
{
    thread::sleep(rt, Duration::from_millis(100));
    gate.call(rt, seat, 1).ok()?;
    gate.call(rt, seat, 2).ok()
}

// One rise ends every wait for the second count. A thread that is not woken would sleep for ever.
#[test]
fn a_rise_wakes_all_who_wait_for_freed(rt: HostRuntime) -> Result<(), Fail> {
    let (gate, mut seat) = opened(&rt, 0).ok_or("no memory")?;
    let roles = [
        Role::WaitsForFreed(1),
        Role::WaitsForFreed(1),
        Role::RaisesBoth,
        Role::WaitsForFreed(1),
    ];
    let told = told_to_four(&rt, &gate, &mut seat, roles);
    assert_is(&rt, told, [Some(1); 4]);
    assert_is(&rt, gate.close(seat).turns, 2);
    Ok(())
}

/// The time at which the wait ended.
fn note_time<R: Wait + Clock>(rt: &R, gate: &Gate<Sum>, seat: &mut Seat<Sum>) -> Option<u64>
    requires { seat.old.gate ≡ gate.now }
    ensures { seat.new.gate ≡ gate.now }
{
    gate.await_arrived(rt, seat, 1);
    millis(rt)
}

/// The time before it wakes the others.
fn try_and_wake<R: Wait + Clock>(rt: &R, gate: &Gate<Sum>, seat: &mut Seat<Sum>) -> Option<u64>
    requires { seat.old.gate ≡ gate.now }
    ensures { seat.new.gate ≡ gate.now }
{
    thread::sleep(rt, Duration::from_millis(LATE));
    gate.try_call(seat, 1).ok()?;
    thread::sleep(rt, Duration::from_millis(LATE));
    let before = millis(rt);
    gate.wake(rt);
    before
}

#[test]
fn a_try_wakes_nobody_and_a_wake_wakes_all(rt: HostRuntime) -> Result<(), Fail> {
    let mut slept = false;
    for _ in 0..TRIALS {
        let (gate, mut seat) = opened(&rt, 0).ok_or("no memory")?;
        let roles = [
            Role::NotesTime,
            Role::NotesTime,
            Role::TriesAndWakes,
            Role::Idle,
        ];
        let [one, two, woken, _] = told_to_four(&rt, &gate, &mut seat, roles);
        assert_is(&rt, gate.close(seat).turns, 1);
        slept =
            matches!((one, two, woken), (Some(one), Some(two), Some(woken)) if one >= woken && two >= woken);
        if slept {
            break;
        }
    }
    assert!(rt; slept);
    Ok(())
}

// One rise ends every wait for the first count. A thread that is not woken would sleep for ever.
#[test]
fn a_rise_wakes_all_who_wait_for_arrived(rt: HostRuntime) -> Result<(), Fail> {
    let (gate, mut seat) = opened(&rt, 0).ok_or("no memory")?;
    let roles = [
        Role::NotesTime,
        Role::NotesTime,
        Role::RaisesBoth,
        Role::NotesTime,
    ];
    let [one, two, raised, three] = told_to_four(&rt, &gate, &mut seat, roles);
    assert!(rt; one.is_some() && two.is_some() && three.is_some());
    assert_is(&rt, raised, Some(1));
    assert_is(&rt, gate.close(seat).turns, 2);
    Ok(())
}

/// Makes a slow turn by a try, and then wakes all.
fn try_slowly_and_wake<R: Wait + Clock>(rt: &R, gate: &Gate<Slow>, mut seat: Seat<Slow>) -> bool
    requires { seat.gate ≡ gate.now }
{
    let tried = gate.try_call(&mut seat, 1).is_ok();
    thread::sleep(rt, Duration::from_millis(50));
    gate.wake(rt);
    tried
}

/// Calls while the other turn lasts.
fn call_meanwhile<R: Wait + Clock>(rt: &R, gate: &Gate<Slow>, mut seat: Seat<Slow>) -> bool
    requires { seat.gate ≡ gate.now }
{
    thread::sleep(rt, Duration::from_millis(50));
    gate.call(rt, &mut seat, 0).is_ok()
}

fn wait_out_a_try<R: Threads + Wait + Clock + Sync>(
    rt: &R,
    gate: &Gate<Slow>,
    slow: Seat<Slow>,
    waiting: Seat<Slow>,
) -> (bool, bool)
    requires slow { slow.gate ≡ gate.now }
    requires waiting { waiting.gate ≡ gate.now }
{
    join(
        rt,
        || try_slowly_and_wake(rt, gate, slow),
        || call_meanwhile(rt, gate, waiting),
    )
}

// No turn ends after the try, so only the wake ends a wait for the turn. A try that comes too late
// may be busy.
#[test]
fn a_wake_ends_the_wait_for_a_turn(rt: HostRuntime) -> Result<(), Fail> {
    let Ok((gate, mut seat)) = Gate::open(rt.alloc(), Slow { slow: 0 }) else {
        return Err("no memory".into());
    };
    let slow = gate.split(&mut seat);
    let waiting = gate.split(&mut seat);
    let (tried, called) = wait_out_a_try(&rt, &gate, slow, waiting);
    let turns = gate.close(seat).turns;
    assert!(rt; called);
    assert_is(&rt, turns, if tried { 2 } else { 1 });
    Ok(())
}
