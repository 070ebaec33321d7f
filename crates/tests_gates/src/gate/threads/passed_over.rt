//! Some threads call a gate without end, and no other is passed over.
ghost use Rattle.std.specs.Prelude.{◌≡◌};

use crate::parts::millis;
use std::hint;
use std::sync::Wait;
use std::sync::atomic::AtomicBool;
use std::sync::atomic::Ordering::SeqCst;
use std::test::Fail;
use std::thread::{Threads, for_each_mut};
use std::time::Clock;
use sysv_gate::{Gate, Object, Seat};

/// The number of calls of the thread that others may pass over.
const TURNS: u64 = 200;

/// The number of milliseconds in which that thread has all its turns.
const SOON: u64 = 15_000;

/// The number of milliseconds after which the others stop if it has not.
const LATE: u64 = 30_000;

/// The number of pauses in a turn.
const PAUSES: u32 = 200;

/// An object whose turns take about as long as a wake.
#[derive(Drop)]
struct Lasting {
    turns: u64,
}

impl Object for Lasting {
    type Call = ();

    type Reply = u64;

    ghost meaning = { λ _ _ _ _. Unit {0} };

    ghost counted = { λ _. (0, 0) };

    fn apply(&mut self, _call: ()) -> u64 {
        for _ in 0..PAUSES {
            hint::spin_loop();
        }
        self.turns = self.turns.wrapping_add(1);
        self.turns
    }

    fn counts(&self) -> (u64, u64) {
        (0, 0)
    }
}

/// A thread, and what it does.
#[derive(Drop)]
struct Caller<'b> {
    gate: &'b Gate<Lasting>,
    over: &'b AtomicBool,
    seat: Seat<Lasting>,
    /// Whether the thread calls until another thread is over. Otherwise it makes `TURNS` calls.
    goes_on: bool,
    /// The number of milliseconds that its calls took, or none if one was refused.
    took: Option<u64>,
    ghost fits: { seat.gate ≡ gate.now },
}

impl<'b> Caller<'b> {
    /// Creates a thread with a seat that is split off.
    fn new(
        gate: &'b Gate<Lasting>,
        over: &'b AtomicBool,
        seat: &mut Seat<Lasting>,
        goes_on: bool,
    ) -> Caller<'b>
        requires { seat.old.gate ≡ gate.now }
        ensures { seat.new.gate ≡ gate.now }
    {
        Caller {
            gate,
            over,
            seat: gate.split(seat),
            goes_on,
            took: None,
        }
    }

    fn act<R: Wait + Clock>(&mut self, rt: &R) {
        self.took = if self.goes_on {
            call_until_over(rt, self.gate, &mut self.seat, self.over)
        } else {
            call_often(rt, self.gate, &mut self.seat)
        };
        if !self.goes_on {
            self.over.store(true, SeqCst);
        }
    }
}

fn act_all<R: Threads + Wait + Clock + Sync>(rt: &R, callers: &mut [Caller]) {
    for_each_mut(rt, callers, 4, &|_, caller| caller.act(rt));
}

/// Returns the number of milliseconds that `TURNS` calls took.
fn call_often<R: Wait + Clock>(
    rt: &R,
    gate: &Gate<Lasting>,
    seat: &mut Seat<Lasting>,
) -> Option<u64>
    requires { seat.old.gate ≡ gate.now }
    ensures { seat.new.gate ≡ gate.now }
{
    let began = millis(rt)?;
    for _ in 0..TURNS {
        gate.call(rt, seat, ()).ok()?;
    }
    millis(rt)?.checked_sub(began)
}

/// Calls until another thread is over, or it is too late. Returns the number of milliseconds that
/// this took.
fn call_until_over<R: Wait + Clock>(
    rt: &R,
    gate: &Gate<Lasting>,
    seat: &mut Seat<Lasting>,
    over: &AtomicBool,
) -> Option<u64>
    requires { seat.old.gate ≡ gate.now }
    ensures { seat.new.gate ≡ gate.now }
{
    let began = millis(rt)?;
    for _ in 0..u64::MAX {
        if is_over(rt, over, began) {
            break;
        }
        gate.call(rt, seat, ()).ok()?;
    }
    millis(rt)?.checked_sub(began)
}

/// Whether another thread is over, or it is too late, or the clock fails.
fn is_over(rt: &impl Clock, over: &AtomicBool, began: u64) -> bool {
    over.load(SeqCst) || millis(rt).is_none_or(|now| now > began.saturating_add(LATE))
}

/// Has three threads call without end, and one beside them. Returns how many milliseconds the calls
/// of each took.
fn took_beside_three<R: Threads + Wait + Clock + Sync>(
    rt: &R,
    gate: &Gate<Lasting>,
    seat: &mut Seat<Lasting>,
) -> [Option<u64>; 4]
    requires { seat.old.gate ≡ gate.now }
    ensures { seat.new.gate ≡ gate.now }
{
    let over = AtomicBool::new(false);
    let mut callers = [
        Caller::new(gate, &over, seat, true),
        Caller::new(gate, &over, seat, true),
        Caller::new(gate, &over, seat, true),
        Caller::new(gate, &over, seat, false),
    ];
    act_all(rt, &mut callers);
    callers.map(|caller| caller.took)
}

// Three threads call without end. The fourth makes its calls long before the others give up.
#[test]
fn a_caller_is_not_passed_over_for_ever(rt: HostRuntime) -> Result<(), Fail> {
    let Ok((gate, mut seat)) = Gate::open(rt.alloc(), Lasting { turns: 0 }) else {
        return Err("no memory".into());
    };
    let [one, two, three, four] = took_beside_three(&rt, &gate, &mut seat);
    assert!(rt; one.is_some() && two.is_some() && three.is_some());
    assert!(rt; four.is_some_and(|took| took < SOON));
    assert!(rt; gate.close(seat).turns >= TURNS);
    Ok(())
}
