//! Calls at one gate, by several threads at once.
ghost use Rattle.std.specs.Prelude.{◌≡◌};
ghost use Rattle.std.specs.List.{All};
ghost use Rattle.std.specs.Thread.{IsSync};

use crate::gate::sum::{Raise, Sum};
use crate::watch::{Time, Watch};
use std::alloc::Global;
use std::sync::Wait;
use std::thread::{Threads, for_each_mut};
use std::time::{Clock, CpuClock, Duration};
use std::{hint, thread};
use sysv_gate::{Gate, Seat};

/// How often each thread calls.
pub(crate) const TIMES: u64 = 400_000;

/// How often two threads raise a count for each other.
pub(crate) const ROUNDS: u64 = 50_000;

/// How often a watcher looks, every 10 milliseconds, before it takes a standstill for a lost wake.
const PATIENCE: u64 = 300;

/// How two threads raise a count for each other.
#[derive(Clone, Copy)]
pub(crate) struct Dialogue {
    pub(crate) rounds: u64,
    /// Whether they spend some time in each round, so that some waits sleep and others do not.
    pub(crate) pauses: bool,
}

/// The task of a thread.
#[derive(Clone, Copy)]
pub(crate) enum Task {
    /// Calls `TIMES` times.
    Call(Raise),
    /// Raises the first count and waits for the second, in each round.
    Say(Dialogue),
    /// Waits for the first count and raises the second, in each round.
    Answer(Dialogue),
    /// Looks at the second count until it has this value. If it stands still for seconds, wakes the
    /// threads that sleep.
    Watch(u64),
}

/// A thread: its seat, and its task.
#[derive(Drop)]
struct Member {
    seat: Seat<Sum>,
    task: Task,
    /// The count at which a watcher saw a standstill.
    stood: Option<u64>,
}

/// The result of some tasks.
#[derive(Clone, Copy)]
pub(crate) struct Done {
    pub(crate) nanos: u64,
    /// The round of the standstill, if there was one.
    pub(crate) stood: Option<u64>,
}

/// Does the tasks at one gate, each in a thread of its own. Returns `None` if memory or the time
/// was refused.
pub(crate) fn act_at_gate<R: Threads + Wait + Clock + CpuClock + Sync>(
    rt: &R,
    alloc: Global,
    tasks: &[Task],
) -> Option<Done> {
    let Ok((gate, mut seat)) = Gate::open(alloc, Sum::new()) else {
        return None;
    };
    let mut members = split_all(alloc, &gate, &mut seat, tasks);
    let nanos = act_timed(rt, &gate, members.as_mut_slice());
    gate.close(seat);
    if members.len() == tasks.len() {
        done_by(members.as_slice(), nanos)
    } else {
        None
    }
}

/// Returns what the members have done in this time.
fn done_by(members: &[Member], nanos: Option<u64>) -> Option<Done> {
    let stood = members.iter().find_map(|member| member.stood);
    Some(Done {
        nanos: nanos?,
        stood,
    })
}

/// Returns a member for each task, fewer if memory runs out.
fn split_all(
    alloc: Global,
    gate: &Gate<Sum>,
    seat: &mut Seat<Sum>,
    tasks: &[Task],
) -> Vec<Member, Global>
    requires { seat.old.gate ≡ gate.now }
    ensures seat { seat.new.gate ≡ gate.now }
    ensures members { All (λ m. m.seat.gate ≡ gate.now) result.items }
{
    let mut members = Vec::new(alloc);
    for task in tasks {
        let _ = members.push(Member {
            seat: gate.split(seat),
            task: *task,
            stood: None,
        });
    }
    members
}

fn act_timed<R: Threads + Wait + Clock + CpuClock + Sync>(
    rt: &R,
    gate: &Gate<Sum>,
    members: &mut [Member],
) -> Option<u64>
    requires { All (λ m. m.seat.gate ≡ gate.now) members.old }
{
    let watch = Watch::start(rt, Time::Passed);
    act_all(rt, gate, members);
    watch?.nanos(rt)
}

fn act_all<R: Threads + Wait + Clock + Sync>(rt: &R, gate: &Gate<Sum>, members: &mut [Member])
    requires { All (λ m. m.seat.gate ≡ gate.now) members.old }
{
    let threads = members.len().max(1);
    for_each_mut(
        rt,
        members,
        threads,
        &|_, member: &mut Member|
            requires { IsSync R.row × (member.now.seat.gate ≡ gate.now) }
        { act(rt, gate, member) },
    );
}

fn act<R: Wait + Clock>(rt: &R, gate: &Gate<Sum>, member: &mut Member)
    requires { member.old.seat.gate ≡ gate.now }
{
    match member.task {
        Task::Call(raise) => call_often(rt, gate, &mut member.seat, raise),
        Task::Say(dialogue) => say_often(rt, gate, &mut member.seat, dialogue),
        Task::Answer(dialogue) => answer_often(rt, gate, &mut member.seat, dialogue),
        Task::Watch(goal) => member.stood = watch(rt, gate, &mut member.seat, goal),
    }
}

fn call_often(rt: &impl Wait, gate: &Gate<Sum>, seat: &mut Seat<Sum>, raise: Raise)
    requires { seat.old.gate ≡ gate.now }
{
    for _ in 0..TIMES {
        let _ = gate.call(rt, seat, raise);
    }
}

/// Spends some time, in each round a different one.
fn pause(dialogue: Dialogue, round: u64) {
    if dialogue.pauses {
        for _ in 0..round.wrapping_mul(977) % 4096 {
            hint::spin_loop();
        }
    }
}

fn say_often(rt: &impl Wait, gate: &Gate<Sum>, seat: &mut Seat<Sum>, dialogue: Dialogue)
    requires { seat.old.gate ≡ gate.now }
{
    for round in 1..=dialogue.rounds {
        pause(dialogue, round);
        let _ = gate.call(rt, seat, Raise::Arrived);
        gate.await_freed(rt, seat, round);
    }
}

fn answer_often(rt: &impl Wait, gate: &Gate<Sum>, seat: &mut Seat<Sum>, dialogue: Dialogue)
    requires { seat.old.gate ≡ gate.now }
{
    for round in 1..=dialogue.rounds {
        gate.await_arrived(rt, seat, round);
        pause(dialogue, round.wrapping_mul(31));
        let _ = gate.call(rt, seat, Raise::Freed);
    }
}

fn watch<R: Wait + Clock>(rt: &R, gate: &Gate<Sum>, seat: &mut Seat<Sum>, goal: u64) -> Option<u64>
    requires { seat.old.gate ≡ gate.now }
{
    let mut stood = None;
    let mut before = 0;
    let mut patience = PATIENCE;
    for _ in 0..1_000_000 {
        let now = gate.freed(seat);
        if now >= goal {
            break;
        }
        patience = if now == before {
            patience.saturating_sub(1)
        } else {
            PATIENCE
        };
        if patience == 0 {
            stood = Some(now);
            gate.wake(rt);
        }
        before = now;
        thread::sleep(rt, Duration::from_millis(10));
    }
    stood
}
