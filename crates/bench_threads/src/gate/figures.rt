//! The figures. Each is the median of five, which are taken in turn with those that it is compared
//! to.
use crate::figures::{show, show_ratio};
use crate::gate::calls::{Dialogue, Done, ROUNDS, TIMES, Task, act_at_gate};
use crate::gate::locked::time_at_lock;
use crate::gate::places::time_at_places;
use crate::gate::sum::Raise;
use std::alloc::Global;
use std::io;
use std::sync::Wait;
use std::thread::Threads;
use std::time::{Clock, CpuClock};

/// How often each is measured.
const REPEATS: usize = 5;

/// What is measured.
#[derive(Clone, Copy)]
enum What {
    Gate(Raise),
    Dialogue,
    Lock,
    Places,
}

fn time_of<R: Threads + Wait + Clock + CpuClock + Sync>(
    rt: &R,
    alloc: Global,
    what: What,
    threads: usize,
) -> Option<u64> {
    match what {
        What::Gate(raise) => {
            let done = act_at_gate(rt, alloc, &[Task::Call(raise); 4][..threads.min(4)]);
            Some(done?.nanos)
        }
        What::Dialogue => time_of_dialogue(rt, alloc, ROUNDS),
        What::Lock => time_at_lock(rt, threads),
        What::Places => time_at_places(rt, alloc, threads),
    }
}

fn time_of_dialogue<R: Threads + Wait + Clock + CpuClock + Sync>(
    rt: &R,
    alloc: Global,
    rounds: u64,
) -> Option<u64> {
    let dialogue = Dialogue {
        rounds,
        pauses: false,
    };
    Some(act_in_dialogue(rt, alloc, dialogue, 2)?.nanos)
}

/// Has two threads wait for each other's counts, and a third one watch them if `threads` is 3.
fn act_in_dialogue<R: Threads + Wait + Clock + CpuClock + Sync>(
    rt: &R,
    alloc: Global,
    dialogue: Dialogue,
    threads: usize,
) -> Option<Done> {
    let tasks = [
        Task::Say(dialogue),
        Task::Answer(dialogue),
        Task::Watch(dialogue.rounds),
    ];
    act_at_gate(rt, alloc, &tasks[..threads.min(3)])
}

/// Returns the median of the times. A time that was not taken counts as 0.
fn middle(mut times: [u64; REPEATS]) -> Option<u64> {
    times.sort_unstable();
    let time = times[REPEATS / 2];
    if time == 0 { None } else { Some(time) }
}

/// Measures both in turn.
fn times_of<R: Threads + Wait + Clock + CpuClock + Sync>(
    rt: &R,
    alloc: Global,
    one: (What, usize),
    two: (What, usize),
) -> (Option<u64>, Option<u64>) {
    let mut first = [0; REPEATS];
    let mut second = [0; REPEATS];
    for at in 0..REPEATS {
        first[at] = time_of(rt, alloc, one.0, one.1).unwrap_or(0);
        second[at] = time_of(rt, alloc, two.0, two.1).unwrap_or(0);
    }
    (middle(first), middle(second))
}

fn times_for(threads: usize) -> u64 {
    TIMES.saturating_mul(u64::try_from(threads).unwrap_or(1))
}

/// Measures a gate beside the lock, with this number of threads.
fn show_beside<R: Threads + Wait + Clock + CpuClock + Print + Sync>(
    rt: &R,
    alloc: Global,
    raise: Raise,
    what: &str,
    how: &str,
    threads: usize,
) -> io::Result<()> {
    let (gate, lock) = times_of(
        rt,
        alloc,
        (What::Gate(raise), threads),
        (What::Lock, threads),
    );
    let calls = times_for(threads);
    show(rt, what, how, gate, calls, "ns a call")?;
    show(rt, "Mutex", how, lock, calls, "ns a call")?;
    show_ratio(rt, "beside the Mutex", how, gate, lock, "times its time")
}

/// Measures a gate with and without a count that rises, with this number of threads.
fn show_gates<R: Threads + Wait + Clock + CpuClock + Print + Sync>(
    rt: &R,
    alloc: Global,
    how: &str,
    threads: usize,
) -> io::Result<()> {
    show_beside(rt, alloc, Raise::Neither, "gate", how, threads)?;
    show_beside(
        rt,
        alloc,
        Raise::Arrived,
        "gate whose count rises",
        how,
        threads,
    )
}

/// Measures threads at places of their own beside one thread.
fn show_places<R: Threads + Wait + Clock + CpuClock + Print + Sync>(
    rt: &R,
    alloc: Global,
    how: &str,
    threads: usize,
) -> io::Result<()> {
    let (many, one) = times_of(rt, alloc, (What::Places, threads), (What::Places, 1));
    let calls = times_for(threads);
    show(rt, "places of a bank", how, many, calls, "ns a call")?;
    let what = "places of a bank";
    show(rt, what, "one thread", one, TIMES, "ns a call")?;
    let scaled = one.map(|one| one.saturating_mul(calls / TIMES));
    let what = "beside one thread";
    show_ratio(rt, what, how, scaled, many, "times its calls")
}

/// Prints what calls by one thread take without contention.
pub fn measure_alone<R: Threads + Wait + Clock + CpuClock + Print + Sync>(
    rt: &R,
    alloc: Global,
) -> io::Result<()> {
    let quiet = time_of(rt, alloc, What::Gate(Raise::Neither), 1);
    show(rt, "gate", "one thread", quiet, TIMES, "ns a call")?;
    let rising = time_of(rt, alloc, What::Gate(Raise::Arrived), 1);
    show(
        rt,
        "gate whose count rises",
        "one thread",
        rising,
        TIMES,
        "ns a call",
    )
}

/// Prints all of them.
pub fn measure<R: Threads + Wait + Clock + CpuClock + Print + Sync>(
    rt: &R,
    alloc: Global,
) -> io::Result<()> {
    show_gates(rt, alloc, "one thread", 1)?;
    show_gates(rt, alloc, "two threads", 2)?;
    show_gates(rt, alloc, "four threads", 4)?;
    show_places(rt, alloc, "two threads", 2)?;
    show_places(rt, alloc, "four threads", 4)?;
    show_dialogue(rt, alloc)
}

/// Measures two threads that wait for each other's counts.
fn show_dialogue<R: Threads + Wait + Clock + CpuClock + Print + Sync>(
    rt: &R,
    alloc: Global,
) -> io::Result<()> {
    let (dialogue, _) = times_of(rt, alloc, (What::Dialogue, 2), (What::Lock, 1));
    show(
        rt,
        "two threads wait for one another",
        "by counts",
        dialogue,
        ROUNDS,
        "ns a round",
    )
}

/// Has two threads wait for each other's counts under a watcher, and prints whether they stood
/// still.
pub fn try_wakes<R: Threads + Wait + Clock + CpuClock + Print + Sync>(
    rt: &R,
    alloc: Global,
    rounds: u64,
) -> io::Result<()> {
    let dialogue = Dialogue {
        rounds,
        pauses: true,
    };
    match act_in_dialogue(rt, alloc, dialogue, 3) {
        Some(done) => match done.stood {
            Some(round) => println!(rt; "a wake was lost after round {round}"),
            None => println!(rt; "{rounds} rounds, no wake lost"),
        },
        None => println!(rt; "not tried, since memory was refused"),
    }
}

/// Returns the nanoseconds of a few rounds of two threads that wait for each other's counts.
pub fn once<R: Threads + Wait + Clock + CpuClock + Sync>(rt: &R, alloc: Global) -> Option<u64> {
    time_of_dialogue(rt, alloc, 100)
}
