//! Workers that run small jobs.
ghost use Rattle.std.specs.Prelude.{◌≡◌, ◌≤◌, vec_capacity, vec_len, IfErr};
ghost use Rattle.std.specs.List.{All};

use crate::parts::assert_is;
use std::alloc::Global;
use std::process::Abort;
use std::sync::Wait;
use std::thread::Threads;
use sysv_workers::{Job, Source, WorkersFault, WorkersRefused, run_workers};

mod first;
mod growths;
mod marks;
mod refused;
mod together;

/// A source of the numbers from `next` to below `end`, in order. It counts how often it is called.
#[derive(Drop)]
struct Numbers {
    next: u64,
    end: u64,
    asked: u64,
}

impl Numbers {
    fn below(end: u64) -> Numbers {
        Numbers {
            next: 0,
            end,
            asked: 0,
        }
    }
}

impl Source<u64> for Numbers {
    ghost gives = { λ _ _ _. Unit {0} };

    fn next(&mut self) -> Option<u64> {
        self.asked = self.asked.saturating_add(1);
        if self.next >= self.end {
            return None;
        }
        let number = self.next;
        self.next += 1;
        Some(number)
    }
}

/// A state that can be neither dropped nor copied. It has a number, and counts the items that it is
/// given.
struct Ticket {
    number: u64,
    items: u64,
}

impl Ticket {
    /// Returns its number, and how many items it was given.
    fn spend(self) -> (u64, u64) {
        let Ticket { number, items } = self;
        (number, items)
    }
}

/// The number of tickets that there is space for.
const TICKETS: usize = 17;

/// Returns this number of tickets, numbered from 0 on. Tolerates one refusal of memory.
fn tickets(rt: &impl Abort, alloc: Global, count: usize) -> Vec<Ticket>
    requires { count ≤ 17 }
{
    let mut tickets = room(rt, alloc);
    for number in 0..count {
        tickets.push_reserved(Ticket {
            number: number as u64,
            items: 0,
        });
    }
    tickets
}

fn room(rt: &impl Abort, alloc: Global) -> Vec<Ticket>
    ensures { (vec_len result ≡ 0) × (17 ≤ vec_capacity result) }
{
    match Vec::with_capacity(alloc, TICKETS) {
        Ok(tickets) => tickets,
        Err(_) => Vec::with_capacity(alloc, TICKETS).expect(rt, "memory"),
    }
}

/// Asserts that the tickets are numbered from 0 on and that there are `count` of them. Returns how
/// many items they were given.
fn items_of(rt: &impl Abort, tickets: Vec<Ticket>, count: u64) -> u64 {
    let mut tickets = tickets;
    let mut left = count;
    let mut all: u64 = 0;
    while let Some(ticket) = tickets.pop() {
        let (number, items) = ticket.spend();
        left = left.checked_sub(1).expect(rt, "a ticket more");
        assert_eq!(rt; number, left);
        all = all.saturating_add(items);
    }
    tickets.destroy_empty();
    assert_eq!(rt; left, 0);
    all
}

/// Runs the states, and returns them. If memory or a thread is refused, asserts that the states are
/// handed back and that the source was not called, and tries again.
fn ran<W: Send, J: Job<W, u64> + Sync, R: Threads + Wait + Abort + Sync>(
    rt: &R,
    alloc: Global,
    states: Vec<W>,
    source: &mut Numbers,
    job: &J,
) -> Vec<W>
    requires { All (J.fits job.now) states.items }
{
    let states = match run_workers(rt, alloc, states, source, job) {
        Ok(states) => return states,
        Err(refused) => {
            let WorkersRefused { why, states } = refused;
            assert!(rt;
                matches!(&why, WorkersFault::NoMemory | WorkersFault::Thread),
                "{why}"
            );
            assert_eq!(rt; source.asked, 0);
            states
        }
    };
    match run_workers(rt, alloc, states, source, job) {
        Ok(states) => states,
        Err(refused) => panic!(rt; "a second try: {}", refused.why),
    }
}
