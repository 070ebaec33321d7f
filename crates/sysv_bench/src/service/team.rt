//! Threads that act at once, each with a pass of its own.
ghost use Rattle.std.specs.Prelude.{◌≡◌, ◌≤◌, [], vec_len, vec_capacity, length, IfSome};
ghost use Rattle.std.specs.List.{All};
ghost use Rattle.std.specs.Thread.{IsSync};
ghost use Rattle.sysv_service.specs.Seats.{AreOf};

use crate::service::calls::id_of;
use crate::service::part::Part;
use bench_threads::watch::{Time, Watch};
use std::alloc::Global;
use std::sync::Wait;
use std::thread::{Threads, for_each_mut};
use std::time::{Clock, CpuClock};
use sysv_service::{Closed, Pass, Service};

/// What is left of a service.
#[derive(Drop)]
pub(crate) struct Left<'a> {
    /// The parts of the threads. Some are missing if memory was refused.
    pub(crate) parts: Vec<Part<'a>>,
    /// The nanoseconds that they took together.
    pub(crate) nanos: Option<u64>,
    pub(crate) closed: Closed,
}

/// A thread: its pass, and what it does.
struct Member<'a> {
    pass: Pass,
    part: Part<'a>,
}

/// Opens a service of `blocks` blocks with `queues` queues, whose keys count from 1 and whose
/// identifiers count from 0, and has each part act in a thread of its own.
pub(crate) fn run<'a, R: Threads + Wait + Clock + CpuClock + Sync>(
    rt: &R,
    alloc: Global,
    blocks: u32,
    queues: i32,
    parts: Vec<Part<'a>>,
) -> Option<Left<'a>> {
    let Ok((service, mut pass)) = Service::open(alloc, blocks) else {
        return None;
    };
    make_queues(rt, &service, &mut pass, queues);
    let (parts, nanos) = act_together(rt, alloc, &service, &mut pass, parts);
    let closed = service.close(pass);
    Some(Left {
        parts: parts?,
        nanos,
        closed,
    })
}

/// Has each part act in a thread of its own, with a pass that is split from this one and joined to
/// it again. Returns the parts, or `None` if memory is refused, and the nanoseconds.
fn act_together<'a, R: Threads + Wait + Clock + CpuClock + Sync>(
    rt: &R,
    alloc: Global,
    service: &Service,
    pass: &mut Pass,
    parts: Vec<Part<'a>>,
) -> (Option<Vec<Part<'a>>>, Option<u64>)
    requires { AreOf service.now pass.old.seats }
    ensures { AreOf service.now pass.new.seats }
{
    let room = parts.len();
    let Ok(members) = Vec::with_capacity(alloc, room) else {
        return (None, None);
    };
    let mut members = split_all(alloc, service, pass, parts, members);
    let nanos = act_timed(rt, service, &mut members);
    (join_all(alloc, service, pass, members), nanos)
}

fn make_queues(rt: &impl Wait, service: &Service, pass: &mut Pass, queues: i32)
    requires { AreOf service.now pass.old.seats }
    ensures { AreOf service.now pass.new.seats }
{
    for key in 1..=queues {
        id_of(rt, service, pass, key);
    }
}

/// Splits a pass for each part, the last first, until memory is refused.
fn split_all<'a>(
    alloc: Global,
    service: &Service,
    pass: &mut Pass,
    mut parts: Vec<Part<'a>>,
    mut members: Vec<Member<'a>>,
) -> Vec<Member<'a>>
    requires pass { AreOf service.now pass.old.seats }
    requires none { members.items ≡ [] }
    requires room { vec_len parts ≤ vec_capacity members }
    ensures pass { AreOf service.now pass.new.seats }
    ensures members { All (λ m. AreOf service.now m.pass.seats) result.items }
{
    while let Some(part) = parts.pop() {
        match split_one(alloc, service, pass, part) {
            Some(member) => members.push_reserved(member),
            None => return members,
        }
    }
    members
}

fn split_one<'a>(
    alloc: Global,
    service: &Service,
    pass: &mut Pass,
    part: Part<'a>,
) -> Option<Member<'a>>
    requires { AreOf service.now pass.old.seats }
    ensures pass { AreOf service.now pass.new.seats }
    ensures member { IfSome result (λ m. AreOf service.now m.pass.seats) }
{
    let Ok(theirs) = service.split_pass(alloc, pass) else {
        return None;
    };
    Some(Member { pass: theirs, part })
}

/// Has all of them act, and returns the nanoseconds until the last has ended.
fn act_timed<R: Threads + Wait + Clock + CpuClock + Sync>(
    rt: &R,
    service: &Service,
    members: &mut [Member],
) -> Option<u64>
    requires { All (λ m. AreOf service.now m.pass.seats) members.old }
    ensures { All (λ m. AreOf service.now m.pass.seats) members.new }
{
    let watch = Watch::start(rt, Time::Passed);
    act_all(rt, service, members);
    watch?.nanos(rt)
}

fn act_all<R: Threads + Wait + Clock + Sync>(rt: &R, service: &Service, members: &mut [Member])
    requires { All (λ m. AreOf service.now m.pass.seats) members.old }
    ensures { All (λ m. AreOf service.now m.pass.seats) members.new }
{
    let threads = members.len().max(1);
    for_each_mut(
        rt,
        members,
        threads,
        &|_, member: &mut Member|
            requires { IsSync R.row × AreOf service.now member.now.pass.seats }
            ensures { AreOf service.entry.now member.exit.now.pass.seats }
        { member.part.act(rt, service, &mut member.pass) },
    );
}

/// Joins the passes again, the last first.
fn join_all<'a>(
    alloc: Global,
    service: &Service,
    pass: &mut Pass,
    mut members: Vec<Member<'a>>,
) -> Option<Vec<Part<'a>>>
    requires pass { AreOf service.now pass.old.seats }
    requires members { All (λ m. AreOf service.now m.pass.seats) members.items }
    ensures { AreOf service.now pass.new.seats }
{
    let mut parts = Vec::new(alloc);
    let mut whole = true;
    while let Some(member) = members.pop() {
        whole &= join_one(service, pass, member, &mut parts);
    }
    members.destroy_empty();
    if whole { Some(parts) } else { None }
}

/// Joins one pass, and adds its part to the others. Returns `false` if memory is refused.
fn join_one<'a>(
    service: &Service,
    pass: &mut Pass,
    member: Member<'a>,
    parts: &mut Vec<Part<'a>>,
) -> bool
    requires pass { AreOf service.now pass.old.seats }
    requires member { AreOf service.now member.pass.seats }
    ensures { AreOf service.now pass.new.seats }
{
    let Member { pass: theirs, part } = member;
    service.join_pass(pass, theirs);
    parts.push(part).is_ok()
}
