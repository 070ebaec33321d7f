//! Threads that act at once, each with a pass of its own.
ghost use Rattle.std.specs.Prelude.{◌≡◌, [], ◌≤◌, vec_len, vec_capacity, length};
ghost use Rattle.std.specs.List.{All};
ghost use Rattle.std.specs.Thread.{IsSync};
ghost use Rattle.sysv_service.specs.Seats.{AreOf};

use crate::ask::{Ask, make};
use crate::board::Moment;
use crate::part::Part;
use crate::parts::opened;
use std::alloc::Global;
use std::process::Abort;
use std::sync::Wait;
use std::thread::{Threads, for_each_mut};
use std::time::Clock;
use sysv_service::{Closed, Pass, Service};

/// What is left of a service.
#[derive(Drop)]
pub(crate) struct Left<'a> {
    /// What the threads did, in the order in which they were passed in.
    pub(crate) parts: Vec<Part<'a>>,
    /// The number of live queues at the end.
    pub(crate) live: u32,
    pub(crate) closed: Closed,
}

/// Opens a service with this number of blocks and makes the calls, each of which must succeed. Then
/// has each part act in a thread of its own, and closes the service.
pub(crate) fn run<'a, R: Threads + Abort + Wait + Clock + Sync>(
    rt: &R,
    alloc: Global,
    blocks: u32,
    before: &[Ask],
    parts: Vec<Part<'a>>,
) -> Left<'a> {
    let (service, mut pass) = opened(rt, alloc, blocks, 0);
    for call in before {
        let told = make(rt, alloc, &service, &mut pass, Moment::Still, *call);
        assert!(rt; told.is_ok());
    }
    let parts = together(rt, alloc, &service, &mut pass, parts);
    let live = count_live(rt, &service, &mut pass);
    let closed = service.close(pass);
    Left {
        parts,
        live,
        closed,
    }
}

/// Returns the number of slots that have a live queue.
fn count_live(rt: &impl Wait, service: &Service, pass: &mut Pass) -> u32
    requires { AreOf service.now pass.old.seats }
    ensures { AreOf service.now pass.new.seats }
{
    let mut live: u32 = 0;
    for slot in 0..256 {
        if matches!(&service.list_row(rt, pass, slot), Ok(Some(_))) {
            live = live.saturating_add(1);
        }
    }
    live
}

/// A thread: its pass, and what it does.
struct Member<'a> {
    pass: Pass,
    part: Part<'a>,
}

/// Has each part act in a thread of its own, and returns the parts in their order.
fn together<'a, R: Threads + Abort + Wait + Clock + Sync>(
    rt: &R,
    alloc: Global,
    service: &Service,
    pass: &mut Pass,
    parts: Vec<Part<'a>>,
) -> Vec<Part<'a>>
    requires { AreOf service.now pass.old.seats }
    ensures { AreOf service.now pass.new.seats }
{
    let mut members = split_all(rt, alloc, service, pass, parts);
    act_all(rt, alloc, service, &mut members);
    join_all(rt, alloc, service, pass, members)
}

/// Gives each part a pass, the last first.
fn split_all<'a>(
    rt: &impl Abort,
    alloc: Global,
    service: &Service,
    pass: &mut Pass,
    mut parts: Vec<Part<'a>>,
) -> Vec<Member<'a>>
    requires { AreOf service.now pass.old.seats }
    ensures pass { AreOf service.now pass.new.seats }
    ensures members { All (λ m. AreOf service.now m.pass.seats) result.items }
{
    let mut members = Vec::with_capacity(alloc, parts.len()).expect(rt, "memory");
    while let Some(part) = parts.pop() {
        members.push_reserved(split_one(rt, alloc, service, pass, part));
    }
    members
}

fn split_one<'a>(
    rt: &impl Abort,
    alloc: Global,
    service: &Service,
    pass: &mut Pass,
    part: Part<'a>,
) -> Member<'a>
    requires { AreOf service.now pass.old.seats }
    ensures pass { AreOf service.now pass.new.seats }
    ensures member { AreOf service.now result.pass.seats }
{
    let pass = service.split_pass(alloc, pass).expect(rt, "a split");
    Member { pass, part }
}

/// Has all of them act.
fn act_all<R: Threads + Abort + Wait + Clock + Sync>(
    rt: &R,
    alloc: Global,
    service: &Service,
    members: &mut [Member],
)
    requires { All (λ m. AreOf service.now m.pass.seats) members.old }
    ensures { All (λ m. AreOf service.now m.pass.seats) members.new }
{
    let threads = members.len().max(1);
    for_each_mut(
        rt,
        members,
        threads,
        &|_, member: &mut Member|
            requires { IsSync R.row × AreOf service.now member.now.pass.seats }
            ensures { AreOf service.entry.now member.exit.now.pass.seats }
        { member.part.act(rt, alloc, service, &mut member.pass) },
    );
}

/// Takes the passes back, the last first.
fn join_all<'a>(
    rt: &impl Abort,
    alloc: Global,
    service: &Service,
    pass: &mut Pass,
    mut members: Vec<Member<'a>>,
) -> Vec<Part<'a>>
    requires pass { AreOf service.now pass.old.seats }
    requires members { All (λ m. AreOf service.now m.pass.seats) members.items }
    ensures { AreOf service.now pass.new.seats }
{
    let mut parts = Vec::with_capacity(alloc, members.len()).expect(rt, "memory");
    while let Some(member) = members.pop() {
        let Member { pass: theirs, part } = member;
        service.join_pass(pass, theirs);
        parts.push_reserved(part);
    }
    members.destroy_empty();
    parts
}
