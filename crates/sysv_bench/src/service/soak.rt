//! Random calls of eight threads on twenty queues, with a count of the messages.
ghost use Rattle.std.specs.Prelude.{◌≡◌, ◌<◌, ◌≤◌};
ghost use Rattle.sysv_service.specs.Seats.{AreOf};

use crate::bodies::Bodies;
use crate::caller::{Still, USER};
use crate::service::calls::{id_of, receive, send};
use crate::service::part::Part;
use crate::service::tallies::Tallies;
use crate::service::team::{Left, run};
use std::alloc::Global;
use std::io;
use std::sync::Wait;
use std::thread::{Threads, sleep};
use std::time::{Clock, CpuClock, Duration};
use sysv_model::{Cred, SetTo};
use sysv_service::{Pass, Service};

/// The keys count from 1. The queues of the keys up to `KEPT` are never removed before the end.
const KEYS: i32 = 20;

const KEPT: i32 = 10;

const SOAKERS: u64 = 8;

const BLOCKS: u32 = 1024;

/// The maximum number of times that all queues are emptied, so that the soak ends even if a message
/// was lost.
const DRAINS: u32 = 1_000_000;

/// The bytes after the number in a payload.
const PADDING: [u8; 200] = [b'x'; 200];

const ROOT: Cred = Cred {
    uid: 0,
    gid: 0,
    pid: 1,
};

/// A thread that makes random calls, and what it counted.
#[derive(Drop)]
pub(crate) struct Soaker<'a> {
    tallies: &'a Tallies,
    sender: u8,
    random: u64,
    /// The number of its next message.
    next: u64,
    received: u64,
    removed: u64,
    bodies: Bodies,
}

impl<'a> Soaker<'a> {
    fn open(alloc: Global, tallies: &'a Tallies, sender: u8) -> Option<Soaker<'a>> {
        let bodies = Bodies::open(alloc)?;
        Some(Soaker {
            tallies,
            sender,
            random: u64::from(sender),
            next: 0,
            received: 0,
            removed: 0,
            bodies,
        })
    }

    /// Returns a number below `end`.
    fn below(&mut self, end: u64) -> u64
        requires { 0 < end }
        ensures { result < end }
    {
        self.random = self
            .random
            .wrapping_mul(6_364_136_223_846_793_005)
            .wrapping_add(1_442_695_040_888_963_407);
        (self.random >> 33) % end
    }

    pub(crate) fn act(&mut self, rt: &impl Wait, service: &Service, pass: &mut Pass)
        requires { AreOf service.now pass.old.seats }
        ensures { AreOf service.now pass.new.seats }
    {
        for _ in 0..u64::MAX {
            if self.tallies.is_over() {
                break;
            }
            let key = 1 + self.below(20) as i32;
            self.call(rt, service, pass, key);
        }
        self.tallies.finish();
    }

    /// Makes a call on the queue of this key.
    fn call(&mut self, rt: &impl Wait, service: &Service, pass: &mut Pass, key: i32)
        requires { AreOf service.now pass.old.seats }
        ensures { AreOf service.now pass.new.seats }
    {
        let Some(id) = id_of(rt, service, pass, key) else {
            return;
        };
        let nowait = self.below(16) > 0;
        match self.below(32) {
            0..=14 => self.send(rt, service, pass, key, id, nowait),
            15..=29 => self.receive(rt, service, pass, key, id, nowait),
            30 => self.set(rt, service, pass, id),
            _ => self.remove(rt, service, pass, key, id),
        }
    }

    /// Writes the next message, with `size` bytes of padding.
    fn write(&mut self, size: usize)
        requires { size ≤ 200 }
    {
        self.bodies.text.clear();
        self.bodies.text.push_piece(&[self.sender]);
        self.bodies.text.push_piece(&self.next.to_be_bytes());
        self.bodies.text.push_piece(&PADDING[..size]);
    }

    /// Sends a message with the number of its sender and a number of its own.
    fn send(
        &mut self,
        rt: &impl Wait,
        service: &Service,
        pass: &mut Pass,
        key: i32,
        id: i32,
        nowait: bool,
    )
        requires { AreOf service.now pass.old.seats }
        ensures { AreOf service.now pass.new.seats }
    {
        let size = self.below(200) as usize;
        let mtype = 1 + self.below(3) as i64;
        self.write(size);
        let kept = key <= KEPT;
        if !self.tallies.begin_send(kept) {
            return;
        }
        if send(rt, service, pass, id, mtype, &self.bodies.text, nowait) {
            self.next = self.next.saturating_add(1);
        } else {
            self.tallies.withdraw(kept);
        }
    }

    /// Receives a message of any type, of one type, or of the lowest type up to one.
    fn receive(
        &mut self,
        rt: &impl Wait,
        service: &Service,
        pass: &mut Pass,
        key: i32,
        id: i32,
        nowait: bool,
    )
        requires { AreOf service.now pass.old.seats }
        ensures { AreOf service.now pass.new.seats }
    {
        let mtype = self.below(7) as i64 - 3;
        if receive(rt, service, pass, id, mtype, &mut self.bodies.out, nowait) {
            self.received = self.received.saturating_add(1);
            self.tallies.count(&self.bodies.out, key <= KEPT);
        }
    }

    /// Sets a limit that each message fits in.
    fn set(&mut self, rt: &impl Wait, service: &Service, pass: &mut Pass, id: i32)
        requires { AreOf service.now pass.old.seats }
        ensures { AreOf service.now pass.new.seats }
    {
        let to = SetTo {
            uid: 1000,
            gid: 1000,
            mode: 0o600,
            qbytes: 256 + self.below(16_000) as u32,
        };
        let _ = service.msgctl_set(rt, pass, &Still, ROOT, id, to);
    }

    /// Removes the queue, if its key is not kept.
    fn remove(&mut self, rt: &impl Wait, service: &Service, pass: &mut Pass, key: i32, id: i32)
        requires { AreOf service.now pass.old.seats }
        ensures { AreOf service.now pass.new.seats }
    {
        if key > KEPT && service.msgctl_rmid(rt, pass, USER, id).is_ok() {
            self.removed = self.removed.saturating_add(1);
        }
    }
}

/// The thread that ends the others. Until then it now and then sends to each queue and receives
/// from it, so that not all threads wait.
#[derive(Drop)]
pub(crate) struct Keeper<'a> {
    soaker: Soaker<'a>,
    /// The number of milliseconds that the others have.
    millis: u64,
}

impl Keeper<'_> {
    pub(crate) fn act<R: Wait + Clock>(&mut self, rt: &R, service: &Service, pass: &mut Pass)
        requires { AreOf service.now pass.old.seats }
        ensures { AreOf service.now pass.new.seats }
    {
        for _ in 0..self.millis {
            sleep(rt, Duration::from_millis(1));
            self.visit_all(rt, service, pass, true);
        }
        self.soaker.tallies.end();
        self.drain(rt, service, pass);
        self.stop(rt, service, pass);
    }

    /// Receives a message from each queue, and sends one to it if `sends`, without waiting.
    fn visit_all(&mut self, rt: &impl Wait, service: &Service, pass: &mut Pass, sends: bool)
        requires { AreOf service.now pass.old.seats }
        ensures { AreOf service.now pass.new.seats }
    {
        for key in 1..=KEYS {
            let Some(id) = id_of(rt, service, pass, key) else {
                continue;
            };
            self.soaker.receive(rt, service, pass, key, id, true);
            if sends {
                self.soaker.send(rt, service, pass, key, id, true);
            }
        }
    }

    /// Receives until all messages of the kept queues were received.
    fn drain(&mut self, rt: &impl Wait, service: &Service, pass: &mut Pass)
        requires { AreOf service.now pass.old.seats }
        ensures { AreOf service.now pass.new.seats }
    {
        for _ in 0..DRAINS {
            if self.soaker.tallies.is_drained() {
                break;
            }
            self.visit_all(rt, service, pass, false);
        }
    }

    /// Stops the service until all the others have ended.
    fn stop<R: Wait + Clock>(&mut self, rt: &R, service: &Service, pass: &mut Pass)
        requires { AreOf service.now pass.old.seats }
        ensures { AreOf service.now pass.new.seats }
    {
        for _ in 0..u64::MAX {
            let _ = service.stop(rt, pass);
            if self.soaker.tallies.finished() >= SOAKERS {
                break;
            }
            sleep(rt, Duration::from_millis(1));
        }
    }
}

/// Eight threads, and the one that ends them.
fn all_of<'a>(alloc: Global, tallies: &'a Tallies, seconds: u64) -> Option<Vec<Part<'a>>> {
    let mut parts = Vec::new(alloc);
    for sender in 0..SOAKERS as u8 {
        if !add_soaker(alloc, &mut parts, tallies, sender) {
            return None;
        }
    }
    if add_keeper(alloc, &mut parts, tallies, seconds) {
        Some(parts)
    } else {
        None
    }
}

/// Adds a thread that makes random calls. Returns `false` if memory is refused.
fn add_soaker<'a>(
    alloc: Global,
    parts: &mut Vec<Part<'a>>,
    tallies: &'a Tallies,
    sender: u8,
) -> bool {
    match Soaker::open(alloc, tallies, sender) {
        Some(soaker) => parts.push(Part::Soaks(soaker)).is_ok(),
        None => false,
    }
}

/// Adds the thread that ends the others. Returns `false` if memory is refused.
fn add_keeper<'a>(
    alloc: Global,
    parts: &mut Vec<Part<'a>>,
    tallies: &'a Tallies,
    seconds: u64,
) -> bool {
    let millis = seconds.saturating_mul(1000);
    match Soaker::open(alloc, tallies, SOAKERS as u8) {
        Some(soaker) => parts.push(Part::Keeps(Keeper { soaker, millis })).is_ok(),
        None => false,
    }
}

/// How many messages were sent and received, and how many queues were removed.
fn sums(parts: &[Part]) -> (u64, u64, u64) {
    let (mut sent, mut received, mut removed): (u64, u64, u64) = (0, 0, 0);
    for part in parts {
        if let Some(soaker) = soaker_of(part) {
            sent = sent.saturating_add(soaker.next);
            received = received.saturating_add(soaker.received);
            removed = removed.saturating_add(soaker.removed);
        }
    }
    (sent, received, removed)
}

/// Returns the part's soaker, if it has one.
fn soaker_of<'p, 'a>(part: &'p Part<'a>) -> Option<&'p Soaker<'a>> {
    match part {
        Part::Soaks(soaker) => Some(soaker),
        Part::Keeps(keeper) => Some(&keeper.soaker),
        _ => None,
    }
}

fn show_left(rt: &impl Print, left: &Left, tallies: &Tallies) -> io::Result<()> {
    let (sent, received, removed) = sums(&left.parts);
    let (kept, lost, doubled) = tallies.told();
    let closed = left.closed;
    println!(rt; "soak: {sent} sent, {received} received, {removed} queues removed")?;
    println!(rt; "soak: {kept} through the queues that were kept, {lost} lost, {doubled} doubled")?;
    println!(rt;
        "soak: waiting {}, free {} of {BLOCKS}, held {}",
        closed.waiting, closed.free, closed.held
    )
}

/// Has the threads call for `seconds` seconds, and prints what became of the messages.
pub(crate) fn soak<R: Threads + Wait + Clock + CpuClock + Print + Sync>(
    rt: &R,
    alloc: Global,
    seconds: u64,
) -> io::Result<()> {
    match Tallies::open(alloc) {
        Some(tallies) => soak_with(rt, alloc, &tallies, seconds),
        None => tell_refused(rt),
    }
}

fn soak_with<R: Threads + Wait + Clock + CpuClock + Print + Sync>(
    rt: &R,
    alloc: Global,
    tallies: &Tallies,
    seconds: u64,
) -> io::Result<()> {
    match left_by(rt, alloc, tallies, seconds) {
        Some(left) => show_left(rt, &left, tallies),
        None => tell_refused(rt),
    }
}

fn tell_refused(rt: &impl Print) -> io::Result<()> {
    println!(rt; "soak: no memory")
}

/// Has the threads call, and returns what is left, or `None` if memory is refused.
fn left_by<'a, R: Threads + Wait + Clock + CpuClock + Sync>(
    rt: &R,
    alloc: Global,
    tallies: &'a Tallies,
    seconds: u64,
) -> Option<Left<'a>> {
    let parts = all_of(alloc, tallies, seconds)?;
    run(rt, alloc, BLOCKS, KEYS, parts)
}
