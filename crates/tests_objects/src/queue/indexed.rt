//! A slot whose receives are compared with the plain rule on a list beside it, and a full slot with
//! a message of each of 256 types, whose messages are found by few reads. After the opening only
//! the list allocates.

ghost use Rattle.std.specs.Prelude.{◌≡◌, ◌+◌, ◌^◌, ◌<◌, ◌≤◌, length};
ghost use Rattle.sysv_model.specs.declared.limits.TheConstants.{QUEUE_MESSAGES};
ghost use Rattle.sysv_messages.specs.Probes.{IsFoundByFew};

use super::{SENDER, open_slot};
use crate::parts::{assert_is, give_back, open_body, open_pool, room};
use std::alloc::Global;
use std::marker::Brand;
use std::process::Abort;
use std::sync::ledger::{Blank, Ledger};
use sysv_model::{Body, QUEUE_MESSAGES, Selector};
use sysv_pool::Pool;
use sysv_queue::{QueueSlot, Steps, TakeRefused, Taken, Tally};
use sysv_rules::select_plain;

/// A slot with queue 0, with the pool and the body that its callers use.
struct Desk {
    slot: QueueSlot,
    pool: Pool,
    out: Body,
}

/// Opens all of it. Tolerates one refusal of memory.
fn open_desk(rt: &impl Abort, alloc: Global) -> Desk {
    let mut slot = open_slot(rt, alloc);
    assert_is(rt, slot.install(0, 0, SENDER, 0o600, 0), true);
    Desk {
        slot,
        pool: open_pool(rt, alloc, 512),
        out: open_body(rt, alloc),
    }
}

/// Ends the slot and the pool, and asserts that all blocks are then free.
fn end_desk(rt: &impl Abort, desk: Desk) {
    let Desk {
        slot,
        mut pool,
        out: _,
    } = desk;
    let chain = slot.end();
    give_back(rt, &mut pool, chain);
    assert_is(rt, pool.free(), 512);
    pool.end();
}

/// Sends an empty body of this type, and returns its acceptance number.
fn send(rt: &impl Abort, desk: &mut Desk, mtype: i64) -> u64 {
    let Some(chain) = desk.pool.reserve(0) else {
        panic!(rt; "no blocks are needed");
    };
    let (arrived, _) = desk.slot.counts();
    assert!(rt; arrived < 1 << 63);
    match desk.slot.place(0, SENDER, mtype, chain, 0, 7) {
        Ok(number) => number,
        Err(refused) => {
            give_back(rt, &mut desk.pool, refused.chain);
            panic!(rt; "{}", refused.why);
        }
    }
}

/// Returns the number and the type of a message that was taken.
fn finish(rt: &impl Abort, desk: &mut Desk, taken: Taken) -> (u64, i64) {
    let (delivery, chain) = taken.finish(0, &mut desk.out);
    give_back(rt, &mut desk.pool, chain);
    let found = (delivery.number(), delivery.mtype());
    let mut tally = Tally::open();
    delivery.written(&mut tally);
    found
}

/// Returns the number and the type of the message that a receive returns.
fn receive(rt: &impl Abort, desk: &mut Desk, sel: Selector) -> Option<(u64, i64)> {
    let (arrived, freed) = desk.slot.counts();
    assert!(rt; freed < 1 << 63);
    match desk.slot.take(0, SENDER, sel, 0, false, 9) {
        Ok(taken) => Some(finish(rt, desk, taken)),
        Err(why) => {
            assert_is(rt, why, TakeRefused::NoMatch { arrived });
            None
        }
    }
}

/// The numbers of the queued messages, in the order of acceptance, and their types.
#[derive(Drop)]
struct Beside {
    numbers: Vec<u64>,
    types: Vec<i64>,
}

impl Beside {
    fn open(rt: &impl Abort, alloc: Global) -> Beside {
        Beside {
            numbers: room(rt, alloc),
            types: room(rt, alloc),
        }
    }

    fn push(&mut self, rt: &impl Abort, number: u64, mtype: i64) {
        assert_is(rt, self.numbers.push(number).is_ok(), true);
        assert_is(rt, self.types.push(mtype).is_ok(), true);
    }

    /// Takes out what the plain rule selects.
    fn take(&mut self, rt: &impl Abort, sel: Selector) -> Option<(u64, i64)> {
        let place = select_plain(sel, &self.types)?;
        assert!(rt; place < self.numbers.len() && place < self.types.len());
        Some((self.numbers.remove(place), self.types.remove(place)))
    }
}

/// Returns the selector of a step, and the type of the message that the step sends.
fn script(step: u64) -> (Selector, i64)
    requires { step < 500 }
{
    let mixed = step * 13 % 17 + step / 7;
    let mtype = (mixed % 7) as i64 + 1;
    let sel = match step % 4 {
        0 => Selector::Any,
        1 => Selector::Exactly(mtype),
        2 => Selector::Except(mtype),
        _ => Selector::UpTo(mtype.unsigned_abs()),
    };
    (sel, mtype)
}

#[test]
fn takes_follow_the_plain_rule(rt: HostRuntime) {
    let mut desk = open_desk(&rt, rt.alloc());
    let mut beside = Beside::open(&rt, rt.alloc());
    for step in 0..500 {
        let (sel, mtype) = script(step);
        if step % 5 < 3 && beside.types.len() < QUEUE_MESSAGES {
            let number = send(&rt, &mut desk, mtype);
            beside.push(&rt, number, mtype);
        } else {
            let wanted = beside.take(&rt, sel);
            let received = receive(&rt, &mut desk, sel);
            assert_is(&rt, (sel, received), (sel, wanted));
        }
    }
    let (arrived, freed) = desk.slot.counts();
    assert_is(&rt, arrived, 300);
    assert_is(&rt, (freed > 150, beside.types.len() > 50), (true, true));
    end_desk(&rt, desk);
}

/// Returns the type of the message with this number. Each of 1 to 256 is returned once.
fn type_of_number(number: u64) -> i64
    requires { number < 256 }
{
    (number * 77 % 256) as i64 + 1
}

/// Fills the queue with a message of each type.
fn fill(rt: &impl Abort, desk: &mut Desk)
    ensures { length desk.new.slot.messages ≡ QUEUE_MESSAGES }
{
    for number in 0..256 {
        send(rt, desk, type_of_number(number));
    }
    assert_full(rt, &desk.slot);
}

/// Asserts that the queue has the maximum number of messages.
fn assert_full(rt: &impl Abort, slot: &QueueSlot)
    ensures { length slot.now.messages ≡ QUEUE_MESSAGES }
{
    let Some(row) = slot.row() else {
        panic!(rt; "no queue is live");
    };
    assert!(rt; row.qnum as usize == QUEUE_MESSAGES);
}

/// Takes a message of a full queue by at most 11 reads, since 256 has nine binary digits.
fn take_by_few<L: Ledger>(
    slot: &mut QueueSlot,
    sel: Selector,
    steps: &mut Steps<L>,
) -> Result<Taken, TakeRefused>
    requires full { length slot.old.messages ≡ QUEUE_MESSAGES }
    requires freed { slot.old.freed < 2 ^ 63 }
    ensures { IsFoundByFew sel → steps.new ≤ steps.old + 11 }
{
    slot.take_counted(0, SENDER, sel, 0, false, 9, steps)
}

/// Takes a message in the same way, with a step counter that is opened and dropped here.
fn take_from_full<L: Ledger>(
    slot: &mut QueueSlot,
    sel: Selector,
    blank: Blank,
) -> Result<Taken, TakeRefused>
    requires full { length slot.old.messages ≡ QUEUE_MESSAGES }
    requires freed { slot.old.freed < 2 ^ 63 }
    requires name { blank.name ≡ L.name }
    requires parts { blank.parts ≡ L.parts }
    requires some { 0 < blank.parts }
{
    let mut steps = Steps::<L>::open(blank);
    take_by_few(slot, sel, &mut steps)
}

/// Removes the queue with its messages, and makes queue 0 again.
fn empty(rt: &impl Abort, desk: &mut Desk) {
    let (arrived, freed) = desk.slot.counts();
    assert!(rt; arrived < 1 << 63);
    assert!(rt; freed < 1 << 63);
    match desk.slot.remove(0, SENDER) {
        Ok(discarded) => give_back(rt, &mut desk.pool, discarded.into_chain()),
        Err(why) => panic!(rt; "{why:?}"),
    }
    assert_is(rt, desk.slot.install(0, 0, SENDER, 0o600, 0), true);
}

#[test]
fn every_type_but_one_comes_in_order(rt: HostRuntime) {
    let mut desk = open_desk(&rt, rt.alloc());
    fill(&rt, &mut desk);
    for number in 1..256 {
        let wanted = (number, type_of_number(number));
        assert_is(
            &rt,
            receive(&rt, &mut desk, Selector::Except(1)),
            Some(wanted),
        );
    }
    assert_is(&rt, receive(&rt, &mut desk, Selector::Except(1)), None);
    assert_is(
        &rt,
        receive(&rt, &mut desk, Selector::Except(2)),
        Some((0, 1)),
    );
    end_desk(&rt, desk);
}

#[test]
fn a_full_queue_gives_each_type_by_few_reads(rt: HostRuntime) {
    let mut desk = open_desk(&rt, rt.alloc());
    for mtype in 1..257 {
        fill(&rt, &mut desk);
        let (_, freed) = desk.slot.counts();
        assert!(rt; freed < 1 << 63);
        let taken = take_from_full::<Brand>(
            &mut desk.slot,
            Selector::Exactly(mtype),
            Blank::new(1),
        );
        match taken {
            Ok(taken) => {
                let (_, found) = finish(&rt, &mut desk, taken);
                assert_is(&rt, found, mtype);
            }
            Err(why) => panic!(&rt; "{why}"),
        }
        empty(&rt, &mut desk);
    }
    end_desk(&rt, desk);
}
