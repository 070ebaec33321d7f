//! Messages that are put in and taken out by each kind of selector, refusals, and stores that end
//! with messages in them.

ghost use Rattle.std.specs.Prelude.{◌≡◌, ◌+◌, ◌<◌, []};
ghost use Rattle.std.specs.List.{All};
ghost use Rattle.sysv_model.specs.Message.{Message};

use crate::parts::{assert_holds, assert_is, give_back, open_body, open_pool};
use std::alloc::Global;
use std::marker::Brand;
use std::process::Abort;
use std::sync::ledger::{Blank, Ledger};
use sysv_messages::{Messages, NotTaken, Steps, Waiting};
use sysv_model::{Body, NoMemory, QUEUE_MESSAGES, Selector};
use sysv_pool::{Chain, Pool};

/// A store, with the pool and the bodies that its callers use.
struct Desk {
    messages: Messages,
    pool: Pool,
    text: Body,
    out: Body,
}

/// What a receive returned, in a form that can be compared.
#[derive(Clone, Copy, PartialEq, Eq, Debug)]
struct Received {
    number: u64,
    sender: u32,
    mtype: i64,
    len: usize,
}

/// Opens a store without messages. Tolerates one refusal of memory.
fn open_messages(rt: &impl Abort, alloc: Global) -> Messages
    ensures { result ≡ [] }
{
    match Messages::open(alloc) {
        Ok(messages) => messages,
        Err(NoMemory) => match Messages::open(alloc) {
            Ok(messages) => messages,
            Err(NoMemory) => panic!(rt; "a second try"),
        },
    }
}

/// Opens a store without messages beside a pool of 512 blocks.
fn open_desk(rt: &impl Abort, alloc: Global) -> Desk
    ensures { result.messages ≡ [] }
{
    Desk {
        text: open_body(rt, alloc),
        out: open_body(rt, alloc),
        messages: open_messages(rt, alloc),
        pool: open_pool(rt, alloc, 512),
    }
}

/// Ends the store, whose messages have this number of blocks, and asserts that all blocks of the
/// pool are then free.
fn end_desk(rt: &impl Abort, desk: Desk, blocks: u32) {
    let Desk {
        messages,
        mut pool,
        text: _,
        out: _,
    } = desk;
    let chain = messages.end();
    assert_is(rt, chain.blocks(), blocks);
    give_back(rt, &mut pool, chain);
    assert_is(rt, pool.free(), 512);
    pool.end();
}

/// Puts in a message of process 101 with this body.
fn send(rt: &impl Abort, desk: &mut Desk, number: u64, mtype: i64, text: &[u8])
    requires { All (λ (m : Message). m.number < number) desk.old.messages }
    ensures { All (λ (m : Message). m.number < number + 1) desk.new.messages }
{
    desk.text.clear();
    assert_is(rt, desk.text.push_piece(text), true);
    let size = desk.text.len();
    assert!(rt; size <= 8192);
    let Some(mut chain) = desk.pool.reserve(size) else {
        panic!(rt; "too few blocks for {size} bytes");
    };
    chain.fill(&desk.text);
    assert!(rt; desk.messages.len() < QUEUE_MESSAGES);
    assert!(rt; desk.messages.bytes() < 1 << 30);
    desk.messages.push(number, 101, mtype, chain, size);
}

/// Takes a message, with a step counter that is opened and dropped here.
fn take_with<L: Ledger>(
    messages: &mut Messages,
    sel: Selector,
    most: usize,
    blank: Blank,
) -> Result<Waiting, NotTaken>
    requires name { blank.name ≡ L.name }
    requires parts { blank.parts ≡ L.parts }
    requires some { 0 < blank.parts }
{
    let mut steps = Steps::<L>::open(blank);
    messages.take(sel, most, &mut steps)
}

/// Receives a body of at most `most` bytes into `out`, and gives its blocks back to the pool.
fn receive(
    rt: &impl Abort,
    desk: &mut Desk,
    sel: Selector,
    most: usize,
) -> Result<Received, NotTaken> {
    let message = take_with::<Brand>(&mut desk.messages, sel, most, Blank::new(1))?;
    let received = Received {
        number: message.number(),
        sender: message.sender(),
        mtype: message.mtype(),
        len: message.len(),
    };
    let chain = message.into_chain();
    desk.out.clear();
    chain.copy_out(received.len, &mut desk.out);
    give_back(rt, &mut desk.pool, chain);
    Ok(received)
}

/// Returns what a receive returns for a message that `send` put in.
fn sent(number: u64, mtype: i64, len: usize) -> Received {
    Received {
        number,
        sender: 101,
        mtype,
        len,
    }
}

/// Asserts that a receive of at most `most` bytes has this result.
fn assert_receives(
    rt: &impl Abort,
    desk: &mut Desk,
    sel: Selector,
    most: usize,
    wanted: Result<Received, NotTaken>,
) {
    let received = receive(rt, desk, sel, most);
    assert_is(rt, (sel, received), (sel, wanted));
}

/// Asserts that this number of messages with this number of bytes is queued.
fn assert_waiting(rt: &impl Abort, desk: &Desk, waiting: (usize, u32)) {
    assert_is(rt, (desk.messages.len(), desk.messages.bytes()), waiting);
}

/// Opens a store with messages 3 to 6, of types 5, 2, 5 and 9.
fn open_with_four(rt: &impl Abort, alloc: Global) -> Desk {
    let mut desk = open_desk(rt, alloc);
    send(rt, &mut desk, 3, 5, b"first");
    send(rt, &mut desk, 4, 2, &[7; 130]);
    send(rt, &mut desk, 5, 5, b"");
    send(rt, &mut desk, 6, 9, b"last");
    assert_waiting(rt, &desk, (4, 139));
    assert_is(rt, desk.pool.free(), 507);
    desk
}

/// Asserts that refused receives leave all four messages.
fn assert_refusals(rt: &impl Abort, desk: &mut Desk) {
    let none = Err(NotTaken::NoneQualifies);
    let too_long = Err(NotTaken::TooLong);
    assert_receives(rt, desk, Selector::Exactly(4), 8192, none);
    assert_receives(rt, desk, Selector::UpTo(8), 129, too_long);
    assert_waiting(rt, desk, (4, 139));
    assert_receives(rt, desk, Selector::Except(5), 129, too_long);
    assert_waiting(rt, desk, (4, 139));
}

#[test]
fn messages_come_and_go(rt: HostRuntime) {
    let mut desk = open_with_four(&rt, rt.alloc());
    assert_refusals(&rt, &mut desk);
    let second = sent(4, 2, 130);
    assert_receives(&rt, &mut desk, Selector::UpTo(8), 130, Ok(second));
    assert_holds(&rt, &desk.out, &[7; 130]);
    let first = sent(3, 5, 5);
    assert_receives(&rt, &mut desk, Selector::Exactly(5), 8192, Ok(first));
    assert_holds(&rt, &desk.out, b"first");
    let empty = sent(5, 5, 0);
    assert_receives(&rt, &mut desk, Selector::Any, 0, Ok(empty));
    assert_holds(&rt, &desk.out, b"");
    assert_waiting(&rt, &desk, (1, 4));
    let last = sent(6, 9, 4);
    let none = Err(NotTaken::NoneQualifies);
    assert_receives(&rt, &mut desk, Selector::Except(9), 8192, none);
    assert_receives(&rt, &mut desk, Selector::Except(5), 8192, Ok(last));
    assert_holds(&rt, &desk.out, b"last");
    assert_waiting(&rt, &desk, (0, 0));
    end_desk(&rt, desk, 0);
}

#[test]
fn a_store_ends_with_what_waits(rt: HostRuntime) {
    let mut desk = open_desk(&rt, rt.alloc());
    send(&rt, &mut desk, 7, 1, b"more");
    assert_waiting(&rt, &desk, (1, 4));
    assert_is(&rt, desk.pool.free(), 511);
    end_desk(&rt, desk, 1);
}

/// Opens a full store whose last message is the only one of type 2.
fn open_full(rt: &impl Abort, alloc: Global) -> Desk {
    let mut desk = open_desk(rt, alloc);
    for number in 0..255 {
        send(rt, &mut desk, number, 1, b"");
    }
    send(rt, &mut desk, 255, 2, b"");
    desk
}

#[test]
fn a_full_store_is_walked_to_its_end(rt: HostRuntime) {
    let mut desk = open_full(&rt, rt.alloc());
    assert_waiting(&rt, &desk, (256, 0));
    let last = sent(255, 2, 0);
    let first = sent(0, 1, 0);
    let none = Err(NotTaken::NoneQualifies);
    assert_receives(&rt, &mut desk, Selector::Except(2), 0, Ok(first));
    assert_receives(&rt, &mut desk, Selector::Except(1), 0, Ok(last));
    assert_receives(&rt, &mut desk, Selector::Except(1), 0, none);
    assert_waiting(&rt, &desk, (254, 0));
    end_desk(&rt, desk, 0);
}

#[test]
fn all_messages_are_taken(rt: HostRuntime) {
    let mut desk = open_desk(&rt, rt.alloc());
    send(&rt, &mut desk, 0, 1, &[1; 64]);
    send(&rt, &mut desk, 1, 1, &[2; 65]);
    let all = desk.messages.take_all();
    assert_is(&rt, all.blocks(), 3);
    give_back(&rt, &mut desk.pool, all);
    assert_waiting(&rt, &desk, (0, 0));
    send(&rt, &mut desk, 0, 1, &[3; 128]);
    end_desk(&rt, desk, 2);
}
