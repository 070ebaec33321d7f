//! Messages that are sent and received, receives by each kind of selector, callers of each class,
//! receipts, and refusals in their order.

mod control;
mod indexed;
mod no_growths;

use crate::parts::{assert_holds, assert_is, give_back, open_body, open_pool};
use bitflags::Flags as _;
use std::alloc::Global;
use std::process::Abort;
use sysv_model::{Body, Cred, Errno, Flags, NoMemory, Perm, Row, Selector, SetTo, Stat};
use sysv_pool::{Chain, Pool};
use sysv_queue::{Delivery, Look, PlaceRefused, Probe, QueueSlot, TakeRefused, Tally, Unplaced};

const SENDER: Cred = Cred {
    uid: 1000,
    gid: 1000,
    pid: 101,
};

const RECEIVER: Cred = Cred {
    uid: 1000,
    gid: 1000,
    pid: 102,
};

/// Another user in the queue's group.
const MEMBER: Cred = Cred {
    uid: 1001,
    gid: 1000,
    pid: 103,
};

/// Another user in another group.
const STRANGER: Cred = Cred {
    uid: 1002,
    gid: 1002,
    pid: 104,
};

const USER_ZERO: Cred = Cred {
    uid: 0,
    gid: 1002,
    pid: 105,
};

/// A slot, with the pool and the bodies that its callers use.
struct Desk {
    slot: QueueSlot,
    pool: Pool,
    text: Body,
    out: Body,
}

/// What a receive returned, in a form that can be compared.
#[derive(Clone, Copy, PartialEq, Eq, Debug)]
struct Received {
    mtype: i64,
    len: usize,
    sender: u32,
    number: u64,
}

/// Opens a vacant slot. Tolerates one refusal of memory.
fn open_slot(rt: &impl Abort, alloc: Global) -> QueueSlot {
    match QueueSlot::open(alloc) {
        Ok(slot) => slot,
        Err(NoMemory) => match QueueSlot::open(alloc) {
            Ok(slot) => slot,
            Err(NoMemory) => panic!(rt; "a second try"),
        },
    }
}

/// Opens a vacant slot beside a pool of 512 blocks.
fn open_desk(rt: &impl Abort, alloc: Global) -> Desk {
    Desk {
        text: open_body(rt, alloc),
        out: open_body(rt, alloc),
        slot: open_slot(rt, alloc),
        pool: open_pool(rt, alloc, 512),
    }
}

/// Opens a slot with queue 0.
fn desk_with_queue(rt: &impl Abort, alloc: Global) -> Desk {
    let mut desk = open_desk(rt, alloc);
    assert_is(rt, desk.slot.install(0, 0, SENDER, 0o600, 0), true);
    desk
}

/// Opens a slot with queue 0, which its group may read.
fn desk_with_shared_queue(rt: &impl Abort, alloc: Global) -> Desk {
    let mut desk = open_desk(rt, alloc);
    assert_is(rt, desk.slot.install(0, 0, SENDER, 0o640, 0), true);
    desk
}

/// Ends the slot, whose queued messages have this number of blocks, and asserts that all blocks of
/// the pool are then free.
fn end_desk(rt: &impl Abort, desk: Desk, blocks: u32) {
    let Desk {
        slot,
        mut pool,
        text: _,
        out: _,
    } = desk;
    let chain = slot.end();
    assert_is(rt, chain.blocks(), blocks);
    give_back(rt, &mut pool, chain);
    assert_is(rt, pool.free(), 512);
    pool.end();
}

/// Sends this body to queue `id`. Asserts that a refused chain is handed back unchanged.
fn send_as(
    rt: &impl Abort,
    desk: &mut Desk,
    id: i32,
    cred: Cred,
    mtype: i64,
    text: &[u8],
) -> Result<u64, Unplaced> {
    desk.text.clear();
    assert_is(rt, desk.text.push_piece(text), true);
    let size = desk.text.len();
    assert!(rt; size <= 8192);
    let Some(mut chain) = desk.pool.reserve(size) else {
        panic!(rt; "too few blocks for {size} bytes");
    };
    chain.fill(&desk.text);
    let (arrived, _) = desk.slot.counts();
    assert!(rt; arrived < 1 << 63);
    let free = desk.pool.free();
    match desk.slot.place(id, cred, mtype, chain, size, 7) {
        Ok(number) => Ok(number),
        Err(PlaceRefused { why, chain }) => {
            desk.out.clear();
            chain.copy_out(size, &mut desk.out);
            assert_holds(rt, &desk.out, text);
            give_back(rt, &mut desk.pool, chain);
            assert!(rt; free <= 512 && size <= 8192);
            assert_is(rt, desk.pool.free(), free + size.div_ceil(64) as u32);
            Err(why)
        }
    }
}

/// Sends this body from the sender to queue 0.
fn send(rt: &impl Abort, desk: &mut Desk, mtype: i64, text: &[u8]) -> Result<u64, Unplaced> {
    send_as(rt, desk, 0, SENDER, mtype, text)
}

/// Returns what a delivery has, and spends the delivery as written.
fn written(rt: &impl Abort, delivery: Delivery) -> Received {
    let got = Received {
        mtype: delivery.mtype(),
        len: delivery.len(),
        sender: delivery.sender(),
        number: delivery.number(),
    };
    let mut tally = Tally::open();
    delivery.written(&mut tally);
    assert_is(
        rt,
        (tally.taken(), tally.written(), tally.lost()),
        (1, 1, 0),
    );
    got
}

/// Receives `size` bytes of a message of queue `id` into `out`. Asserts that the blocks of the
/// whole body are handed back.
fn take_as(
    rt: &impl Abort,
    desk: &mut Desk,
    id: i32,
    cred: Cred,
    sel: Selector,
    size: u32,
    noerror: bool,
) -> Result<Received, TakeRefused> {
    let (_, freed) = desk.slot.counts();
    assert!(rt; freed < 1 << 63);
    let taken = desk.slot.take(id, cred, sel, size, noerror, 9)?;
    let (delivery, chain) = taken.finish(size, &mut desk.out);
    give_back(rt, &mut desk.pool, chain);
    Ok(written(rt, delivery))
}

/// Receives any message from queue 0.
fn receive(
    rt: &impl Abort,
    desk: &mut Desk,
    size: u32,
    noerror: bool,
) -> Result<Received, TakeRefused> {
    take_as(rt, desk, 0, RECEIVER, Selector::Any, size, noerror)
}

/// Receives a body of at most 100 bytes from queue `id`.
fn receive_as(
    rt: &impl Abort,
    desk: &mut Desk,
    id: i32,
    cred: Cred,
    sel: Selector,
) -> Result<Received, TakeRefused> {
    take_as(rt, desk, id, cred, sel, 100, false)
}

/// Returns what a receive of this body from the sender returns.
fn got(mtype: i64, text: &[u8], number: u64) -> Received {
    Received {
        mtype,
        len: text.len(),
        sender: 101,
        number,
    }
}

/// Asserts that queue `id` finds this for a body of `size` bytes.
fn assert_looks(rt: &impl Abort, desk: &Desk, id: i32, cred: Cred, size: usize, found: Look) {
    let looked = desk.slot.look(id, cred, size);
    assert_is(rt, (id, size, looked), (id, size, found));
}

/// Asserts the arrived count and the freed count.
fn assert_counts(rt: &impl Abort, desk: &Desk, counts: (u64, u64)) {
    assert_is(rt, desk.slot.counts(), counts);
}

/// Asserts that a send of this body to queue `id` has this result.
fn assert_sends_as(
    rt: &impl Abort,
    desk: &mut Desk,
    id: i32,
    cred: Cred,
    mtype: i64,
    text: &[u8],
    wanted: Result<u64, Unplaced>,
) {
    assert_is(rt, send_as(rt, desk, id, cred, mtype, text), wanted);
}

/// Asserts that a send of this body to queue 0 has this result.
fn assert_sends(
    rt: &impl Abort,
    desk: &mut Desk,
    mtype: i64,
    text: &[u8],
    wanted: Result<u64, Unplaced>,
) {
    assert_sends_as(rt, desk, 0, SENDER, mtype, text, wanted);
}

/// Asserts that a receive of at most 100 bytes from queue `id` has this result.
fn assert_receives_as(
    rt: &impl Abort,
    desk: &mut Desk,
    id: i32,
    cred: Cred,
    sel: Selector,
    wanted: Result<Received, TakeRefused>,
) {
    let received = receive_as(rt, desk, id, cred, sel);
    assert_is(rt, (sel, received), (sel, wanted));
}

/// Asserts that a receive of any message of queue 0 has this result.
fn assert_receives(
    rt: &impl Abort,
    desk: &mut Desk,
    size: u32,
    noerror: bool,
    wanted: Result<Received, TakeRefused>,
) {
    let received = receive(rt, desk, size, noerror);
    assert_is(rt, (size, received), (size, wanted));
}

#[test]
fn a_vacant_slot_has_no_queue(rt: HostRuntime) {
    let mut desk = open_desk(&rt, rt.alloc());
    assert_counts(&rt, &desk, (0, 0));
    assert_looks(&rt, &desk, 0, SENDER, 0, Look::Gone);
    assert_sends(&rt, &mut desk, 5, b"hello", Err(Unplaced::Gone));
    assert_receives(&rt, &mut desk, 100, true, Err(TakeRefused::Gone));
    assert_counts(&rt, &desk, (0, 0));
    end_desk(&rt, desk, 0);
}

#[test]
fn an_installed_queue_stays(rt: HostRuntime) {
    let mut desk = open_desk(&rt, rt.alloc());
    assert_is(&rt, desk.slot.install(0, 0, SENDER, 0o600, 0), true);
    assert_is(&rt, desk.slot.install(64, 7, RECEIVER, 0o777, 1), false);
    assert_looks(&rt, &desk, 0, RECEIVER, 16_384, Look::Fits);
    assert_looks(&rt, &desk, 64, RECEIVER, 0, Look::Gone);
    assert_looks(&rt, &desk, -1, RECEIVER, 0, Look::Gone);
    assert_counts(&rt, &desk, (0, 0));
    end_desk(&rt, desk, 0);
}

#[test]
fn messages_leave_in_order(rt: HostRuntime) {
    let mut desk = desk_with_queue(&rt, rt.alloc());
    assert_receives(
        &rt,
        &mut desk,
        100,
        false,
        Err(TakeRefused::NoMatch { arrived: 0 }),
    );
    let messages: [(i64, &[u8], u64); 3] = [(5, b"hello", 0), (2, b"", 1), (9, b"last", 2)];
    for (mtype, text, number) in messages {
        assert_sends(&rt, &mut desk, mtype, text, Ok(number));
    }
    assert_counts(&rt, &desk, (3, 0));
    for (mtype, text, number) in messages {
        assert_receives(&rt, &mut desk, 100, false, Ok(got(mtype, text, number)));
        assert_holds(&rt, &desk.out, text);
    }
    assert_receives(
        &rt,
        &mut desk,
        100,
        false,
        Err(TakeRefused::NoMatch { arrived: 3 }),
    );
    assert_holds(&rt, &desk.out, b"last");
    assert_counts(&rt, &desk, (3, 3));
    end_desk(&rt, desk, 0);
}

#[test]
fn a_long_message_stays_or_is_cut(rt: HostRuntime) {
    let mut desk = desk_with_queue(&rt, rt.alloc());
    assert_sends(&rt, &mut desk, 1, b"0123456789", Ok(0));
    for size in [0, 4, 9] {
        assert_receives(&rt, &mut desk, size, false, Err(TakeRefused::TooLong));
        assert_counts(&rt, &desk, (1, 0));
    }
    assert_receives(&rt, &mut desk, 4, true, Ok(got(1, b"0123", 0)));
    assert_holds(&rt, &desk.out, b"0123");
    assert_receives(
        &rt,
        &mut desk,
        4,
        true,
        Err(TakeRefused::NoMatch { arrived: 1 }),
    );
    assert_counts(&rt, &desk, (1, 1));
    end_desk(&rt, desk, 0);
}

#[test]
fn bytes_fill_a_queue(rt: HostRuntime) {
    let mut desk = desk_with_queue(&rt, rt.alloc());
    let bytes = [b'x'; 8192];
    let full = Err(Unplaced::Full { freed: 0 });
    for (size, want) in [(8192, Ok(0)), (8192, Ok(1)), (1, full), (0, Ok(2))] {
        assert!(rt; size <= bytes.len());
        assert_sends(&rt, &mut desk, 1, &bytes[..size], want);
    }
    assert_looks(&rt, &desk, 0, SENDER, 1, Look::Full { freed: 0 });
    assert_looks(&rt, &desk, 0, SENDER, 0, Look::Fits);
    assert_receives(&rt, &mut desk, 8192, false, Ok(got(1, &bytes, 0)));
    assert_holds(&rt, &desk.out, &bytes);
    assert_looks(&rt, &desk, 0, SENDER, 8192, Look::Fits);
    assert_looks(&rt, &desk, 0, SENDER, 8193, Look::Full { freed: 1 });
    end_desk(&rt, desk, 128);
}

#[test]
fn messages_fill_a_queue(rt: HostRuntime) {
    let mut desk = desk_with_queue(&rt, rt.alloc());
    for number in 0..256 {
        assert_sends(&rt, &mut desk, 1, b"", Ok(number));
    }
    assert_sends(&rt, &mut desk, 1, b"", Err(Unplaced::Full { freed: 0 }));
    assert_looks(&rt, &desk, 0, SENDER, 0, Look::Full { freed: 0 });
    assert_receives(&rt, &mut desk, 0, false, Ok(got(1, b"", 0)));
    assert_sends(&rt, &mut desk, 1, b"", Ok(256));
    assert_counts(&rt, &desk, (257, 1));
    end_desk(&rt, desk, 0);
}

#[test]
fn a_selector_names_one_message(rt: HostRuntime) {
    let mut desk = desk_with_queue(&rt, rt.alloc());
    let messages: [(i64, &[u8], u64); 4] = [(5, b"a", 0), (2, b"b", 1), (5, b"c", 2), (7, b"d", 3)];
    for (mtype, text, number) in messages {
        assert_sends(&rt, &mut desk, mtype, text, Ok(number));
    }
    let receives: [(Selector, i64, &[u8], u64); 4] = [
        (Selector::Exactly(5), 5, b"a", 0),
        (Selector::UpTo(4), 2, b"b", 1),
        (Selector::Except(5), 7, b"d", 3),
        (Selector::Any, 5, b"c", 2),
    ];
    for (sel, mtype, text, number) in receives {
        assert_receives_as(
            &rt,
            &mut desk,
            0,
            RECEIVER,
            sel,
            Ok(got(mtype, text, number)),
        );
        assert_holds(&rt, &desk.out, text);
    }
    assert_counts(&rt, &desk, (4, 4));
    end_desk(&rt, desk, 0);
}

/// Asserts that this caller may send to queue 0.
fn assert_writes(rt: &impl Abort, desk: &mut Desk, cred: Cred) {
    assert_looks(rt, desk, 0, cred, 4, Look::Fits);
    let sent = send_as(rt, desk, 0, cred, 1, b"text");
    assert_is(rt, (cred, sent.is_ok()), (cred, true));
}

/// Asserts that this caller may not send to queue 0, and sends as its owner.
fn assert_may_not_write(rt: &impl Abort, desk: &mut Desk, cred: Cred) {
    assert_looks(rt, desk, 0, cred, 4, Look::Denied);
    assert_sends_as(rt, desk, 0, cred, 1, b"text", Err(Unplaced::Denied));
    let sent = send(rt, desk, 1, b"text");
    assert_is(rt, (cred, sent.is_ok()), (cred, true));
}

/// Asserts that this caller may receive from queue 0.
fn assert_reads(rt: &impl Abort, desk: &mut Desk, cred: Cred) {
    let given = receive_as(rt, desk, 0, cred, Selector::Any);
    assert_is(rt, (cred, given.is_ok()), (cred, true));
    assert_holds(rt, &desk.out, b"text");
}

#[test]
fn each_class_has_its_own_bits(rt: HostRuntime) {
    let mut desk = desk_with_shared_queue(&rt, rt.alloc());
    let callers = [
        (SENDER, true, true),
        (MEMBER, false, true),
        (STRANGER, false, false),
        (USER_ZERO, true, true),
    ];
    for (cred, writes, reads) in callers {
        if writes {
            assert_writes(&rt, &mut desk, cred);
        } else {
            assert_may_not_write(&rt, &mut desk, cred);
        }
        if reads {
            assert_reads(&rt, &mut desk, cred);
        } else {
            assert_refuses(&rt, &mut desk, cred, Selector::Any, TakeRefused::Denied);
        }
    }
    assert_counts(&rt, &desk, (4, 3));
    end_desk(&rt, desk, 1);
}

#[test]
fn the_identifier_is_asked_first(rt: HostRuntime) {
    let mut desk = desk_with_shared_queue(&rt, rt.alloc());
    assert_looks(&rt, &desk, 64, STRANGER, 0, Look::Gone);
    assert_sends_as(
        &rt,
        &mut desk,
        64,
        STRANGER,
        1,
        b"text",
        Err(Unplaced::Gone),
    );
    assert_receives_as(
        &rt,
        &mut desk,
        64,
        STRANGER,
        Selector::Any,
        Err(TakeRefused::Gone),
    );
    assert_counts(&rt, &desk, (0, 0));
    end_desk(&rt, desk, 0);
}

#[test]
fn permission_is_asked_before_messages(rt: HostRuntime) {
    let mut desk = desk_with_shared_queue(&rt, rt.alloc());
    assert_refuses(&rt, &mut desk, STRANGER, Selector::Any, TakeRefused::Denied);
    assert_refuses(
        &rt,
        &mut desk,
        MEMBER,
        Selector::Any,
        TakeRefused::NoMatch { arrived: 0 },
    );
    assert_counts(&rt, &desk, (0, 0));
    end_desk(&rt, desk, 0);
}

/// Asserts that a receive from queue 0 is refused for this reason.
fn assert_refuses(rt: &impl Abort, desk: &mut Desk, cred: Cred, sel: Selector, why: TakeRefused) {
    assert_receives_as(rt, desk, 0, cred, sel, Err(why));
}

#[test]
fn permission_is_asked_before_room_and_length(rt: HostRuntime) {
    let mut desk = desk_with_shared_queue(&rt, rt.alloc());
    let bytes = [b'x'; 8192];
    for number in 0..2 {
        assert_sends(&rt, &mut desk, 1, &bytes, Ok(number));
    }
    assert_looks(&rt, &desk, 0, STRANGER, 1, Look::Denied);
    assert_looks(&rt, &desk, 0, SENDER, 1, Look::Full { freed: 0 });
    assert_sends_as(
        &rt,
        &mut desk,
        0,
        STRANGER,
        1,
        b"text",
        Err(Unplaced::Denied),
    );
    assert_sends(&rt, &mut desk, 1, b"text", Err(Unplaced::Full { freed: 0 }));
    assert_refuses(&rt, &mut desk, STRANGER, Selector::Any, TakeRefused::Denied);
    assert_refuses(
        &rt,
        &mut desk,
        MEMBER,
        Selector::Exactly(2),
        TakeRefused::NoMatch { arrived: 2 },
    );
    assert_refuses(&rt, &mut desk, MEMBER, Selector::Any, TakeRefused::TooLong);
    assert_counts(&rt, &desk, (2, 0));
    end_desk(&rt, desk, 256);
}

#[test]
fn the_named_message_is_measured(rt: HostRuntime) {
    let mut desk = desk_with_queue(&rt, rt.alloc());
    let bytes = [b'x'; 101];
    assert_sends(&rt, &mut desk, 5, b"short", Ok(0));
    assert_sends(&rt, &mut desk, 2, &bytes, Ok(1));
    assert_receives_as(
        &rt,
        &mut desk,
        0,
        RECEIVER,
        Selector::UpTo(5),
        Err(TakeRefused::TooLong),
    );
    assert_receives_as(
        &rt,
        &mut desk,
        0,
        RECEIVER,
        Selector::Exactly(5),
        Ok(got(5, b"short", 0)),
    );
    assert_counts(&rt, &desk, (2, 1));
    end_desk(&rt, desk, 2);
}

#[test]
fn a_cut_text_gives_back_its_whole_chain(rt: HostRuntime) {
    let mut desk = desk_with_queue(&rt, rt.alloc());
    let sent = send(&rt, &mut desk, 1, &[b'x'; 130]);
    assert_is(&rt, sent, Ok(0));
    assert_is(&rt, desk.pool.free(), 509);
    assert_receives(&rt, &mut desk, 1, true, Ok(got(1, b"x", 0)));
    assert_holds(&rt, &desk.out, b"x");
    assert_is(&rt, desk.pool.free(), 512);
    end_desk(&rt, desk, 0);
}

#[test]
fn a_slot_ends_with_the_blocks_of_what_waits(rt: HostRuntime) {
    let mut desk = desk_with_queue(&rt, rt.alloc());
    let bytes = [b'x'; 130];
    for size in [0, 1, 64, 65, 130] {
        assert!(rt; size <= bytes.len());
        let sent = send(&rt, &mut desk, 1, &bytes[..size]);
        assert_is(&rt, (size, sent.is_ok()), (size, true));
    }
    assert_is(&rt, desk.pool.free(), 505);
    end_desk(&rt, desk, 7);
}

/// Receives any message of queue 0, and returns its delivery.
fn delivered(rt: &impl Abort, desk: &mut Desk) -> Delivery {
    let (_, freed) = desk.slot.counts();
    assert!(rt; freed < 1 << 63);
    match desk.slot.take(0, RECEIVER, Selector::Any, 9, false, 9) {
        Ok(taken) => {
            let (delivery, chain) = taken.finish(9, &mut desk.out);
            give_back(rt, &mut desk.pool, chain);
            delivery
        }
        Err(why) => panic!(rt; "{why}"),
    }
}

#[test]
fn receipts_are_written_or_lost(rt: HostRuntime) {
    let mut desk = desk_with_queue(&rt, rt.alloc());
    let mut tally = Tally::open();
    assert_is(
        &rt,
        (tally.taken(), tally.written(), tally.lost()),
        (0, 0, 0),
    );
    for arrives in [true, false, true] {
        let sent = send(&rt, &mut desk, 1, b"text");
        assert_is(&rt, sent.is_ok(), true);
        let delivery = delivered(&rt, &mut desk);
        assert!(rt; tally.taken() < 3);
        if arrives {
            delivery.written(&mut tally);
        } else {
            delivery.lost(&mut tally);
        }
    }
    assert_is(
        &rt,
        (tally.taken(), tally.written(), tally.lost()),
        (3, 2, 1),
    );
    end_desk(&rt, desk, 0);
}

#[test]
fn a_probe_asks_what_the_mode_asks(rt: HostRuntime) {
    let desk = desk_with_shared_queue(&rt, rt.alloc());
    let table = [
        (SENDER, 0o777, Probe::Granted),
        (MEMBER, 0o640, Probe::Denied),
        (MEMBER, 0o440, Probe::Granted),
        (MEMBER, 0o020, Probe::Denied),
        (MEMBER, 0o111, Probe::Granted),
        (STRANGER, 0o004, Probe::Denied),
        (STRANGER, 512 + 1024, Probe::Granted),
        (USER_ZERO, 0o777, Probe::Granted),
    ];
    for (cred, bits, found) in table {
        let flags = Flags::from_bits_retain(bits);
        let probes = (
            desk.slot.probe(0, cred, flags),
            desk.slot.probe(64, cred, flags),
        );
        assert_is(
            &rt,
            (cred, bits, probes),
            (cred, bits, (found, Probe::Gone)),
        );
    }
    end_desk(&rt, desk, 0);
}

#[test]
fn a_queue_shows_its_attributes(rt: HostRuntime) {
    let mut desk = open_desk(&rt, rt.alloc());
    assert_is(&rt, desk.slot.row(), None);
    assert_is(&rt, desk.slot.qnum(), 0);
    assert_is(&rt, desk.slot.stat(64, SENDER), Err(Errno::EINVAL));
    assert_is(&rt, desk.slot.install(64, 3, SENDER, 0o640, 50), true);
    assert_sends_as(&rt, &mut desk, 64, SENDER, 4, b"abc", Ok(0));
    let shown = Stat {
        key: 3,
        perm: Perm {
            uid: 1000,
            gid: 1000,
            cuid: 1000,
            cgid: 1000,
            mode: 0o640,
        },
        cbytes: 3,
        qnum: 1,
        qbytes: 16384,
        lspid: 101,
        lrpid: 0,
        stime: 7,
        rtime: 0,
        ctime: 50,
    };
    assert_is(&rt, desk.slot.stat(64, MEMBER), Ok(shown));
    assert_is(&rt, desk.slot.stat(64, STRANGER), Err(Errno::EACCES));
    assert_is(&rt, desk.slot.stat(0, STRANGER), Err(Errno::EINVAL));
    let row = Row {
        id: 64,
        key: 3,
        uid: 1000,
        mode: 0o640,
        cbytes: 3,
        qnum: 1,
    };
    assert_is(&rt, desk.slot.row(), Some(row));
    assert_is(&rt, desk.slot.qnum(), 1);
    end_desk(&rt, desk, 1);
}
