//! One pass calls the service.

ghost use Rattle.std.specs.Prelude.{◌≡◌};
ghost use Rattle.sysv_service.specs.Seats.{AreOf};

use crate::parts::{CLOCK, assert_is, body_of, closed, empty_body, opened, opened_at};
use bitflags::Flags as _;
use std::alloc::Global;
use std::process::Abort;
use std::sync::Wait;
use sysv_model::{Errno, Flags, SetTo};
use sysv_queue::Tally;
use sysv_service::{OpenRefused, Pass, Service, Stop};
use tests_kit::{OTHER, USER, creating};

/// Sends this body to the queue with this identifier, without waiting.
fn send(
    rt: &(impl Abort + Wait),
    alloc: Global,
    service: &Service,
    pass: &mut Pass,
    id: i32,
    mtype: i64,
    text: &[u8],
) -> Result<(), Errno>
    requires { AreOf service.now pass.old.seats }
    ensures { AreOf service.now pass.new.seats }
{
    let text = body_of(rt, alloc, text);
    service.msgsnd(rt, pass, &CLOCK, USER, id, mtype, &text, Flags::IPC_NOWAIT)
}

/// Sends one byte to the queue with this identifier, and waits until there is room for it.
fn send_and_wait(
    rt: &(impl Abort + Wait),
    alloc: Global,
    service: &Service,
    pass: &mut Pass,
    id: i32,
) -> Result<(), Errno>
    requires { AreOf service.now pass.old.seats }
    ensures { AreOf service.now pass.new.seats }
{
    let text = body_of(rt, alloc, b"x");
    service.msgsnd(rt, pass, &CLOCK, USER, id, 5, &text, Flags::empty())
}

/// Receives a body of at most `size` bytes from the queue with this identifier, without waiting,
/// and returns its type and length.
fn receive(
    rt: &(impl Abort + Wait),
    alloc: Global,
    service: &Service,
    pass: &mut Pass,
    id: i32,
    mtype: i64,
) -> Result<(i64, usize), Errno>
    requires { AreOf service.now pass.old.seats }
    ensures { AreOf service.now pass.new.seats }
{
    let mut out = body_of(rt, alloc, b"what was there before");
    let given = service.msgrcv(
        rt,
        pass,
        &CLOCK,
        USER,
        id,
        &mut out,
        100,
        mtype,
        Flags::IPC_NOWAIT,
    );
    match given {
        Ok(delivery) => {
            let told = (delivery.mtype(), delivery.len());
            delivery.written(&mut Tally::open());
            assert_is(rt, told.1, out.len());
            Ok(told)
        }
        Err(why) => {
            assert_is(rt, out.len(), 0);
            Err(why)
        }
    }
}

#[test]
fn a_pass_receives_its_own_message(rt: HostRuntime) {
    let (service, mut pass) = opened(&rt, rt.alloc(), 128, 0);
    let id = service.msgget(&rt, &mut pass, &CLOCK, USER, 7, creating());
    assert_is(&rt, id, Ok(0));
    assert_is(
        &rt,
        send(&rt, rt.alloc(), &service, &mut pass, 0, 5, b"ping"),
        Ok(()),
    );
    assert_is(
        &rt,
        receive(&rt, rt.alloc(), &service, &mut pass, 0, -9),
        Ok((5, 4)),
    );
    assert_is(
        &rt,
        receive(&rt, rt.alloc(), &service, &mut pass, 0, -9),
        Err(Errno::ENOMSG),
    );
    assert_is(
        &rt,
        send(&rt, rt.alloc(), &service, &mut pass, 0, 0, b"ping"),
        Err(Errno::EINVAL),
    );
    assert_is(
        &rt,
        send(&rt, rt.alloc(), &service, &mut pass, 256, 5, b"ping"),
        Err(Errno::EINVAL),
    );
    assert_is(
        &rt,
        send(&rt, rt.alloc(), &service, &mut pass, 0, 6, b"left"),
        Ok(()),
    );
    assert_is(&rt, service.close(pass), closed(1, 128));
}

#[test]
fn a_queue_is_told_and_set(rt: HostRuntime) {
    let (service, mut pass) = opened(&rt, rt.alloc(), 128, 0);
    let id = service.msgget(&rt, &mut pass, &CLOCK, USER, 7, creating());
    assert_is(&rt, id, Ok(0));
    let to = SetTo {
        uid: 1000,
        gid: 1000,
        mode: 0o640,
        qbytes: 4,
    };
    let set = service.msgctl_set(&rt, &mut pass, &CLOCK, OTHER, 0, to);
    assert_is(&rt, set, Err(Errno::EPERM));
    assert_is(
        &rt,
        service.msgctl_set(&rt, &mut pass, &CLOCK, USER, 0, to),
        Ok(()),
    );
    assert_is(
        &rt,
        send(&rt, rt.alloc(), &service, &mut pass, 0, 5, b"hello"),
        Err(Errno::EAGAIN),
    );
    match service.msgctl_stat(&rt, &mut pass, USER, 0) {
        Ok(stat) => assert_is(&rt, (stat.key, stat.qbytes, stat.ctime), (7, 4, 7)),
        Err(why) => panic!(rt; "no attributes: {why}"),
    }
    match service.list_row(&rt, &mut pass, 0) {
        Ok(Some(row)) => assert_is(&rt, (row.id, row.mode), (0, 0o640)),
        _ => panic!(rt; "no row"),
    }
    let row = service.list_row(&rt, &mut pass, 256);
    assert_is(&rt, row, Err(Errno::EINVAL));
    assert_is(&rt, service.close(pass), closed(0, 128));
}

#[test]
fn a_queue_is_removed(rt: HostRuntime) {
    let (service, mut pass) = opened(&rt, rt.alloc(), 128, 0);
    let id = service.msgget(&rt, &mut pass, &CLOCK, USER, 7, creating());
    assert_is(&rt, id, Ok(0));
    assert_is(
        &rt,
        service.msgctl_rmid(&rt, &mut pass, OTHER, 0),
        Err(Errno::EPERM),
    );
    assert_is(&rt, service.msgctl_rmid(&rt, &mut pass, USER, 0), Ok(()));
    assert_is(&rt, service.list_row(&rt, &mut pass, 0), Ok(None));
    assert_is(
        &rt,
        receive(&rt, rt.alloc(), &service, &mut pass, 0, 0),
        Err(Errno::EINVAL),
    );
    let id = service.msgget(&rt, &mut pass, &CLOCK, USER, 7, creating());
    assert_is(&rt, id, Ok(256));
    assert_is(&rt, service.close(pass), closed(0, 128));
}

/// Sends a message of type 5 and asserts that it was accepted.
fn put(rt: &(impl Abort + Wait), alloc: Global, service: &Service, pass: &mut Pass, text: &[u8])
    requires { AreOf service.now pass.old.seats }
    ensures { AreOf service.now pass.new.seats }
{
    let sent = send(rt, alloc, service, pass, 0, 5, text);
    assert_is(rt, sent, Ok(()));
}

/// Receives a message of type 5 and asserts its length.
fn get_of(rt: &(impl Abort + Wait), alloc: Global, service: &Service, pass: &mut Pass, len: usize)
    requires { AreOf service.now pass.old.seats }
    ensures { AreOf service.now pass.new.seats }
{
    let got = receive(rt, alloc, service, pass, 0, 0);
    assert_is(rt, got, Ok((5, len)));
}

#[test]
fn passes_count_their_blocks(rt: HostRuntime) {
    let (service, mut pass) = opened(&rt, rt.alloc(), 128, 0);
    let id = service.msgget(&rt, &mut pass, &CLOCK, USER, 7, creating());
    assert_is(&rt, id, Ok(0));
    let Ok(mut other) = service.split_pass(rt.alloc(), &mut pass) else {
        unreachable!()
    };
    put(&rt, rt.alloc(), &service, &mut pass, b"");
    put(&rt, rt.alloc(), &service, &mut pass, &[b'x'; 64]);
    put(&rt, rt.alloc(), &service, &mut pass, &[b'x'; 65]);
    assert_is(&rt, pass.blocks_in_use(), 3);
    assert_is(&rt, other.blocks_in_use(), 0);
    get_of(&rt, rt.alloc(), &service, &mut other, 0);
    get_of(&rt, rt.alloc(), &service, &mut other, 64);
    assert_is(&rt, pass.blocks_in_use(), 3);
    assert_is(&rt, other.blocks_in_use(), u64::MAX);
    let removed = service.msgctl_rmid(&rt, &mut other, USER, 0);
    assert_is(&rt, removed, Ok(()));
    assert_is(&rt, other.blocks_in_use(), u64::MAX - 2);
    service.join_pass(&mut pass, other);
    assert_is(&rt, pass.blocks_in_use(), 0);
    assert_is(&rt, service.close(pass), closed(0, 128));
}

/// Makes a private queue.
fn get(rt: &impl Wait, service: &Service, pass: &mut Pass) -> Result<i32, Errno>
    requires { AreOf service.now pass.old.seats }
    ensures { AreOf service.now pass.new.seats }
{
    service.msgget(rt, pass, &CLOCK, USER, 0, creating())
}

/// Makes a private queue in each slot in turn, and removes it. Asserts that their identifiers are
/// those of the last generation.
fn use_up(rt: &(impl Abort + Wait), service: &Service, pass: &mut Pass)
    requires { AreOf service.now pass.old.seats }
    ensures { AreOf service.now pass.new.seats }
{
    for id in 2_147_483_392..=i32::MAX {
        assert_is(rt, get(rt, service, pass), Ok(id));
        assert_is(rt, service.msgctl_rmid(rt, pass, USER, id), Ok(()));
    }
}

#[test]
fn a_removal_of_the_last_generation_ends_its_slot(rt: HostRuntime) {
    let (service, mut pass) = opened_at(&rt, rt.alloc(), 128, 0, 8_388_607);
    use_up(&rt, &service, &mut pass);
    assert_is(&rt, get(&rt, &service, &mut pass), Err(Errno::ENOSPC));
    let id = service.msgget(&rt, &mut pass, &CLOCK, USER, 7, creating());
    assert_is(&rt, id, Err(Errno::ENOSPC));
    assert_is(&rt, service.close(pass), closed(0, 128));
}

/// Makes a private queue, asserts that it has this identifier, and sends one byte to it.
fn make_with_message(
    rt: &(impl Abort + Wait),
    alloc: Global,
    service: &Service,
    pass: &mut Pass,
    id: i32,
)
    requires { AreOf service.now pass.old.seats }
    ensures { AreOf service.now pass.new.seats }
{
    assert_is(&rt, get(rt, service, pass), Ok(id));
    assert_is(&rt, send(rt, alloc, service, pass, id, 5, b"x"), Ok(()));
}

#[test]
fn one_ticket_is_left(rt: HostRuntime) {
    let (service, mut pass) = opened(&rt, rt.alloc(), 128, (1 << 62) - 1);
    assert_is(&rt, get(&rt, &service, &mut pass), Err(Errno::EOVERFLOW));
    let sent = send(&rt, rt.alloc(), &service, &mut pass, 0, 5, b"x");
    assert_is(&rt, sent, Err(Errno::EOVERFLOW));
    assert_is(&rt, service.close(pass), closed(0, 128));
}

#[test]
fn two_tickets_are_left(rt: HostRuntime) {
    let (service, mut pass) = opened(&rt, rt.alloc(), 128, (1 << 62) - 2);
    assert_is(&rt, get(&rt, &service, &mut pass), Ok(0));
    let sent = send(&rt, rt.alloc(), &service, &mut pass, 0, 5, b"x");
    assert_is(&rt, sent, Err(Errno::EOVERFLOW));
    let received = receive(&rt, rt.alloc(), &service, &mut pass, 0, 0);
    assert_is(&rt, received, Err(Errno::EOVERFLOW));
    assert_is(&rt, service.close(pass), closed(0, 128));
}

#[test]
fn a_removal_goes_on_at_a_worn_registry(rt: HostRuntime) {
    let (service, mut pass) = opened(&rt, rt.alloc(), 128, (1 << 62) - 2);
    assert_is(&rt, get(&rt, &service, &mut pass), Ok(0));
    assert_is(&rt, service.msgctl_rmid(&rt, &mut pass, USER, 0), Ok(()));
    assert_is(
        &rt,
        service.list_row(&rt, &mut pass, 0),
        Err(Errno::EOVERFLOW),
    );
    assert_is(&rt, get(&rt, &service, &mut pass), Err(Errno::EOVERFLOW));
    assert_is(&rt, service.close(pass), closed(0, 128));
}

#[test]
fn three_tickets_are_left(rt: HostRuntime) {
    let (service, mut pass) = opened(&rt, rt.alloc(), 128, (1 << 62) - 3);
    assert_is(&rt, get(&rt, &service, &mut pass), Ok(0));
    let sent = send(&rt, rt.alloc(), &service, &mut pass, 0, 5, b"x");
    assert_is(&rt, sent, Ok(()));
    let received = receive(&rt, rt.alloc(), &service, &mut pass, 0, 0);
    assert_is(&rt, received, Err(Errno::EOVERFLOW));
    assert_is(&rt, service.close(pass), closed(1, 128));
}

#[test]
fn an_install_is_undone_at_a_worn_gate(rt: HostRuntime) {
    let (service, mut pass) = opened(&rt, rt.alloc(), 128, (1 << 62) - 5);
    assert_is(&rt, get(&rt, &service, &mut pass), Ok(0));
    let sent = send(&rt, rt.alloc(), &service, &mut pass, 0, 5, b"x");
    assert_is(&rt, sent, Ok(()));
    match service.list_row(&rt, &mut pass, 0) {
        Ok(Some(row)) => assert_is(&rt, row.qnum, 1),
        _ => panic!(rt; "no row"),
    }
    assert_is(&rt, service.msgctl_rmid(&rt, &mut pass, USER, 0), Ok(()));
    assert_is(&rt, get(&rt, &service, &mut pass), Err(Errno::EOVERFLOW));
    assert_is(&rt, service.close(pass), closed(0, 128));
}

#[test]
fn a_pass_keeps_a_chain_that_cannot_go_back(rt: HostRuntime) {
    let (service, mut pass) = opened(&rt, rt.alloc(), 128, (1 << 62) - 6);
    make_with_message(&rt, rt.alloc(), &service, &mut pass, 0);
    make_with_message(&rt, rt.alloc(), &service, &mut pass, 1);
    make_with_message(&rt, rt.alloc(), &service, &mut pass, 2);
    let received = receive(&rt, rt.alloc(), &service, &mut pass, 0, 0);
    assert_is(&rt, received, Ok((5, 1)));
    let received = receive(&rt, rt.alloc(), &service, &mut pass, 1, 0);
    assert_is(&rt, received, Ok((5, 1)));
    let sent = send(&rt, rt.alloc(), &service, &mut pass, 0, 5, b"x");
    assert_is(&rt, sent, Ok(()));
    let received = receive(&rt, rt.alloc(), &service, &mut pass, 2, 0);
    assert_is(&rt, received, Ok((5, 1)));
    assert_is(&rt, service.close(pass), closed(1, 128));
}

#[test]
fn a_wait_for_a_message_ends_at_a_worn_gate(rt: HostRuntime) {
    let (service, mut pass) = opened(&rt, rt.alloc(), 128, (1 << 62) - 2);
    assert_is(&rt, get(&rt, &service, &mut pass), Ok(0));
    let mut out = empty_body(&rt, rt.alloc());
    match service.msgrcv(
        &rt,
        &mut pass,
        &CLOCK,
        USER,
        0,
        &mut out,
        9,
        0,
        Flags::empty(),
    ) {
        Ok(delivery) => {
            delivery.lost(&mut Tally::open());
            panic!(rt; "there was no message")
        }
        Err(why) => assert_is(&rt, why, Errno::EOVERFLOW),
    }
    assert_is(&rt, service.close(pass), closed(0, 128));
}

#[test]
fn a_wait_for_room_ends_at_a_worn_gate(rt: HostRuntime) {
    let (service, mut pass) = opened(&rt, rt.alloc(), 128, (1 << 62) - 3);
    assert_is(&rt, get(&rt, &service, &mut pass), Ok(0));
    let to = SetTo {
        uid: 1000,
        gid: 1000,
        mode: 0o600,
        qbytes: 0,
    };
    let set = service.msgctl_set(&rt, &mut pass, &CLOCK, USER, 0, to);
    assert_is(&rt, set, Ok(()));
    let sent = send_and_wait(&rt, rt.alloc(), &service, &mut pass, 0);
    assert_is(&rt, sent, Err(Errno::EOVERFLOW));
    assert_is(&rt, service.close(pass), closed(0, 128));
}

#[test]
fn a_wait_for_blocks_ends_at_a_worn_pool(rt: HostRuntime) {
    let alloc = rt.alloc();
    let (service, mut pass) = opened(&rt, alloc, 128, (1 << 62) - 4);
    assert_is(&rt, get(&rt, &service, &mut pass), Ok(0));
    assert_is(&rt, get(&rt, &service, &mut pass), Ok(1));
    let sent = send(&rt, alloc, &service, &mut pass, 0, 5, &[b'x'; 8192]);
    assert_is(&rt, sent, Ok(()));
    let sent = send(&rt, alloc, &service, &mut pass, 1, 5, b"x");
    assert_is(&rt, sent, Err(Errno::EAGAIN));
    let sent = send(&rt, alloc, &service, &mut pass, 1, 5, b"x");
    assert_is(&rt, sent, Err(Errno::EAGAIN));
    let sent = send_and_wait(&rt, alloc, &service, &mut pass, 1);
    assert_is(&rt, sent, Err(Errno::EOVERFLOW));
    assert_is(&rt, service.close(pass), closed(1, 128));
}

#[test]
fn a_stop_removes_every_queue(rt: HostRuntime) {
    let (service, mut pass) = opened(&rt, rt.alloc(), 128, 0);
    make_with_message(&rt, rt.alloc(), &service, &mut pass, 0);
    make_with_message(&rt, rt.alloc(), &service, &mut pass, 1);
    make_with_message(&rt, rt.alloc(), &service, &mut pass, 2);
    assert_is(&rt, service.msgctl_rmid(&rt, &mut pass, USER, 1), Ok(()));
    let stop = Stop {
        removed: Ok(2),
        messages: 2,
    };
    assert_is(&rt, service.stop_counting(&rt, &mut pass), stop);
    assert_is(&rt, service.list_row(&rt, &mut pass, 0), Ok(None));
    assert_is(&rt, service.stop(&rt, &mut pass), Ok(0));
    assert_is(&rt, service.close(pass), closed(0, 128));
}

#[test]
fn passes_are_split_and_joined(rt: HostRuntime) {
    let (service, mut pass) = opened(&rt, rt.alloc(), 128, 0);
    let id = service.msgget(&rt, &mut pass, &CLOCK, USER, 7, creating());
    assert_is(&rt, id, Ok(0));
    let other = service.split_pass(rt.alloc(), &mut pass);
    let mut other = other.expect(&rt, "a split");
    let sent = send(&rt, rt.alloc(), &service, &mut other, 0, 5, b"ping");
    assert_is(&rt, sent, Ok(()));
    service.join_pass(&mut pass, other);
    let given = receive(&rt, rt.alloc(), &service, &mut pass, 0, 0);
    assert_is(&rt, given, Ok((5, 4)));
    assert_is(&rt, service.close(pass), closed(0, 128));
}

#[test]
fn sizes_out_of_range_open_no_service(rt: HostRuntime) {
    for (blocks, first, generation) in [
        (127, 0, 0),
        (65_537, 0, 0),
        (128, (1 << 62) + 1, 0),
        (128, 0, 8_388_608),
    ] {
        match Service::open_at(rt.alloc(), blocks, first, generation) {
            Err(why) => assert_is(&rt, why, OpenRefused::BadSize),
            Ok((service, pass)) => {
                service.close(pass);
                panic!(rt; "{blocks} blocks, {first}, {generation}")
            }
        }
    }
    match Service::open(rt.alloc(), 128) {
        Err(why) => assert_is(&rt, why, OpenRefused::NoMemory),
        Ok((service, pass)) => assert_is(&rt, service.close(pass), closed(0, 128)),
    }
}
