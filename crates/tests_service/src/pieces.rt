//! Calls in pieces: a call that waits is a value, and goes on when its count has risen.

ghost use Rattle.sysv_service.specs.Seats.{AreOf};

use crate::parts::{CLOCK, assert_is, body_of, closed, opened, waiting};
use std::alloc::Global;
use std::process::Abort;
use std::sync::Wait;
use sysv_model::{Body, Errno, Flags, MESSAGE_BYTES, SetTo};
use sysv_queue::{Delivery, Tally};
use sysv_service::{
    GetWait, Getting, Pass, Progress, ReceiveWait, Receiving, SendWait, Sending, Service,
};
use tests_kit::{USER, creating};

/// Opens a service of 128 blocks with queue 0.
fn one_queue(rt: &(impl Abort + Wait), alloc: Global) -> (Service, Pass)
    ensures { AreOf result.0 result.1.seats }
{
    let (service, mut pass) = opened(rt, alloc, 128, 0);
    let made = service.msgget(rt, &mut pass, &CLOCK, USER, 7, creating());
    assert_is(rt, made, Ok(0));
    (service, pass)
}

/// Sends this body to queue 0, without waiting.
fn send(
    rt: &(impl Abort + Wait),
    alloc: Global,
    service: &Service,
    pass: &mut Pass,
    mtype: i64,
    text: &[u8],
)
    requires { AreOf service.now pass.old.seats }
    ensures { AreOf service.now pass.new.seats }
{
    let text = body_of(rt, alloc, text);
    let flags = Flags::IPC_NOWAIT;
    let sent = service.msgsnd(rt, pass, &CLOCK, USER, 0, mtype, &text, flags);
    assert_is(rt, sent, Ok(()));
}

/// Begins a receive of type 5 from queue 0.
fn begin_receive(
    rt: &(impl Abort + Wait),
    service: &Service,
    pass: &mut Pass,
    out: &mut Body,
    flags: Flags,
) -> Progress<ReceiveWait, Result<Delivery, Errno>>
    requires { AreOf service.now pass.old.seats }
    ensures { AreOf service.now pass.new.seats }
{
    service.msgrcv_begin(rt, pass, &CLOCK, USER, 0, out, 100, 5, flags)
}

/// Returns the wait of a receive.
fn receive_wait(
    rt: &impl Abort,
    progress: Progress<ReceiveWait, Result<Delivery, Errno>>,
) -> ReceiveWait {
    match progress {
        Progress::Waits(wait) => wait,
        Progress::Over(Ok(delivery)) => {
            delivery.lost(&mut Tally::open());
            panic!(rt; "a message")
        }
        Progress::Over(Err(why)) => panic!(rt; "{why}"),
    }
}

/// Returns the type and the length of the message that a receive returned.
fn received(
    rt: &impl Abort,
    progress: Progress<ReceiveWait, Result<Delivery, Errno>>,
) -> Result<(i64, usize), Errno> {
    match progress {
        Progress::Waits(_wait) => panic!(rt; "the receive waits"),
        Progress::Over(Ok(delivery)) => {
            let told = (delivery.mtype(), delivery.len());
            delivery.written(&mut Tally::open());
            Ok(told)
        }
        Progress::Over(Err(why)) => Err(why),
    }
}

/// Looks once for a receive that can go on.
fn look(rt: &impl Abort, service: &Service, pass: &mut Pass, wait: &ReceiveWait) -> Receiving
    requires { AreOf service.now pass.old.seats }
    ensures { AreOf service.now pass.new.seats }
{
    match service.msgrcv_look(pass, wait) {
        Some(receive) => receive,
        None => panic!(rt; "the receive still waits"),
    }
}

// A message of another type ends the wait too: the receive looks at the queue, and waits again.
#[test]
fn a_receive_goes_on_after_a_send_of_another_pass(rt: HostRuntime) {
    let alloc = rt.alloc();
    let (service, mut pass) = one_queue(&rt, alloc);
    let mut other = service.split_pass(alloc, &mut pass).expect(&rt, "a split");
    let mut out = body_of(&rt, alloc, b"what was there before");
    let begun = begin_receive(&rt, &service, &mut pass, &mut out, waiting());
    let wait = receive_wait(&rt, begun);
    assert_is(&rt, out.len(), 0);
    assert!(rt; service.msgrcv_look(&mut pass, &wait).is_none());
    send(&rt, alloc, &service, &mut other, 6, b"x");
    let again = look(&rt, &service, &mut pass, &wait);
    let waits = service.msgrcv_go_on(&rt, &mut pass, &CLOCK, &mut out, again);
    let wait = receive_wait(&rt, waits);
    assert!(rt; service.msgrcv_look(&mut pass, &wait).is_none());
    send(&rt, alloc, &service, &mut other, 5, b"ping");
    let again = look(&rt, &service, &mut pass, &wait);
    let over = service.msgrcv_go_on(&rt, &mut pass, &CLOCK, &mut out, again);
    assert_is(&rt, received(&rt, over), Ok((5, 4)));
    assert_is(&rt, out.len(), 4);
    service.join_pass(&mut pass, other);
    assert_is(&rt, service.close(pass), closed(1, 128));
}

#[test]
fn a_receive_that_need_not_wait_is_over_at_once(rt: HostRuntime) {
    let alloc = rt.alloc();
    let (service, mut pass) = one_queue(&rt, alloc);
    let mut out = body_of(&rt, alloc, b"what was there before");
    let begun = begin_receive(&rt, &service, &mut pass, &mut out, Flags::IPC_NOWAIT);
    assert_is(&rt, received(&rt, begun), Err(Errno::ENOMSG));
    assert_is(&rt, out.len(), 0);
    send(&rt, alloc, &service, &mut pass, 5, b"ping");
    let begun = begin_receive(&rt, &service, &mut pass, &mut out, waiting());
    assert_is(&rt, received(&rt, begun), Ok((5, 4)));
    assert_is(&rt, service.close(pass), closed(0, 128));
}

// A receive is left by dropping its wait. It has taken nothing, and the next receive gets the
// message.
#[test]
fn a_receive_that_is_dropped_takes_nothing(rt: HostRuntime) {
    let alloc = rt.alloc();
    let (service, mut pass) = one_queue(&rt, alloc);
    let mut out = body_of(&rt, alloc, b"what was there before");
    let begun = begin_receive(&rt, &service, &mut pass, &mut out, waiting());
    let _dropped = receive_wait(&rt, begun);
    match service.msgctl_stat(&rt, &mut pass, USER, 0) {
        Ok(stat) => assert_is(&rt, (stat.qnum, stat.lrpid, stat.rtime), (0, 0, 0)),
        Err(why) => panic!(rt; "no attributes: {why}"),
    }
    send(&rt, alloc, &service, &mut pass, 5, b"ping");
    let begun = begin_receive(&rt, &service, &mut pass, &mut out, waiting());
    assert_is(&rt, received(&rt, begun), Ok((5, 4)));
    assert_is(&rt, service.close(pass), closed(0, 128));
}

/// Returns the wait of a send.
fn send_wait(rt: &impl Abort, progress: Progress<SendWait, Result<(), Errno>>) -> SendWait {
    match progress {
        Progress::Waits(wait) => wait,
        Progress::Over(told) => panic!(rt; "{told:?}"),
    }
}

/// Asserts that a send has sent its message.
fn assert_sent(rt: &impl Abort, progress: Progress<SendWait, Result<(), Errno>>) {
    match progress {
        Progress::Waits(_wait) => panic!(rt; "the send waits"),
        Progress::Over(told) => assert_is(rt, told, Ok(())),
    }
}

/// Looks once for a send that can go on.
fn look_for_send(rt: &impl Abort, service: &Service, pass: &mut Pass, wait: &SendWait) -> Sending
    requires { AreOf service.now pass.old.seats }
    ensures { AreOf service.now pass.new.seats }
{
    match service.msgsnd_look(pass, wait) {
        Some(send) => send,
        None => panic!(rt; "the send still waits"),
    }
}

/// Takes the message of queue `id`.
fn take(rt: &(impl Abort + Wait), alloc: Global, service: &Service, pass: &mut Pass, id: i32)
    requires { AreOf service.now pass.old.seats }
    ensures { AreOf service.now pass.new.seats }
{
    let mut out = body_of(rt, alloc, b"");
    let flags = Flags::IPC_NOWAIT;
    match service.msgrcv(rt, pass, &CLOCK, USER, id, &mut out, 8192, 0, flags) {
        Ok(delivery) => delivery.written(&mut Tally::open()),
        Err(why) => panic!(rt; "{why}"),
    }
}

/// Opens a service of 128 blocks with queue 0, which has room for four bytes.
fn small_queue(rt: &(impl Abort + Wait), alloc: Global) -> (Service, Pass)
    ensures { AreOf result.0 result.1.seats }
{
    let (service, mut pass) = one_queue(rt, alloc);
    let to = SetTo {
        uid: 1000,
        gid: 1000,
        mode: 0o600,
        qbytes: 4,
    };
    let set = service.msgctl_set(rt, &mut pass, &CLOCK, USER, 0, to);
    assert_is(rt, set, Ok(()));
    (service, pass)
}

// A send is left by dropping its wait, and then sends nothing.
#[test]
fn a_send_that_is_dropped_sends_nothing(rt: HostRuntime) {
    let alloc = rt.alloc();
    let (service, mut pass) = small_queue(&rt, alloc);
    send(&rt, alloc, &service, &mut pass, 5, b"ping");
    let text = body_of(&rt, alloc, b"pong");
    let begun = service.msgsnd_begin(&rt, &mut pass, &CLOCK, USER, 0, 5, &text, waiting());
    let _dropped = send_wait(&rt, begun);
    take(&rt, alloc, &service, &mut pass, 0);
    let mut out = body_of(&rt, alloc, b"");
    let begun = begin_receive(&rt, &service, &mut pass, &mut out, Flags::IPC_NOWAIT);
    assert_is(&rt, received(&rt, begun), Err(Errno::ENOMSG));
    assert_is(&rt, service.close(pass), closed(0, 128));
}

#[test]
fn a_send_goes_on_after_a_receive_of_another_pass(rt: HostRuntime) {
    let alloc = rt.alloc();
    let (service, mut pass) = small_queue(&rt, alloc);
    let mut other = service.split_pass(alloc, &mut pass).expect(&rt, "a split");
    let text = body_of(&rt, alloc, b"ping");
    assert!(rt; text.len() <= MESSAGE_BYTES);
    let begun = service.msgsnd_begin(&rt, &mut pass, &CLOCK, USER, 0, 5, &text, waiting());
    assert_sent(&rt, begun);
    let begun = service.msgsnd_begin(&rt, &mut pass, &CLOCK, USER, 0, 5, &text, waiting());
    let wait = send_wait(&rt, begun);
    assert!(rt; service.msgsnd_look(&mut pass, &wait).is_none());
    take(&rt, alloc, &service, &mut other, 0);
    let again = look_for_send(&rt, &service, &mut pass, &wait);
    let over = service.msgsnd_go_on(&rt, &mut pass, &CLOCK, &text, again);
    assert_sent(&rt, over);
    service.join_pass(&mut pass, other);
    assert_is(&rt, service.close(pass), closed(1, 128));
}

// A send that waits for blocks holds none.
#[test]
fn a_send_that_waits_for_blocks_is_dropped(rt: HostRuntime) {
    let alloc = rt.alloc();
    let (service, mut pass) = one_queue(&rt, alloc);
    let second = service.msgget(&rt, &mut pass, &CLOCK, USER, 8, creating());
    assert_is(&rt, second, Ok(1));
    let all = body_of(&rt, alloc, &[b'x'; 8192]);
    let sent = service.msgsnd(&rt, &mut pass, &CLOCK, USER, 1, 5, &all, waiting());
    assert_is(&rt, sent, Ok(()));
    let text = body_of(&rt, alloc, b"ping");
    let begun = service.msgsnd_begin(&rt, &mut pass, &CLOCK, USER, 0, 5, &text, waiting());
    let _dropped = send_wait(&rt, begun);
    assert_is(&rt, service.close(pass), closed(1, 128));
}

#[test]
fn a_send_goes_on_after_blocks_were_released(rt: HostRuntime) {
    let alloc = rt.alloc();
    let (service, mut pass) = one_queue(&rt, alloc);
    let second = service.msgget(&rt, &mut pass, &CLOCK, USER, 8, creating());
    assert_is(&rt, second, Ok(1));
    let all = body_of(&rt, alloc, &[b'x'; 8192]);
    let begun = service.msgsnd_begin(&rt, &mut pass, &CLOCK, USER, 1, 5, &all, waiting());
    assert_sent(&rt, begun);
    let text = body_of(&rt, alloc, b"ping");
    assert!(rt; text.len() <= MESSAGE_BYTES);
    let begun = service.msgsnd_begin(&rt, &mut pass, &CLOCK, USER, 0, 5, &text, waiting());
    let wait = send_wait(&rt, begun);
    assert!(rt; service.msgsnd_look(&mut pass, &wait).is_none());
    take(&rt, alloc, &service, &mut pass, 1);
    let again = look_for_send(&rt, &service, &mut pass, &wait);
    let over = service.msgsnd_go_on(&rt, &mut pass, &CLOCK, &text, again);
    assert_sent(&rt, over);
    assert_is(&rt, service.close(pass), closed(1, 128));
}

/// Returns the identifier that a get returned.
fn id_of(rt: &impl Abort, progress: Progress<GetWait, Result<i32, Errno>>) -> Result<i32, Errno> {
    match progress {
        Progress::Waits(_wait) => panic!(rt; "the get waits"),
        Progress::Over(told) => told,
    }
}

// The second get goes on as one that has waited for the queue of its key.
#[test]
fn a_get_goes_on_after_a_queue_was_made(rt: HostRuntime) {
    let (service, mut pass) = opened(&rt, rt.alloc(), 128, 0);
    let get = Getting {
        cred: USER,
        key: 7,
        flags: creating(),
    };
    let wait = GetWait { above: 0, get };
    assert!(rt; service.msgget_look(&mut pass, &wait).is_none());
    let made = service.msgget_begin(&rt, &mut pass, &CLOCK, USER, 7, creating());
    assert_is(&rt, id_of(&rt, made), Ok(0));
    let Some(again) = service.msgget_look(&mut pass, &wait) else {
        panic!(rt; "the get still waits")
    };
    let found = service.msgget_go_on(&rt, &mut pass, &CLOCK, again);
    assert_is(&rt, id_of(&rt, found), Ok(0));
    assert_is(&rt, service.close(pass), closed(0, 128));
}
