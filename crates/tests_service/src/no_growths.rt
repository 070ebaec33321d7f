//! Calls of a service after it, its passes and the bodies are open. They allocate nothing. A run
//! counts the growths after the mark, refuses each, and expects none.

ghost use Rattle.std.specs.Prelude.{◌≡◌};
ghost use Rattle.sysv_service.specs.Seats.{AreOf};

use crate::parts::{CLOCK, assert_is, body_of, closed, empty_body, opened};
use bitflags::Flags as _;
use std::process::Abort;
use std::sync::Wait;
use sysv_model::{Body, Flags, SetTo};
use sysv_queue::Tally;
use sysv_service::{Pass, Service};
use tests_kit::{USER, creating, mark};

/// A pass makes a queue, sends a message to it, and receives the message.
fn own_message<R: Abort + Wait>(
    rt: &R,
    service: &Service,
    pass: &mut Pass,
    text: &Body,
    out: &mut Body,
)
    requires { AreOf service.now pass.old.seats }
    ensures { AreOf service.now pass.new.seats }
{
    let id = service.msgget(rt, pass, &CLOCK, USER, 7, creating());
    assert_is(rt, id, Ok(0));
    let flags = Flags::empty();
    let sent = service.msgsnd(rt, pass, &CLOCK, USER, 0, 5, text, flags);
    assert_is(rt, sent, Ok(()));
    match service.msgrcv(rt, pass, &CLOCK, USER, 0, out, 100, -9, flags) {
        Ok(delivery) => {
            assert_is(rt, (delivery.mtype(), delivery.len()), (5, 4));
            delivery.written(&mut Tally::open());
        }
        Err(why) => panic!(rt; "{why}"),
    }
    assert_is(rt, out.block(0), b"ping".as_slice());
}

/// The attributes of the queue are changed and returned, and its row is shown.
fn control<R: Abort + Wait>(rt: &R, service: &Service, pass: &mut Pass)
    requires { AreOf service.now pass.old.seats }
    ensures { AreOf service.now pass.new.seats }
{
    let to = SetTo {
        uid: 1000,
        gid: 1000,
        mode: 0o640,
        qbytes: 9,
    };
    let set = service.msgctl_set(rt, pass, &CLOCK, USER, 0, to);
    assert_is(rt, set, Ok(()));
    let stat = service.msgctl_stat(rt, pass, USER, 0);
    assert_is(rt, stat.map(|stat| (stat.key, stat.qbytes)), Ok((7, 9)));
    let row = service.list_row(rt, pass, 0);
    let row = row.map(|row| row.map(|row| (row.id, row.mode)));
    assert_is(rt, row, Ok(Some((0, 0o640))));
}

#[test]
fn service(rt: HostRuntime) {
    let (service, mut pass) = opened(&rt, rt.alloc(), 128, 0);
    let other = service.split_pass(rt.alloc(), &mut pass);
    let mut other = other.expect(&rt, "a split");
    let text = body_of(&rt, rt.alloc(), b"ping");
    let mut out = empty_body(&rt, rt.alloc());
    let _marked = mark(rt.alloc());
    own_message(&rt, &service, &mut other, &text, &mut out);
    control(&rt, &service, &mut pass);
    let flags = Flags::empty();
    let sent = service.msgsnd(&rt, &mut pass, &CLOCK, USER, 0, 5, &text, flags);
    assert_is(&rt, sent, Ok(()));
    let removed = service.msgctl_rmid(&rt, &mut other, USER, 0);
    assert_is(&rt, removed, Ok(()));
    let made = service.msgget(&rt, &mut pass, &CLOCK, USER, 7, creating());
    assert!(rt; made.is_ok());
    assert_is(&rt, service.stop(&rt, &mut other), Ok(1));
    service.join_pass(&mut pass, other);
    assert_is(&rt, service.close(pass), closed(0, 128));
}
