//! Calls as data.
ghost use Rattle.sysv_service.specs.Seats.{AreOf};

use crate::board::Moment;
use crate::parts::{body_of, empty_body};
use std::alloc::Global;
use std::process::Abort;
use std::sync::Wait;
use sysv_model::{Body, Cred, Errno, Flags, MESSAGE_BYTES, SetTo};
use sysv_queue::Tally;
use sysv_service::{Pass, Service};
use tests_kit::{USER, creating, flags};

/// A call of the service by `USER`. A send or a receive waits.
#[derive(Clone, Copy)]
pub(crate) enum Ask {
    /// Makes the queue of this key, or finds it.
    Get(i32),
    /// Sends a message of type 1 with a body of this length.
    Send(i32, usize),
    /// Receives a message of any type.
    Receive(i32),
    /// Receives a message of type 2.
    ReceiveSecond(i32),
    /// Sets these attributes, as this user.
    Set(i32, Cred, SetTo),
    Remove(i32),
    /// The time of the last send.
    SentAt(i32),
    /// The time of the last receive.
    ReceivedAt(i32),
    Stop,
}

/// No flags: a send and a receive wait.
pub(crate) fn waiting() -> Flags {
    flags(0)
}

/// The result of a call: an identifier, the length of the body that was received, a time, the
/// number of queues that were removed, or 0.
pub(crate) type Told = Result<i64, Errno>;

/// Makes the call.
pub(crate) fn make<R: Abort + Wait>(
    rt: &R,
    alloc: Global,
    service: &Service,
    pass: &mut Pass,
    clock: Moment,
    ask: Ask,
) -> Told
    requires { AreOf service.now pass.old.seats }
    ensures { AreOf service.now pass.new.seats }
{
    match ask {
        Ask::Get(key) => {
            let id = service.msgget(rt, pass, &clock, USER, key, creating())?;
            Ok(i64::from(id))
        }
        Ask::Send(id, size) => {
            let text = letters(rt, alloc, size);
            service.msgsnd(rt, pass, &clock, USER, id, 1, &text, waiting())?;
            Ok(0)
        }
        Ask::Receive(id) => receive(rt, alloc, service, pass, clock, id, 0),
        Ask::ReceiveSecond(id) => receive(rt, alloc, service, pass, clock, id, 2),
        Ask::Set(id, cred, to) => {
            service.msgctl_set(rt, pass, &clock, cred, id, to)?;
            Ok(0)
        }
        Ask::Remove(id) => {
            service.msgctl_rmid(rt, pass, USER, id)?;
            Ok(0)
        }
        Ask::SentAt(id) => {
            let stat = service.msgctl_stat(rt, pass, USER, id)?;
            Ok(seconds(stat.stime))
        }
        Ask::ReceivedAt(id) => {
            let stat = service.msgctl_stat(rt, pass, USER, id)?;
            Ok(seconds(stat.rtime))
        }
        Ask::Stop => {
            let removed = service.stop(rt, pass)?;
            Ok(i64::from(removed))
        }
    }
}

/// Returns a time as a result. A later time than results can hold is the latest one.
fn seconds(time: u64) -> i64 {
    match i64::try_from(time) {
        Ok(time) => time,
        Err(_) => i64::MAX,
    }
}

/// Returns a body of this number of letters.
fn letters(rt: &impl Abort, alloc: Global, size: usize) -> Body {
    let text = [b'x'; MESSAGE_BYTES];
    assert!(rt; size <= MESSAGE_BYTES);
    body_of(rt, alloc, &text[..size])
}

fn receive<R: Abort + Wait>(
    rt: &R,
    alloc: Global,
    service: &Service,
    pass: &mut Pass,
    clock: Moment,
    id: i32,
    mtype: i64,
) -> Told
    requires { AreOf service.now pass.old.seats }
    ensures { AreOf service.now pass.new.seats }
{
    let mut out = empty_body(rt, alloc);
    let size = 8192;
    let given = service.msgrcv(rt, pass, &clock, USER, id, &mut out, size, mtype, waiting())?;
    given.written(&mut Tally::open());
    Ok(out.len() as i64)
}
