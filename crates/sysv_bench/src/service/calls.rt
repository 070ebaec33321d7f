//! The calls of the threads.
ghost use Rattle.sysv_service.specs.Seats.{AreOf};

use crate::caller::{Still, USER};
use bitflags::Flags as _;
use std::sync::Wait;
use sysv_model::{Body, Flags};
use sysv_queue::Tally;
use sysv_service::{Pass, Service};

/// Returns the identifier of the queue of this key, which is created if there is none.
pub(crate) fn id_of(rt: &impl Wait, service: &Service, pass: &mut Pass, key: i32) -> Option<i32>
    requires { AreOf service.now pass.old.seats }
    ensures { AreOf service.now pass.new.seats }
{
    let flags = Flags::from_bits_retain(512 + 0o600);
    service.msgget(rt, pass, &Still, USER, key, flags).ok()
}

/// Sends the body, and waits for room unless `nowait`. Returns whether that succeeded.
pub(crate) fn send(
    rt: &impl Wait,
    service: &Service,
    pass: &mut Pass,
    id: i32,
    mtype: i64,
    text: &Body,
    nowait: bool,
) -> bool
    requires { AreOf service.now pass.old.seats }
    ensures { AreOf service.now pass.new.seats }
{
    let flags = flags_of(nowait);
    service
        .msgsnd(rt, pass, &Still, USER, id, mtype, text, flags)
        .is_ok()
}

/// Receives a body, and waits for one unless `nowait`. Returns whether that succeeded.
pub(crate) fn receive(
    rt: &impl Wait,
    service: &Service,
    pass: &mut Pass,
    id: i32,
    mtype: i64,
    out: &mut Body,
    nowait: bool,
) -> bool
    requires { AreOf service.now pass.old.seats }
    ensures { AreOf service.now pass.new.seats }
{
    let flags = flags_of(nowait);
    match service.msgrcv(rt, pass, &Still, USER, id, out, 8192, mtype, flags) {
        Ok(delivery) => {
            delivery.written(&mut Tally::open());
            true
        }
        Err(_) => false,
    }
}

fn flags_of(nowait: bool) -> Flags {
    if nowait {
        Flags::IPC_NOWAIT
    } else {
        Flags::from_bits_retain(0)
    }
}
