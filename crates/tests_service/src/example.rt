//! A service from its opening to its end.

use crate::parts::{CLOCK, assert_is, body_of, closed, opened};
use sysv_model::Flags;
use sysv_queue::Tally;
use tests_kit::{USER, creating};

#[test]
fn a_message_goes_through_a_service(rt: HostRuntime) {
    let text = body_of(&rt, rt.alloc(), &[b'x'; 100]);
    let mut out = body_of(&rt, rt.alloc(), b"what was there before");
    let (service, mut pass) = opened(&rt, rt.alloc(), 1024, 0);
    let id = service.msgget(&rt, &mut pass, &CLOCK, USER, 7, creating());
    assert_is(&rt, id, Ok(0));
    let flags = Flags::IPC_NOWAIT;
    let sent = service.msgsnd(&rt, &mut pass, &CLOCK, USER, 0, 5, &text, flags);
    assert_is(&rt, sent, Ok(()));
    let got = service.msgrcv(&rt, &mut pass, &CLOCK, USER, 0, &mut out, 8192, -9, flags);
    match got {
        Ok(delivery) => {
            assert_is(&rt, (delivery.mtype(), delivery.len()), (5, 100));
            delivery.written(&mut Tally::open());
        }
        Err(why) => panic!(rt; "{why}"),
    }
    assert_is(&rt, out.len(), 100);
    assert_is(&rt, service.close(pass), closed(0, 1024));
}
