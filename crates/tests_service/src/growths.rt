//! Each call of a service that allocates, with a growth of it refused: it then returns `NoMemory`,
//! and the pass is unchanged.

use crate::parts::{CLOCK, assert_is, closed, opened};
use sysv_model::Errno;
use sysv_service::{OpenRefused, Service};
use tests_kit::{USER, creating, mark};

#[test]
fn service_open(rt: HostRuntime) {
    let _marked = mark(rt.alloc());
    match Service::open(rt.alloc(), 128) {
        Ok((service, mut pass)) => {
            let id = service.msgget(&rt, &mut pass, &CLOCK, USER, 7, creating());
            assert_is(&rt, id, Ok(0));
            assert_is(&rt, service.close(pass), closed(0, 128));
        }
        Err(why) => assert_is(&rt, why, OpenRefused::NoMemory),
    }
}

#[test]
fn service_starting_at(rt: HostRuntime) {
    let _marked = mark(rt.alloc());
    match Service::open_at(rt.alloc(), 128, (1 << 62) - 1, 0) {
        Ok((service, mut pass)) => {
            let id = service.msgget(&rt, &mut pass, &CLOCK, USER, 7, creating());
            assert_is(&rt, id, Err(Errno::EOVERFLOW));
            assert_is(&rt, service.close(pass), closed(0, 128));
        }
        Err(why) => assert_is(&rt, why, OpenRefused::NoMemory),
    }
}

// The other pass finds the queue that the first pass has made, and the first pass removes it.
#[test]
fn split_of_pass(rt: HostRuntime) {
    let (service, mut pass) = opened(&rt, rt.alloc(), 128, 0);
    let id = service.msgget(&rt, &mut pass, &CLOCK, USER, 7, creating());
    assert_is(&rt, id, Ok(0));
    let _marked = mark(rt.alloc());
    let other = service.split_pass(rt.alloc(), &mut pass);
    let mut other = other.expect(&rt, "a split");
    let found = service.msgget(&rt, &mut other, &CLOCK, USER, 7, creating());
    assert_is(&rt, found, Ok(0));
    service.join_pass(&mut pass, other);
    let removed = service.msgctl_rmid(&rt, &mut pass, USER, 0);
    assert_is(&rt, removed, Ok(()));
    assert_is(&rt, service.list_row(&rt, &mut pass, 0), Ok(None));
    assert_is(&rt, service.close(pass), closed(0, 128));
}
