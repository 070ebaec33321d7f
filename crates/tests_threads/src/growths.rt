//! Each call that allocates, with a growth of it refused: it then returns `NoMemory`.

use crate::parts::assert_is;
use sysv_buffer::{ManyBuffer, OneBuffer, OpenRefused};
use tests_kit::mark;

#[test]
fn one_buffer_open(rt: HostRuntime) {
    let _marked = mark(rt.alloc());
    match OneBuffer::open(rt.alloc(), 2) {
        Ok((buffer, mut puts, mut takes)) => {
            assert_is(&rt, buffer.try_put(&mut puts, 5_u8).ok(), Some(()));
            assert_is(&rt, buffer.try_take(&mut takes).ok(), Some(5));
        }
        Err(why) => assert!(rt; matches!(&why, OpenRefused::NoMemory)),
    }
}

#[test]
fn many_buffer_open(rt: HostRuntime) {
    let _marked = mark(rt.alloc());
    match ManyBuffer::open(rt.alloc(), 2) {
        Ok((buffer, mut seat)) => {
            assert_is(&rt, buffer.try_put(&mut seat, 5_u8).ok(), Some(()));
            assert_is(&rt, buffer.try_take(&mut seat).ok(), Some(5));
        }
        Err(why) => assert!(rt; matches!(&why, OpenRefused::NoMemory)),
    }
}
