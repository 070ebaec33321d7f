//! Each call that allocates, with a growth of it refused: it then returns `NoMemory`.

use crate::parts::assert_is;
use sysv_eventcount::{Eventcount, OpenRefused, Sequencer};
use tests_kit::mark;

#[test]
fn eventcount_open(rt: HostRuntime) {
    let _marked = mark(rt.alloc());
    match Eventcount::open(rt.alloc(), 7) {
        Ok((count, mut seat)) => {
            assert_is(&rt, count.advance(&mut seat).ok(), Some(8));
            assert_is(&rt, count.read(&mut seat), 8);
        }
        Err(why) => assert!(rt; matches!(&why, OpenRefused::NoMemory)),
    }
}

#[test]
fn sequencer_open(rt: HostRuntime) {
    let _marked = mark(rt.alloc());
    match Sequencer::open(rt.alloc(), 7) {
        Ok((turns, mut seat)) => assert_is(&rt, turns.ticket(&mut seat).ok(), Some(7)),
        Err(why) => assert!(rt; matches!(&why, OpenRefused::NoMemory)),
    }
}
