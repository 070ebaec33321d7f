//! The opening of a body, with a growth of it refused.

use super::*;
use crate::parts::assert_is;
use sysv_model::{Body, NoMemory};
use tests_kit::mark;

#[test]
fn body_open(rt: HostRuntime) {
    let text = [b'x'; BODY_ROOM];
    let _marked = mark(rt.alloc());
    match Body::open(rt.alloc()) {
        Ok(mut body) => {
            assert!(rt; body.push_piece(&text));
            assert_is(&rt, body.len(), BODY_ROOM);
        }
        Err(why) => {
            assert_is(&rt, why, NoMemory);
            let _ = println!(rt; "refused: {why}");
        }
    }
}
