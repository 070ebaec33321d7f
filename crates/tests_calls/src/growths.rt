//! The opening of a world, with a growth of it refused: it then returns `NoMemory`.

use crate::parts::assert_is;
use sysv_core::{OpenRefused, World};
use tests_kit::mark;

#[test]
fn world_open(rt: HostRuntime) {
    let _marked = mark(rt.alloc());
    match World::open(rt.alloc(), 16, 128) {
        Ok(mut world) => {
            assert!(rt; world.preset());
            assert_is(&rt, world.end(), 128);
        }
        Err(why) => assert_is(&rt, why, OpenRefused::NoMemory),
    }
}

#[test]
fn world_starting_at(rt: HostRuntime) {
    let _marked = mark(rt.alloc());
    match World::open_at(rt.alloc(), 2, 128, 1 << 61, 8_388_607) {
        Ok(mut world) => {
            assert!(rt; world.doing(1).is_none());
            assert_is(&rt, world.end(), 128);
        }
        Err(why) => assert_is(&rt, why, OpenRefused::NoMemory),
    }
}
