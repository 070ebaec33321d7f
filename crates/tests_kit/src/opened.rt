//! Objects that are opened although memory is refused once.
ghost use Rattle.std.specs.Prelude.{◌≡◌, [], IfSome};

use std::alloc::Global;
use sysv_model::{Body, NoMemory};
use sysv_pool::{Pool, PoolRefused};

/// Opens a body. Returns `None` if memory is refused twice.
pub fn open_body(alloc: Global) -> Option<Body>
    ensures { IfSome result (λ body. body ≡ []) }
{
    match Body::open(alloc) {
        Ok(body) => Some(body),
        Err(NoMemory) => Body::open(alloc).ok(),
    }
}

/// Opens a pool with this number of blocks. Returns `None` if memory is refused twice, or if a pool
/// cannot have that number of blocks.
pub fn open_pool(alloc: Global, blocks: u32) -> Option<Pool> {
    match Pool::open(alloc, blocks) {
        Ok(pool) => Some(pool),
        Err(PoolRefused::NoMemory) => Pool::open(alloc, blocks).ok(),
        Err(PoolRefused::BadSize) => None,
    }
}
