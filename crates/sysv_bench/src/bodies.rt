//! The bodies of a measurement.
use std::alloc::Global;
use sysv_model::Body;

/// A body that is stored or sent, and a body for what is read or received.
#[derive(Drop)]
pub(crate) struct Bodies {
    pub(crate) text: Body,
    pub(crate) out: Body,
}

impl Bodies {
    /// Returns two empty bodies, or `None` if memory is refused.
    pub(crate) fn open(alloc: Global) -> Option<Bodies> {
        let text = Body::open(alloc).ok()?;
        let Ok(out) = Body::open(alloc) else {
            return None;
        };
        Some(Bodies { text, out })
    }

    /// Returns bodies the first of which holds these bytes, or `None` if memory is refused.
    pub(crate) fn of(alloc: Global, bytes: &[u8]) -> Option<Bodies> {
        let mut bodies = Bodies::open(alloc)?;
        bodies.text.push_piece(bytes);
        Some(bodies)
    }

    /// Returns bodies the first of which holds `size` bytes, at most 8,192, or `None` if memory is
    /// refused.
    pub(crate) fn of_size(alloc: Global, size: u64) -> Option<Bodies> {
        let mut bodies = Bodies::open(alloc)?;
        for _ in 0..size.min(8192) {
            bodies.text.push_piece(b"x");
        }
        Some(bodies)
    }
}
