//! How many connections of a socket are open.

use std::alloc::Global;
use std::sync::Arc;

/// The open connections of a socket. The socket has one share of it, and each of its connections has one
/// until it is closed: so they are counted without a step of who closes them.
#[derive(Drop)]
pub struct Attendance(Arc<()>);

impl Attendance {
    /// Creates the attendance of a socket without connections. Returns `None` if memory is refused.
    pub fn try_new(alloc: Global) -> Option<Attendance> {
        match Arc::new(alloc, ()) {
            Ok(shares) => Some(Attendance(shares)),
            Err(_) => None,
        }
    }

    /// Returns the share of one more connection. Returns `None` if there are too many.
    pub fn join(&self) -> Option<Attendance> {
        match Arc::try_clone(&self.0) {
            Ok(share) => Some(Attendance(share)),
            Err(_) => None,
        }
    }

    /// Returns the number of connections that are open.
    pub fn count(&self) -> u64 {
        (Arc::strong_count(&self.0) as u64).saturating_sub(1)
    }
}
