//! What is kept of connections in memory.
ghost use Rattle.std.specs.Prelude.{◌≡◌, IfSome, [], vec_capacity};
ghost use Rattle.sysv_seats.specs.Memory.{KeepsMore, replies_in};

use std::alloc::Global;

/// The replies of closed connections in memory.
///
/// A connection that is closed when there is no room is not kept.
#[derive(Drop)]
pub struct Replies {
    kept: Vec<Vec<u8>>,
}

impl Replies {
    /// Returns a book without replies, which has room for those of `room` connections. Returns
    /// `None` if memory is refused.
    pub fn with_room(alloc: Global, room: usize) -> Option<Replies>
        ensures { IfSome result (λ book. (replies_in book ≡ []) × (vec_capacity book.kept ≡ room)) }
    {
        let kept = Vec::with_capacity(alloc, room).ok()?;
        Some(Replies { kept })
    }

    /// Returns the replies, connection by connection, in the order in which they were closed.
    pub fn kept(&self) -> &[Vec<u8>]
        ensures { result.now ≡ self.now.kept.items }
    {
        self.kept.as_slice()
    }

    /// Keeps the replies of one more connection, if there is room.
    pub fn keep(&mut self, replies: Vec<u8>)
        ensures { KeepsMore self.old replies.items self.new }
    {
        if self.kept.len() < self.kept.capacity() {
            self.kept.push_reserved(replies);
        }
    }
}
