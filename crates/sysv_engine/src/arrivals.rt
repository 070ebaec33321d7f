//! Sources of connections that may look at the queues of the server.
ghost use Rattle.std.specs.Prelude.{◌≡◌, Option};
ghost use Rattle.sysv_engine.specs.Looks.{Looks};

use crate::rows::Rows;
use std::sync::Wait;

/// A source of connections like `Source`, which may look at the queues of the server while it waits
/// for a connection.
pub trait Arrivals<T> {
    /// What a call of `next` may return, and what source it leaves.
    ghost gives: { Self → Option T → Self → Type 0 };

    /// Returns the next connection, or `None` if there are no more.
    fn next<R: Wait>(&mut self, rows: &mut Rows<'_, R>) -> Option<T>
        ensures gives { gives self.old result self.new }
        ensures looks { Looks rows.old rows.new };
}
