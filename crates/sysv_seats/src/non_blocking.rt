//! Connections that never wait.
ghost use Rattle.std.specs.Prelude.{◌≡◌, ◌⊎◌, ℕ, List, Option, None, Some, IfSome, true};
ghost use Rattle.sysv_seats.specs.Breaking.{MayBreak};
ghost use Rattle.sysv_seats.specs.Limits.{has_limit};
ghost use Rattle.sysv_seats.specs.NonBlocking.{DrainAppends, FillConsumes, said_after};

use crate::callers::Callers;
use crate::limits::Limit;

/// A connection whose reads and writes return at once.
///
/// An event loop reads from it and writes to it when the system reports that it is ready, and
/// closes it once.
pub trait NonBlocking {
    ghost use Rattle.sysv_seats.specs.declared.non_blocking.Over.{Over};
    ghost use Rattle.sysv_seats.specs.Untold.{Closing};

    /// What is kept of the connections that were closed.
    type Book;

    /// The bytes that can still be read from the connection, if it tells them.
    ghost incoming: { Self → Option (List ℕ) };

    /// The bytes that were written to the connection so far, if it tells them.
    ghost outgoing: { Self → Option (List ℕ) };

    /// Why nothing more can be read, if that is so.
    ghost over: { Self → Option Over };

    /// Each write fails from now on.
    ghost refuses: { Self → Type 0 };

    /// How connections end. `breaks` is what may break off a session on one, which no read or
    /// write changes. `said` is why nothing more can be read, if a read has said so. `leaves` is
    /// what becomes of a book when a connection is closed that has these bytes still to be read,
    /// and to which these bytes were written.
    ghost closes: { Closing Self Self.Book };

    /// Reads into the front of `buf` what can be read now. Once reading is over, every read says
    /// so. A connection that does not tell its bytes does not tell them after a read either.
    fn fill(&mut self, buf: &mut [u8]) -> Filled
        ensures bytes { FillConsumes (incoming self.old) (incoming self.new) result buf.new }
        ensures untold { incoming self.old ≡ None → incoming self.new ≡ None }
        ensures over { (why : Over) → result ≡ Filled.Over why → over self.new ≡ Some why }
        ensures said { closes.said self.new ≡ said_after result (closes.said self.old) }
        ensures again { (why : Over) → over self.old ≡ Some why
            → (result ≡ Filled.Over why) × (over self.new ≡ Some why) }
        ensures written { outgoing self.new ≡ outgoing self.old }
        ensures refuses { refuses self.old → refuses self.new }
        ensures breaks { closes.breaks self.new ≡ closes.breaks self.old }
        ensures reset { result ≡ Filled.Over Over.Reset
            → (closes.breaks self.new).resetting ≡ true }
        ensures failed { result ≡ Filled.Over Over.Failed
            → (closes.breaks self.new).reading ≡ true };

    /// Writes what can be written of `bytes` now, from the front. Once a write has failed, every
    /// write fails.
    fn drain(&mut self, bytes: &[u8]) -> Drained
        ensures bytes { DrainAppends (outgoing self.old) (outgoing self.new) result bytes.now }
        ensures failed { result ≡ Drained.Failed → refuses self.new }
        ensures again { refuses self.old → (result ≡ Drained.Failed) × refuses self.new }
        ensures unread { incoming self.new ≡ incoming self.old }
        ensures over { over self.new ≡ over self.old }
        ensures said { closes.said self.new ≡ closes.said self.old }
        ensures breaks { closes.breaks self.new ≡ closes.breaks self.old }
        ensures writing { result ≡ Drained.Failed → (closes.breaks self.new).writing ≡ true };

    /// Returns whether the connection's client may leave a call that waits.
    fn may_leave(&self) -> bool
        ensures leaving { result ≡ (closes.breaks self.now).leaving }
        ensures writing { result ≡ true → (closes.breaks self.now).writing ≡ true };

    /// Returns whether the server may cut the connection's client off under this limit.
    fn may_be_cut(&self, limit: Limit) -> bool
        ensures limit { result ≡ has_limit (closes.breaks self.now).limits limit }
        ensures all { result ≡ true → MayBreak (closes.breaks self.now) };

    /// Returns the callers that the server lets in here.
    fn callers(&self) -> Callers
        ensures callers { result ≡ (closes.breaks self.now).callers };

    /// Closes the connection.
    fn close(self, book: &mut Self::Book)
        ensures { closes.leaves book.old (incoming self) (outgoing self) book.new };
}

/// The result of a read that does not wait.
#[derive(Clone, Copy, PartialEq, Eq, Debug)]
pub enum Filled {
    /// This number of bytes was read. It is at least 1.
    Bytes(usize),
    /// Nothing can be read now, or the buffer has no room.
    NothingNow,
    /// Nothing more can be read.
    Over(Over),
}

/// Why nothing more can be read from a connection.
#[derive(Clone, Copy, PartialEq, Eq, Debug)]
pub enum Over {
    /// The client has shut down its writing, and everything that it wrote was read.
    End,
    /// The client closed the connection before it had read everything that was written to it.
    Reset,
    /// A read failed.
    Failed,
}

/// The result of a write that does not wait.
#[derive(Clone, Copy, PartialEq, Eq, Debug)]
pub enum Drained {
    /// This number of bytes was written. It is at least 1.
    Took(usize),
    /// Nothing can be written now, or there are no bytes to write.
    NothingNow,
    /// The write failed.
    Failed,
}
