//! The origin of the items.
ghost use Rattle.std.specs.Prelude.{Option};

/// A source of items, one after the other.
pub trait Source<T> {
    /// What a call of `next` may return, and what source it leaves.
    ghost gives: { Self → Option T → Self → Type 0 };

    /// Returns the next item, or `None` if there are no more. A source whose type has the handle
    /// for it may wait here.
    fn next(&mut self) -> Option<T>
        ensures { gives self.old result self.new };
}
