//! The source of the time of a step.

ghost use Rattle.std.specs.Prelude.{ℕ};

/// A clock that returns the time in seconds. Successive times need not rise.
pub trait Clock {
    /// The times that the clock may return.
    ghost may: { Self → ℕ → Type 0 };

    /// Returns the current time in seconds.
    fn now(&self) -> u64
        ensures { may self.now result };
}
