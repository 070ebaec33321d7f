//! What workers do with an item.

/// Work over items of type `T` with a state of type `W`. The threads share the job by reference.
pub trait Job<W, T> {
    /// The states that the job works with.
    ghost fits: { Self → W → Type 0 };

    /// The states to which a run over an item may lead from a state.
    ghost runs: { Self → W → T → W → Type 0 };

    /// Waits before a worker with this state takes its first item. By default it returns at once.
    fn await_first(&self, _state: &W) {}

    /// Ends such waits. It is called if a thread cannot be started: then no items come.
    fn call_off(&self) {}

    /// Runs the job over one item and changes the state accordingly. A job whose type has the
    /// handle for it may wait here.
    ///
    /// # Conditions
    ///
    /// - `state` is one that the job works with (`fits`). The state that the run leaves is one,
    ///   too.
    fn run(&self, state: &mut W, item: T)
        requires { fits self.now state.old }
        ensures fits { fits self.now state.new }
        ensures runs { runs self.now state.old item state.new };
}
