//! The objects that gates serve.
ghost use Rattle.std.specs.Prelude.{◌≡◌, ℕ, ◌^◌, ⊤};
ghost use Rattle.sysv_gate.specs.History.{RiseByOneAtMost, AreBelow};

/// A type whose values can be behind a gate: it has one type of call, and two counts that the gate
/// announces.
pub trait Object {
    /// The calls of the object.
    type Call;

    /// The replies of the object.
    type Reply;

    /// The replies that a call may return, and the objects that it may leave.
    ghost meaning: { Self → Self.Call → Self.Reply → Self → Type 0 };

    /// The two counts of the object.
    ghost counted: { Self → ℕ × ℕ };

    /// The calls that the object accepts. By default it accepts every call.
    ghost accepts: { Self → Self.Call → Type 0 } = { λ object call. ⊤ };

    /// Makes the call as `meaning` allows, and returns the reply. Each of the two counts stays or
    /// rises by one.
    ///
    /// # Conditions
    ///
    /// - Both counts are below 2^63.
    /// - The object accepts the call.
    fn apply(&mut self, call: Self::Call) -> Self::Reply
        requires counts { AreBelow (2 ^ 63) (counted self.old) }
        requires accepted { accepts self.old call }
        ensures meaning { meaning self.old call result self.new }
        ensures counts { RiseByOneAtMost (counted self.old) (counted self.new) };

    /// Returns the two counts.
    fn counts(&self) -> (u64, u64)
        ensures { (result.0 ≡ (counted self.now).0) × (result.1 ≡ (counted self.now).1) };
}
