//! Why parked calls are due.
ghost use Rattle.std.specs.Prelude.{◌≡◌};
ghost use Rattle.sysv_parking.specs.Due.{both, is_due as due};

/// Why a parked call is due to be looked at, if it is.
#[derive(Clone, Copy, PartialEq, Eq, Debug)]
pub struct Why {
    /// Its queue was set or removed.
    pub changed: bool,
    /// The count for which it waits rose otherwise.
    pub raised: bool,
}

impl Why {
    /// The call is not due.
    pub const NOT: Why = Why {
        changed: false,
        raised: false,
    };

    /// The queue of the call was set or removed.
    pub const CHANGED: Why = Why {
        changed: true,
        raised: false,
    };

    /// The count for which the call waits rose otherwise.
    pub const RAISED: Why = Why {
        changed: false,
        raised: true,
    };

    /// Anything may have happened.
    pub const ALL: Why = Why {
        changed: true,
        raised: true,
    };

    /// Returns whether the call is due.
    pub fn is_due(self) -> bool
        ensures { result ≡ due self }
    {
        self.changed || self.raised
    }

    /// Returns both reasons.
    pub fn and(self, more: Why) -> Why
        ensures { result ≡ both self more }
    {
        Why {
            changed: self.changed || more.changed,
            raised: self.raised || more.raised,
        }
    }
}
