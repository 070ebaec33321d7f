//! The limits under which a server cuts clients off.
ghost use Rattle.std.specs.Prelude.{◌≡◌};
ghost use Rattle.sysv_seats.specs.Limits.{has_limit, limits_for};

/// A limit under which a server cuts a client off.
#[derive(Clone, Copy, PartialEq, Eq, Debug)]
pub enum Limit {
    /// The next request takes too long to begin.
    Idle,
    /// A request or a reply takes too long from its first byte to its last.
    Stall,
    /// An orderly end takes too long.
    Drain,
}

/// Which limits there are. A client is cut off only under one of them.
#[derive(Clone, Copy, PartialEq, Eq, Debug)]
pub struct Limits {
    /// Whether there is `Limit::Idle`.
    pub idle: bool,
    /// Whether there is `Limit::Stall`.
    pub stall: bool,
    /// Whether there is `Limit::Drain`.
    pub drain: bool,
}

impl Limits {
    /// Returns the limits of a server with these numbers of seconds, each 0 for no limit.
    pub fn of_seconds(idle: u32, stall: u32, drain: u32) -> Limits
        ensures { result ≡ limits_for idle stall drain }
    {
        Limits {
            idle: idle != 0,
            stall: stall != 0,
            drain: drain != 0,
        }
    }

    /// Returns all limits, or none.
    pub fn all_or_none(all: bool) -> Limits
        ensures { result ≡ record { idle = all; stall = all; drain = all } }
    {
        Limits {
            idle: all,
            stall: all,
            drain: all,
        }
    }

    /// Returns whether there is this limit.
    pub fn has(self, limit: Limit) -> bool
        ensures { result ≡ has_limit self limit }
    {
        match limit {
            Limit::Idle => self.idle,
            Limit::Stall => self.stall,
            Limit::Drain => self.drain,
        }
    }
}
