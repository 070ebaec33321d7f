//! Selectors of messages.

ghost use Rattle.std.specs.Prelude.{◌≡◌};
ghost use Rattle.sysv_model.specs.Selector.{selector_for};

use crate::flags::Flags;
use bitflags::Flags as _;

/// The messages that a receive requests (POSIX.1-2017, `msgrcv`, DESCRIPTION).
#[derive(Clone, Copy, PartialEq, Eq, Debug)]
pub enum Selector {
    /// The first message.
    Any,
    /// The first message of exactly this type.
    Exactly(i64),
    /// The first message of any type but this one.
    Except(i64),
    /// The first message of the lowest type that is at most this bound.
    ///
    /// The bounds that `Selector::of` returns are 1 to 2^63. Other bounds are allowed.
    UpTo(u64),
}

impl Selector {
    /// Returns the selector of a receive with type argument `mtype` and `flags` (POSIX.1-2017,
    /// `msgrcv`, DESCRIPTION).
    ///
    /// - If `mtype` is 0, the selector is `Any`.
    /// - If `mtype` is above 0, it is `Exactly(mtype)`. With `MSG_EXCEPT` it is `Except(mtype)`
    ///   (specific to this profile, as in Linux).
    /// - If `mtype` is below 0, it is `UpTo` with the absolute value of `mtype`, 1 to 2^63.
    ///
    /// Other flags have no effect, and `MSG_EXCEPT` has none if `mtype` is 0 or below.
    pub fn of(mtype: i64, flags: Flags) -> Selector
        ensures { result ≡ selector_for mtype flags }
    {
        if mtype == 0 {
            Selector::Any
        } else if mtype < 0 {
            Selector::UpTo(mtype.unsigned_abs())
        } else if flags.contains(Flags::MSG_EXCEPT) {
            Selector::Except(mtype)
        } else {
            Selector::Exactly(mtype)
        }
    }
}
