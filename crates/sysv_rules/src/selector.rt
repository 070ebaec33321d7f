//! The selection rule: which queued message a selector names.

ghost use Rattle.std.specs.Prelude.{◌≡◌, ◌↔◌, ℕ, [], IsTrue, IsNone, Some, MatchOption};
ghost use Rattle.sysv_rules.specs.Qualifies.{Qualifies, NoneQualifies};
ghost use Rattle.sysv_rules.specs.Named.{IsNamed, IsFirst, IsLeast};

use sysv_model::Selector;

/// Returns whether `sel` requests messages of type `mtype` (POSIX.1-2017, `msgrcv`, DESCRIPTION).
///
/// `mtype` may be any number. Types and bounds are compared as whole numbers, so a bound includes
/// every type of 0 or below.
pub fn qualifies(sel: Selector, mtype: i64) -> bool
    ensures { IsTrue result ↔ Qualifies sel mtype }
{
    match sel {
        Selector::Any => true,
        Selector::Exactly(asked) => mtype == asked,
        Selector::Except(refused) => mtype != refused,
        Selector::UpTo(bound) => mtype < 0 || mtype.unsigned_abs() <= bound,
    }
}

/// Returns the index of the message that `sel` names among queued messages of these types, which
/// are in the order of acceptance (POSIX.1-2017, `msgrcv`, DESCRIPTION).
///
/// This is the first type that qualifies; with a bound, the first of the lowest type, if it
/// qualifies. Returns `None` if no type qualifies. The types may be any numbers, and the list may
/// be empty.
pub fn select_plain(sel: Selector, types: &[i64]) -> Option<usize>
    ensures named { (place : ℕ) → (result ≡ Some place) ↔ IsNamed sel types.now place }
    ensures none { IsNone result ↔ NoneQualifies sel types.now }
{
    match sel {
        Selector::UpTo(_) => least(types).filter(|place| qualifies(sel, types[*place])),
        _ => first(sel, types),
    }
}

/// Returns the first index whose type qualifies.
fn first(sel: Selector, types: &[i64]) -> Option<usize>
    ensures { MatchOption result (NoneQualifies sel types.now) (IsFirst sel types.now) }
{
    for (place, mtype) in types.iter().enumerate() {
        if qualifies(sel, *mtype) {
            return Some(place);
        }
    }
    None
}

/// Returns the first index of the lowest type.
fn least(types: &[i64]) -> Option<usize>
    ensures { MatchOption result (types.now ≡ []) (IsLeast types.now) }
{
    let mut lowest = 0;
    for place in 1..types.len() {
        if types[place] < types[lowest] {
            lowest = place;
        }
    }
    if types.is_empty() { None } else { Some(lowest) }
}
