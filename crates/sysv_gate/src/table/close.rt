//! Closing a table place by place.
ghost use Rattle.std.specs.Prelude.{◌≡◌, ℕ, ◌+◌, ◌*◌, ◌^◌, ◌<◌, ◌≤◌, IsTrue, false, slice_index_or, slice_set};
ghost use mathlib.Core.Option.{some};
ghost use lib.ListN.{get_elem?};
ghost use Rattle.std.specs.Mem.Slots.{IsFull, slots_len, slots_items, slots_filled};
ghost use Rattle.sysv_gate.specs.Ending.{IsReadAt};
ghost use Rattle.sysv_gate.specs.Closings.{held_object};

use crate::gate::closing::Closing;
use crate::object::Object;
use crate::table::Spot;
use crate::table::place::Place;
use crate::table::words::{SERVING, TICKET};
use atomic_table::Closed;
use std::alloc::Global;

/// Returns the object in the slot, if there is one.
fn object_in<O, C, R>(spot: Option<Place<O, C, R>>) -> Option<O>
    ensures { result ≡ held_object spot }
{
    match spot {
        Some(Place { object, last: _ }) => Some(object),
        None => None,
    }
}

/// Returns what a closed table held at the place. The slot of the place is then empty.
///
/// The object is returned in `object` if every drawn ticket of the place was served, and in `rest`
/// if not.
///
/// # Conditions
///
/// - The place is one of the table, and its slot has not been taken yet.
/// - The words are those of the closed table, whose tickets began at `first`.
pub fn close_place<O: Object>(
    closed: &mut Closed<Spot<O>, Global>,
    place: usize,
    first: u64,
) -> Closing<O>
    requires words { (80 * place + 80 ≤ slots_len closed.old.words) × (80 * place + 80 < 2 ^ 64)
        × IsFull closed.old.words }
    requires slot { (place < slots_len closed.old.slots)
        × IsTrue (slice_index_or (slots_filled closed.old.slots) place false) }
    requires served { (served : ℕ) → get_elem? (slots_items closed.old.words) (80 * place + 16)
        ≡ some served → first ≤ served }
    ensures read { IsReadAt first (slots_items closed.old.words) (slots_items closed.old.slots)
        place result }
    ensures words { closed.new.words ≡ closed.old.words }
    ensures slots { (slots_items closed.new.slots ≡ slots_items closed.old.slots)
        × (slots_filled closed.new.slots ≡ slice_set (slots_filled closed.old.slots) place false)
        × (slots_len closed.new.slots ≡ slots_len closed.old.slots) }
{
    let base = 80 * place;
    let served = closed.word(base + SERVING);
    let next = closed.word(base + TICKET);
    let left = object_in(closed.take(place));
    let turns = served - first;
    if served != next {
        return Closing {
            object: None,
            rest: left,
            turns,
            next_ticket: next,
        };
    }
    Closing {
        object: left,
        rest: None,
        turns,
        next_ticket: next,
    }
}
