//! Laying a table with several places.
ghost use Rattle.std.specs.Prelude.{◌≡◌, ◌*◌, ◌^◌, ◌≤◌, List, [], length, vec_capacity, None, IfSome, IfNone, IfOk, IfErr};
ghost use Rattle.std.specs.List.{All};
ghost use Rattle.sysv_gate.specs.History.{AreUpTo};
ghost use Rattle.sysv_gate.specs.Rule.{put};
ghost use Rattle.sysv_gate.specs.Laying.{AreLaidUpTo, AreLocksUpTo, all_put, IsNew, IsLaidOut};

use crate::lock::PlaceLock;
use crate::object::Object;
use crate::table::place::{Beside, Place};
use crate::table::words::words_at;
use crate::table::{PlaceTable, Spot, TableKey, TableToken};
use atomic_table::{Refused, Table};
use std::alloc::Global;
use std::snapshot::Snapshot;

/// Makes the words of the places. Returns `None` if memory is refused.
fn words_for<O: Object>(
    alloc: Global,
    objects: &Vec<O, Global>,
    first: u64,
) -> Option<Vec<u64, Global>>
    ensures { IfSome result (λ words. AreLaidUpTo O.counted first objects.now.items
        (length objects.now.items) words.items) }
{
    let mut words = Vec::new(alloc);
    for place in 0..objects.len() {
        let new = words_at(first, objects[place].counts());
        let Ok(()) = words.extend_from_slice(&new) else {
            return None;
        };
    }
    Some(words)
}

/// Makes one lock per place. Returns `None` if memory is refused.
fn locks_for<O: Object>(
    alloc: Global,
    objects: &Vec<O, Global>,
) -> Option<Vec<PlaceLock<O>, Global>>
    requires few { 80 * length objects.now.items ≤ 2 ^ 60 }
    requires counts { All (λ o. AreUpTo (2 ^ 61) (O.counted o)) objects.now.items }
    ensures { IfSome result (λ locks. AreLocksUpTo objects.now.items (length objects.now.items)
        locks.items) }
{
    let Ok(mut locks) = Vec::with_capacity(alloc, objects.len()) else {
        return None;
    };
    for place in 0..objects.len() {
        let Some(lock) = PlaceLock::new(alloc, place, &objects[place]) else {
            return None;
        };
        locks.push_reserved(lock);
    }
    Some(locks)
}

/// Moves each object into a slot.
fn fill<O: Object>(objects: &mut Vec<O, Global>, spots: &mut Vec<Spot<O>, Global>)
    requires room { (spots.old.items ≡ []) × (length objects.old.items ≤ vec_capacity spots.old) }
    ensures spots { spots.new.items ≡ all_put objects.old.items }
    ensures none { objects.new.items ≡ [] }
    ensures room { vec_capacity objects.new ≡ vec_capacity objects.old }
{
    objects.reverse();
    while let Some(object) = objects.pop() {
        spots.push_reserved(Some(Place {
            object,
            last: Beside::none(),
        }));
    }
}

/// Returns the object of a slot that was filled.
fn object_out<O: Object>(spot: Spot<O>) -> O
    requires { (o : O) × (spot ≡ put o None) }
    ensures { spot ≡ put result None }
{
    let Some(Place { object, last: _ }) = spot else {
        unreachable!()
    };
    object
}

/// Moves each object out of its slot again.
fn empty<O: Object>(mut spots: Vec<Spot<O>, Global>, objects: &mut Vec<O, Global>)
    requires spots { (all : List O) × (spots.items ≡ all_put all)
        × (length all ≤ vec_capacity objects.old) }
    requires none { objects.old.items ≡ [] }
    ensures back { spots.items ≡ all_put objects.new.items }
{
    while let Some(spot) = spots.pop() {
        objects.push_reserved(object_out(spot));
    }
    spots.destroy_empty();
    objects.reverse();
}

/// Lays the table of the objects. Returns it with its first pass and one lock per place, and leaves
/// `objects` empty. Returns `None` if memory is refused; `objects` is then unchanged.
///
/// # Conditions
///
/// - `key` has a snapshot of these objects, and its first ticket is at most 2^62.
/// - Both counts of each object are at most 2^61.
pub fn lay_table<O: Object>(
    alloc: Global,
    objects: &mut Vec<O, Global>,
    key: &TableKey<O>,
) -> Option<(PlaceTable<O>, TableToken<O>, Vec<PlaceLock<O>, Global>)>
    requires key { (key.now.openings.value.items ≡ objects.old.items) × (key.now.first ≤ 2 ^ 62) }
    requires counts { All (λ o. AreUpTo (2 ^ 61) (O.counted o)) objects.old.items }
    ensures some { IfSome result (λ t. IsNew t.0.shared.table_id t.0.shared.key key.now t.1) }
    ensures locks { IfSome result (λ t. AreLocksUpTo objects.old.items (length objects.old.items)
        t.2.items × (80 * length objects.old.items ≤ 2 ^ 60)) }
    ensures laid { IfSome result (λ t. objects.new.items ≡ []) }
    ensures none { IfNone result (objects.new.items ≡ objects.old.items) }
{
    let Some(words) = words_for(alloc, objects, key.first) else {
        return None;
    };
    let Some(locks) = locks_for(alloc, objects) else {
        return None;
    };
    match raise(alloc, &words, objects, key) {
        Some((table, token)) => Some((table, token, locks)),
        None => None,
    }
}

/// Lays the table of a gate, which has one place. Returns it with its first pass and its lock. If
/// memory is refused, the object is handed back.
pub(crate) fn lay_one<O: Object>(
    alloc: Global,
    object: O,
    first: u64,
) -> Result<(PlaceTable<O>, TableToken<O>, PlaceLock<O>), O>
    requires low { first ≤ 2 ^ 62 }
    requires counts { AreUpTo (2 ^ 61) (O.counted object) }
    ensures ok { IfOk result (λ t. IsLaidOut object first t.0.shared.table_id t.0.shared.key t.2
        t.1) }
    ensures err { IfErr result (λ o. o ≡ object) }
{
    let Ok(mut objects) = Vec::with_capacity(alloc, 1) else {
        return Err(object);
    };
    objects.push_reserved(object);
    let key = TableKey {
        openings: Snapshot::of(&objects),
        first,
    };
    match lay_table(alloc, &mut objects, &key) {
        Some((table, token, mut locks)) => {
            objects.destroy_empty();
            let Some(lock) = locks.pop() else {
                unreachable!()
            };
            Ok((table, token, lock))
        }
        None => {
            let Some(object) = objects.pop() else {
                unreachable!()
            };
            objects.destroy_empty();
            Err(object)
        }
    }
}

/// Lays the table of the objects over these words. Returns `None`, with the objects unchanged, if
/// memory is refused.
fn raise<O: Object>(
    alloc: Global,
    words: &Vec<u64, Global>,
    objects: &mut Vec<O, Global>,
    key: &TableKey<O>,
) -> Option<(PlaceTable<O>, TableToken<O>)>
    requires key { (key.now.openings.value.items ≡ objects.old.items) × (key.now.first ≤ 2 ^ 62) }
    requires laid { AreLaidUpTo O.counted key.now.first objects.old.items (length objects.old.items)
        words.now.items }
    ensures some { IfSome result (λ t. IsNew t.0.shared.table_id t.0.shared.key key.now t.1) }
    ensures laid { IfSome result (λ t. objects.new.items ≡ []) }
    ensures none { IfNone result (objects.new.items ≡ objects.old.items) }
{
    let Ok(mut spots) = Vec::with_capacity(alloc, objects.len()) else {
        return None;
    };
    fill(objects, &mut spots);
    match Table::new(alloc, words, spots, key) {
        Ok(made) => Some(made),
        Err(Refused { slots }) => {
            empty(slots, objects);
            None
        }
    }
}
