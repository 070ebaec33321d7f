//! How passes of a table are split and joined.
ghost use Rattle.std.specs.Prelude.{◌≡◌, ◌≤◌, []};
ghost use Rattle.sysv_gate.specs.History.{Moves};
ghost use Rattle.sysv_gate.specs.Plays.{halved, both_of, Merges};
ghost use Rattle.sysv_gate.specs.Locks.{IsNewcomer, IsPassOf, HasPlaces, RestsIn};

use crate::object::Object;
use crate::table::words::SERVING;
use crate::table::{Gathering, Merging, Naming, PlaceTable, Sharing, TableToken};

/// Returns a new pass, which may move to another thread. It has a number of its own and half of the
/// share, has seen what `token` has seen, and has made none of the turns there. The other half of
/// the share stays with `token`.
///
/// # Conditions
///
/// - The table has at least one place.
/// - `token` is a pass of this table, and is at rest at every place.
pub fn split_pass<O: Object>(table: &PlaceTable<O>, token: &mut TableToken<O>) -> TableToken<O>
    requires table { IsPassOf table.now.shared token.old × HasPlaces table.now.shared }
    requires rest { RestsIn table.now.shared token.old }
    ensures same { (token.new.table_id ≡ token.old.table_id)
        × (token.new.me ≡ (halved token.old.me.0, token.old.me.1)) }
    ensures new { (result.table_id ≡ token.old.table_id) × IsNewcomer token.old.me.0 result.me }
{
    let mut other = table.shared.split_seat::<Sharing>(token);
    table.shared.load::<Naming>(&mut other, SERVING);
    other
}

/// Merges `other` into `token`: what both have seen, their turns, their numbers and their shares.
///
/// # Conditions
///
/// - The table has at least one place.
/// - `token` and `other` are passes of this table, and both are at rest at every place.
pub fn join_pass<O: Object>(table: &PlaceTable<O>, token: &mut TableToken<O>, other: TableToken<O>)
    requires table { IsPassOf table.now.shared token.old × HasPlaces table.now.shared }
    requires other { IsPassOf table.now.shared other × (other.me.1 ≡ []) }
    requires rest { RestsIn table.now.shared token.old }
    requires other_rest { RestsIn table.now.shared other }
    ensures same { token.new.table_id ≡ token.old.table_id }
    ensures joined { Merges (Moves O.meaning O.counted)
        (both_of token.old.me.0 other.me.0, token.old.me.1) token.new.me }
{
    table.shared.join_seat::<Gathering>(token, other);
    table.shared.load::<Merging<O>>(token, SERVING);
}
