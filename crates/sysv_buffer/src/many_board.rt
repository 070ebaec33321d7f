//! The table of a `ManyBuffer`.
ghost use Rattle.std.specs.Prelude.{◌≡◌, ◌<◌, [], IfSome};
ghost use Rattle.sysv_buffer.specs.ManyRing.{first_sight};

use crate::board::empty_cells;
use crate::many_rule::Crowding;
use crate::many_view::Sight;
use atomic_table::Table;
use std::alloc::Global;

/// The word with the next ticket for a put. All words in use are 128 bytes apart.
pub(crate) const PUT_TICKET: usize = 32;

/// The word with the next ticket for a take.
pub(crate) const TAKE_TICKET: usize = 48;

/// The number of words in the table. It is large enough that no other memory is near the last word
/// in use.
const WORDS: usize = 64;

/// The table of a `ManyBuffer`: two counts, two sequencers, and the cells.
pub(crate) type Board<T> = Table<Option<T>, Sight<T>, (), Crowding<T>, Global>;

/// The right to make steps on the table.
pub(crate) type Token<T> = atomic_table::Seat<Option<T>, Sight<T>>;

/// Makes the table with its first seat.
pub(crate) fn lay<T: Drop>(alloc: Global, cells: usize) -> Option<(Board<T>, Token<T>)>
    requires { 0 < cells }
    ensures { IfSome result (λ t. (t.1.me ≡ (first_sight, []))
        × (t.1.table_id ≡ t.0.shared.table_id) × (t.0.shared.table_id.words ≡ 64)
        × (t.0.shared.table_id.slots ≡ cells)) }
{
    let row = empty_cells(alloc, cells)?;
    Table::new(alloc, &[0; WORDS], row, &()).ok()
}
