//! The table of a `OneBuffer`.
ghost use Rattle.std.specs.Prelude.{◌≡◌, ◌<◌, [], None, IfSome, replicate};
ghost use Rattle.sysv_buffer.specs.Ring.{start};

use crate::rule::Buffering;
use crate::view::View;
use atomic_table::Table;
use std::alloc::Global;

/// No item is put or taken once the count has reached this value.
pub(crate) const LIMIT: u64 = 1 << 62;

/// The word that counts the items that were put.
pub(crate) const IN: usize = 0;

/// The word that counts the items that were taken. It is 128 bytes from IN, so that the two share
/// no cache line.
pub(crate) const OUT: usize = 16;

/// The number of words in the table. It is large enough that no other memory is near OUT.
const WORDS: usize = 32;

/// The table of a `OneBuffer`: two counts, and the cells.
pub(crate) type Board<T> = Table<Option<T>, View<T>, (), Buffering<T>, Global>;

/// The right to make steps on the table.
pub(crate) type Token<T> = atomic_table::Seat<Option<T>, View<T>>;

/// Allocates a row of `cells` empty cells.
pub(crate) fn empty_cells<T: Drop>(alloc: Global, cells: usize) -> Option<Vec<Option<T>>>
    ensures { IfSome result (λ v. v.items ≡ replicate cells None) }
{
    let Ok(mut row) = Vec::with_capacity(alloc, cells) else {
        return None;
    };
    for _ in 0..cells {
        row.push_reserved(None);
    }
    Some(row)
}

/// Makes the table with its first seat.
pub(crate) fn lay<T: Drop>(alloc: Global, cells: usize) -> Option<(Board<T>, Token<T>)>
    requires { 0 < cells }
    ensures { IfSome result (λ t. (t.1.me ≡ (start, [])) × (t.1.table_id ≡ t.0.shared.table_id)
        × (t.0.shared.table_id.words ≡ 32) × (t.0.shared.table_id.slots ≡ cells)) }
{
    let row = empty_cells(alloc, cells)?;
    Table::new(alloc, &[0; WORDS], row, &()).ok()
}
