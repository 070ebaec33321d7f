//! A growth that a run can distinguish from all others.
ghost use Rattle.std.specs.Prelude.{◌≡◌, vec_len, IfSome};

use std::alloc::Global;

/// A number of bytes that nothing else requests.
const MARK: usize = 7_654_321;

/// Requests memory of a size that nothing else requests, so that a run can count or refuse the
/// growths after this one. Keep the result until the end of the test.
pub fn mark(alloc: Global) -> Option<Vec<u8>>
    ensures { IfSome result (λ marked. vec_len marked ≡ 0) }
{
    Vec::with_capacity(alloc, MARK).ok()
}
