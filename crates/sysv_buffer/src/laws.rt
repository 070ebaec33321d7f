//! Laws: about all ends and seats of a buffer together, and the numeral of its limit. Each function
//! does nothing: its contract is the law.
ghost use Rattle.std.specs.Prelude.{◌≡◌};
ghost use Rattle.sysv_buffer.specs.declared.buffer.TheConstants.{MAX_CELLS};
ghost use Rattle.sysv_buffer.specs.Laws.{TakenIsABeginning};
ghost use Rattle.sysv_buffer.specs.ManyLaws.{OneList, NoPlaceTwice};

/// States the maximum number of cells of a buffer.
pub fn numeral_of_cells()
    ensures { MAX_CELLS ≡ 1024 }
{}

/// States that the items taken from a `OneBuffer` are a prefix of the items put, shorter by at most
/// the number of cells.
pub fn taken_is_a_beginning<T>()
    ensures { TakenIsABeginning T }
{}

/// States that a `ManyBuffer` has one list of all items put, and that the items taken are a prefix
/// of it, shorter by at most the number of cells.
pub fn one_list_of_many<T>()
    ensures { OneList T }
{}

/// States that no place of a `ManyBuffer` is put into twice or taken from twice, by one seat or by
/// two.
pub fn no_place_twice<T>()
    ensures { NoPlaceTwice T }
{}
