//! The words of a place.
ghost use Rattle.std.specs.Prelude.{◌≡◌, length, slice_index};

/// No ticket is drawn once the next one has reached this value.
pub(crate) const LIMIT: u64 = 1 << 62;

/// The word of a place with the ticket that is served. The words in use are 128 bytes apart. The
/// first is as far from the memory before the block, which may be the object of another gate.
pub(crate) const SERVING: usize = 16;

/// The word with the ticket that is drawn next.
pub(crate) const TICKET: usize = 32;

/// The word where the first count is announced.
pub(crate) const ARRIVED: usize = 48;

/// The word where the second count is announced.
pub(crate) const FREED: usize = 64;

/// The number of words of a place. It is large enough that no other memory is near the last word in
/// use.
const WORDS: usize = 80;

/// Returns the words of a place whose tickets begin at `first`.
pub(crate) fn words_at(first: u64, counts: (u64, u64)) -> [u64; WORDS]
    ensures tickets { (length result ≡ 80) × (slice_index result 16 ≡ first)
        × (slice_index result 32 ≡ first) }
    ensures counts { (slice_index result 48 ≡ counts.0) × (slice_index result 64 ≡ counts.1) }
{
    let mut words = [0; WORDS];
    words[SERVING] = first;
    words[TICKET] = first;
    words[ARRIVED] = counts.0;
    words[FREED] = counts.1;
    words
}
