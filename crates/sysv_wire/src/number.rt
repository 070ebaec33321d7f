//! Reads numbers from the start of a byte slice.
ghost use Rattle.std.specs.Prelude.{◌≡◌, ◌+◌, ◌≤◌, ◌++◌, length};
ghost use Rattle.sysv_wire.specs.Numbers.{u16_bytes, u32_bytes, u64_bytes, i32_bytes, i64_bytes};

/// Returns the number in the first two bytes, and the bytes after it.
pub(crate) fn take_u16(bytes: &[u8]) -> (u16, &[u8])
    requires { 2 ≤ length bytes.now }
    ensures encoded { bytes.now ≡ u16_bytes result.0 ++ result.1.now }
    ensures len { length bytes.now ≡ 2 + length result.1.now }
{
    let (front, rest) = bytes.split_at(2);
    (u16::from_be_bytes([front[0], front[1]]), rest)
}

/// Returns the number in the first four bytes, and the bytes after it.
pub(crate) fn take_u32(bytes: &[u8]) -> (u32, &[u8])
    requires { 4 ≤ length bytes.now }
    ensures encoded { bytes.now ≡ u32_bytes result.0 ++ result.1.now }
    ensures len { length bytes.now ≡ 4 + length result.1.now }
{
    let (front, rest) = bytes.split_at(4);
    let number = u32::from_be_bytes([front[0], front[1], front[2], front[3]]);
    (number, rest)
}

/// Returns the number in the first eight bytes, and the bytes after it.
pub(crate) fn take_u64(bytes: &[u8]) -> (u64, &[u8])
    requires { 8 ≤ length bytes.now }
    ensures encoded { bytes.now ≡ u64_bytes result.0 ++ result.1.now }
    ensures len { length bytes.now ≡ 8 + length result.1.now }
{
    let (front, rest) = bytes.split_at(8);
    let number = u64::from_be_bytes([
        front[0], front[1], front[2], front[3], front[4], front[5], front[6], front[7],
    ]);
    (number, rest)
}

/// Returns the signed number in the first four bytes, and the bytes after it.
pub(crate) fn take_i32(bytes: &[u8]) -> (i32, &[u8])
    requires { 4 ≤ length bytes.now }
    ensures encoded { bytes.now ≡ i32_bytes result.0 ++ result.1.now }
    ensures len { length bytes.now ≡ 4 + length result.1.now }
{
    let (number, rest) = take_u32(bytes);
    (number.cast_signed(), rest)
}

/// Returns the signed number in the first eight bytes, and the bytes after it.
pub(crate) fn take_i64(bytes: &[u8]) -> (i64, &[u8])
    requires { 8 ≤ length bytes.now }
    ensures encoded { bytes.now ≡ i64_bytes result.0 ++ result.1.now }
    ensures len { length bytes.now ≡ 8 + length result.1.now }
{
    let (number, rest) = take_u64(bytes);
    (number.cast_signed(), rest)
}

/// Returns the number that these four bytes spell.
pub(crate) fn only_u32(bytes: &[u8]) -> u32
    requires { length bytes.now ≡ 4 }
    ensures { bytes.now ≡ u32_bytes result }
{
    take_u32(bytes).0
}

/// Returns the signed number that these four bytes spell.
pub(crate) fn only_i32(bytes: &[u8]) -> i32
    requires { length bytes.now ≡ 4 }
    ensures { bytes.now ≡ i32_bytes result }
{
    take_i32(bytes).0
}

/// Returns the number that these eight bytes spell.
pub(crate) fn only_u64(bytes: &[u8]) -> u64
    requires { length bytes.now ≡ 8 }
    ensures { bytes.now ≡ u64_bytes result }
{
    take_u64(bytes).0
}

/// Returns the signed number that these eight bytes spell.
pub(crate) fn only_i64(bytes: &[u8]) -> i64
    requires { length bytes.now ≡ 8 }
    ensures { bytes.now ≡ i64_bytes result }
{
    take_i64(bytes).0
}
