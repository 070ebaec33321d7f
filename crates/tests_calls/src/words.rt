//! Words of a line.
use crate::parts::{assert_is, assert_that};
use bitflags::Flags as _;
use sysv_model::Flags;
use sysv_words::{Octal, Reads, split_at_mark};

#[test]
fn numerals_are_read(rt: HostRuntime) {
    assert_is(&rt, i32::read(b"-0007"), Some(-7));
    assert_is(&rt, i32::read(b"2147483648"), None);
    assert_is(&rt, i64::read(b"-9223372036854775808"), Some(i64::MIN));
    assert_is(&rt, i64::read(b"+1"), None);
    assert_is(&rt, u32::read(b"-0"), Some(0));
    assert_is(&rt, u32::read(b"4294967296"), None);
    assert_is(&rt, u64::read(b"18446744073709551615"), Some(u64::MAX));
    assert_is(&rt, u64::read(b"-1"), None);
    assert_is(&rt, u64::read(b""), None);
}

#[test]
fn modes_and_flags_are_read(rt: HostRuntime) {
    assert_that(&rt, matches!(Octal::read(b"0640"), Some(Octal(416))));
    assert_that(&rt, Octal::read(b"1000").is_none());
    assert_that(&rt, Octal::read(b"8").is_none());
    let creates = Flags::IPC_CREAT.union(Flags::from_bits_retain(0o600));
    assert_is(&rt, Flags::read(b"CREAT+0600"), Some(creates));
    assert_is(&rt, Flags::read(b"-"), Some(Flags::empty()));
    assert_that(&rt, Flags::read(b"CREATE").is_none());
    assert_that(&rt, Flags::read(b"00000").is_none());
}

#[test]
fn words_are_read_in_their_order(rt: HostRuntime) {
    assert_is(
        &rt,
        <(i32, (i64, u32))>::read(b"1 -2 3"),
        Some((1, (-2, 3))),
    );
    assert_is(&rt, <(i32, i64)>::read(b"1  2"), None);
    assert_is(
        &rt,
        split_at_mark(b"a b c", b' '),
        Some((b"a".as_slice(), b"b c".as_slice())),
    );
}
