//! The message that a receive names, worked out by hand from the description of `msgrcv`.

use crate::parts::assert_at;
use std::process::Abort;
use sysv_model::{Flags, Selector};
use sysv_rules::{qualifies, select_plain};

const MAX: i64 = i64::MAX;

const MIN: i64 = i64::MIN;

/// Asserts that a receive with each of these type arguments selects this place among messages of
/// these types.
fn assert_selects(rt: &impl Abort, types: &[i64], table: &[(i64, Option<usize>)]) {
    for (mtype, place) in table {
        let sel = Selector::of(*mtype, Flags::IPC_NOWAIT);
        assert_at(rt, select_plain(sel, types), *place, *mtype);
    }
}

#[test]
fn types_qualify_as_whole_numbers(rt: HostRuntime) {
    let all = [MIN, -5, 1, 5, 6, MAX];
    let table: [(Selector, &[i64]); 8] = [
        (Selector::Any, &all),
        (Selector::Except(5), &[MIN, -5, 1, 6, MAX]),
        (Selector::Except(0), &all),
        (Selector::Exactly(5), &[5]),
        (Selector::Exactly(MAX), &[MAX]),
        (Selector::UpTo(5), &[MIN, -5, 1, 5]),
        (Selector::UpTo(6), &[MIN, -5, 1, 5, 6]),
        (Selector::UpTo(1 << 63), &all),
    ];
    for (sel, wanted) in table {
        for mtype in all {
            assert_at(&rt, qualifies(sel, mtype), wanted.contains(&mtype), mtype);
        }
    }
}

#[test]
fn an_empty_list_names_nothing(rt: HostRuntime) {
    let none = [(0, None), (1, None), (MAX, None), (-1, None), (MIN, None)];
    assert_selects(&rt, &[], &none);
}

#[test]
fn the_first_that_qualifies_is_named(rt: HostRuntime) {
    let table = [
        (0, Some(0)),
        (5, Some(0)),
        (2, Some(1)),
        (9, Some(4)),
        (3, None),
        (MAX, None),
        (-1, None),
        (-2, Some(1)),
        (-4, Some(1)),
        (-9, Some(1)),
        (MIN, Some(1)),
    ];
    assert_selects(&rt, &[5, 2, 5, 2, 9], &table);
}

#[test]
fn the_first_of_another_type_is_named(rt: HostRuntime) {
    let table = [
        (5, Some(1)),
        (2, Some(0)),
        (9, Some(0)),
        (3, Some(0)),
        (MAX, Some(0)),
    ];
    for (mtype, place) in table {
        let sel = Selector::of(mtype, Flags::MSG_EXCEPT);
        assert_at(&rt, select_plain(sel, &[5, 2, 5, 2, 9]), place, mtype);
        assert_at(&rt, select_plain(sel, &[mtype, mtype]), None, mtype);
        assert_at(&rt, select_plain(sel, &[]), None, mtype);
    }
}

#[test]
fn of_equal_types_the_first_is_named(rt: HostRuntime) {
    let table = [
        (0, Some(0)),
        (4, Some(0)),
        (5, None),
        (-3, None),
        (-4, Some(0)),
        (-5, Some(0)),
        (MIN, Some(0)),
    ];
    assert_selects(&rt, &[4, 4, 4], &table);
}

#[test]
fn the_lowest_type_is_named_and_not_the_earliest(rt: HostRuntime) {
    let table = [
        (0, Some(0)),
        (3, Some(2)),
        (-2, None),
        (-3, Some(2)),
        (-4, Some(2)),
        (-7, Some(2)),
        (MIN, Some(2)),
    ];
    assert_selects(&rt, &[7, 4, 3, 4, 3], &table);
}

#[test]
fn the_greatest_type_is_a_type_like_others(rt: HostRuntime) {
    let alone = [
        (0, Some(0)),
        (MAX, Some(0)),
        (MAX - 1, None),
        (1 - MAX, None),
        (-MAX, Some(0)),
        (MIN, Some(0)),
    ];
    assert_selects(&rt, &[MAX], &alone);
    let before_one = [
        (0, Some(0)),
        (MAX, Some(0)),
        (-MAX, Some(1)),
        (MIN, Some(1)),
    ];
    assert_selects(&rt, &[MAX, 1], &before_one);
}
