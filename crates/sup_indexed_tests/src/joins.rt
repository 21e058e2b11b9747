//! Joins in place, beside merges, at values that were worked out by hand.
use crate::given::{
    Dots, Indexed, Known, Rows, dots, expect_rows, in_place, indexed, merged, rows, rows_of,
    under_two_keys,
};
use std::process::Abort;
use sup_causal::Lattice;
use sup_dot_store::{Causal, DotStore};
use sup_indexed::IndexedMap;

// Expects a state to have these rows, and to count them.
fn expect_state(rt: &(impl Abort + AllocGlobal), state: Causal<Indexed>, wanted: Rows<'_>) {
    let (table, _) = state.into_parts();
    expect_rows(rt, table, wanted);
}

// The join in place, which is expected to bring something that is new, or nothing.
fn grown(
    rt: &(impl Abort + AllocGlobal),
    state: Causal<Indexed>,
    other: &Causal<Indexed>,
    changes: bool,
) -> Causal<Indexed> {
    assert!(rt; other.leq(&state) != changes);
    let grown = in_place(rt, state, other);
    assert!(rt; other.leq(&grown));
    grown
}

// Expects the join of the two to have these rows, by a merge, anew and in place.
fn expect_join(
    rt: &(impl Abort + AllocGlobal),
    left: Known<'_>,
    right: Known<'_>,
    changes: bool,
    wanted: Rows<'_>,
) {
    let by_merge = merged(rt, left).joined(rt.alloc(), &merged(rt, right));
    assert!(rt; rows_of(rt, by_merge.expect(rt, "room").store()) == rows(rt, wanted));
    expect_joins(rt, left, &indexed(rt, right), changes, wanted);
}

fn expect_joins(
    rt: &(impl Abort + AllocGlobal),
    left: Known<'_>,
    other: &Causal<Indexed>,
    changes: bool,
    wanted: Rows<'_>,
) {
    let anew = indexed(rt, left).joined(rt.alloc(), other);
    expect_state(rt, anew.expect(rt, "room"), wanted);
    let once = grown(rt, indexed(rt, left), other, changes);
    let twice = grown(rt, once, other, false);
    expect_state(rt, twice, wanted);
}

#[test]
fn a_join_in_place_gives_what_a_merge_gives(rt: HostRuntime) {
    let cases: [(Known<'_>, Known<'_>, bool, Rows<'_>); 9] = [
        // A fresh row, under a key that is there, and under one that is not.
        (
            (&[(1, ("a", 1), 7)], &[]),
            (&[(1, ("b", 1), 8), (2, ("b", 2), 9)], &[]),
            true,
            &[(1, ("a", 1), 7), (1, ("b", 1), 8), (2, ("b", 2), 9)],
        ),
        // A row that is gone there, by its run and by its cloud.
        (
            (&[(1, ("a", 2), 7)], &[]),
            (&[], &[("a", 1), ("a", 2)]),
            true,
            &[],
        ),
        ((&[(1, ("a", 3), 7)], &[]), (&[], &[("a", 3)]), true, &[]),
        // One whose dot isn't known there, after a run and beside a cloud.
        (
            (&[(1, ("a", 3), 7)], &[]),
            (&[], &[("a", 1), ("a", 2)]),
            true,
            &[(1, ("a", 3), 7)],
        ),
        (
            (&[(1, ("b", 3), 7)], &[]),
            (&[], &[("a", 3)]),
            true,
            &[(1, ("b", 3), 7)],
        ),
        // Of two values the lesser stays, whether it is here or there.
        (
            (&[(1, ("a", 1), 7)], &[]),
            (&[(1, ("a", 1), 5)], &[]),
            true,
            &[(1, ("a", 1), 5)],
        ),
        (
            (&[(1, ("a", 1), 5)], &[]),
            (&[(1, ("a", 1), 7)], &[]),
            false,
            &[(1, ("a", 1), 5)],
        ),
        // One dot under two keys leaves no row.
        (
            (&[(1, ("a", 1), 7)], &[]),
            (&[(2, ("a", 1), 7)], &[]),
            true,
            &[],
        ),
        // Nothing that is new.
        (
            (&[(1, ("a", 1), 7)], &[("b", 1)]),
            (&[], &[("b", 1)]),
            false,
            &[(1, ("a", 1), 7)],
        ),
    ];
    for (left, right, changes, wanted) in cases {
        expect_join(&rt, left, right, changes, wanted);
    }
}

// Expects this to be left of the rows without these dots, and an index of it.
fn expect_left(rt: &(impl Abort + AllocGlobal), known: Known<'_>, gone: Dots<'_>, left: Rows<'_>) {
    let (mut table, context) = indexed(rt, known).into_parts();
    table.retract(&dots(rt, gone));
    assert!(rt; table.is_empty() == left.is_empty());
    let state = Causal::of(table, context).expect(rt, "the dots of all rows");
    // The rows of the dots that went are gone for the others, too.
    expect_state(rt, grown(rt, state, &indexed(rt, known), false), left);
}

#[test]
fn rows_without_dots_leave_the_index(rt: HostRuntime) {
    let both: Known<'_> = (&[(1, ("a", 1), 7), (2, ("b", 1), 8)], &[]);
    expect_left(&rt, both, &[("a", 1), ("c", 1)], &[(2, ("b", 1), 8)]);
    expect_left(&rt, both, &[("a", 1), ("b", 1)], &[]);
}

#[test]
fn a_dot_under_two_keys_goes_from_both(rt: HostRuntime) {
    let table = under_two_keys(&rt, ("a", 1));
    let table = IndexedMap::of_map(rt.alloc(), table);
    let (_, context) = indexed(&rt, (&[], &[("a", 1)])).into_parts();
    let state = Causal::of(table, context).expect(&rt, "the dot of the rows");
    let other = indexed(&rt, (&[(2, ("a", 1), 5)], &[]));
    expect_state(&rt, grown(&rt, state, &other, true), &[(2, ("a", 1), 5)]);
}

// Eight rows under as many keys.
const MANY: Rows<'static> = &[
    (1, ("a", 1), 7),
    (2, ("a", 2), 7),
    (3, ("a", 3), 7),
    (4, ("a", 4), 7),
    (5, ("a", 5), 7),
    (6, ("a", 6), 7),
    (7, ("a", 7), 7),
    (8, ("a", 8), 7),
];

// These rows once one dot more is known.
fn many(rt: &(impl Abort + AllocGlobal)) -> Causal<Indexed> {
    let other = indexed(rt, (&[], &[("b", 1)]));
    grown(rt, indexed(rt, (MANY, &[])), &other, true)
}

#[test]
fn a_state_of_few_dots_is_found_by_an_index(rt: HostRuntime) {
    let state = many(&rt);
    // What it has, what it has not, what is greater there, and what is gone there.
    assert!(rt; indexed(&rt, (&[(3, ("a", 3), 7)], &[])).leq(&state));
    assert!(rt; !indexed(&rt, (&[(3, ("a", 9), 7)], &[])).leq(&state));
    assert!(rt; !indexed(&rt, (&[(3, ("a", 3), 6)], &[])).leq(&state));
    assert!(rt; !indexed(&rt, (&[], &[("a", 3)])).leq(&state));
    expect_state(&rt, state, MANY);
}

#[test]
fn a_function_is_found_by_its_key(rt: HostRuntime) {
    let (table, _) = indexed(&rt, (&[(1, ("a", 1), 7)], &[])).into_parts();
    assert!(rt; table.get(&1).is_some() && table.get(&2).is_none());
    assert!(rt; table.stores().len() == 1);
    let nothing: Indexed = IndexedMap::new(rt.alloc());
    assert!(rt; nothing.is_empty());
}
