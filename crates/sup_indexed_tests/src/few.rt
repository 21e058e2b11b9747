//! Joins planned by one pass over both maps, at values that were worked out by hand.
use crate::given::{Indexed, Known, Plan, Rows, expect_rows, in_place, indexed, planned};
use std::process::Abort;
use sup_causal::Lattice;
use sup_dot_store::Causal;
use sup_indexed::{IndexedMap, Looks};

// Twenty rows under as many keys, and further rows behind them.
fn twenty_and<'a>(
    rt: &(impl Abort + AllocGlobal),
    further: Rows<'a>,
) -> Vec<(u8, (&'a str, u64), u8)> {
    let mut rows = Vec::new(rt.alloc());
    for key in 1..21 {
        rows.push((key, ("a", u64::from(key)), 7))
            .expect(rt, "room");
    }
    rows.extend_from_slice(further).expect(rt, "room");
    rows
}

// The state of these twenty rows and further ones, that knows these dots beside.
fn state(rt: &(impl Abort + AllocGlobal), further: Known<'_>) -> Causal<Indexed> {
    let rows = twenty_and(rt, further.0);
    indexed(rt, (&rows, further.1))
}

// Expects the plan, once it is carried out beside the twenty rows, to leave them and these.
fn expect_made(
    rt: &(impl Abort + AllocGlobal),
    here: Causal<Indexed>,
    plan: Plan,
    wanted: Rows<'_>,
) {
    let (table, _) = here.into_parts();
    let ready = table.open_for(rt.alloc(), plan).ok().expect(rt, "room");
    let wanted = twenty_and(rt, wanted);
    expect_rows(rt, IndexedMap::carry_out(ready), &wanted);
}

// Expects a join of the two anew to leave the twenty rows and these.
fn expect_joined(
    rt: &(impl Abort + AllocGlobal),
    left: Known<'_>,
    right: Known<'_>,
    wanted: Rows<'_>,
) {
    let joined = state(rt, left).joined(rt.alloc(), &state(rt, right));
    let (table, _) = joined.expect(rt, "room").into_parts();
    let wanted = twenty_and(rt, wanted);
    expect_rows(rt, table, &wanted);
}

// Expects a join by the other plan, which looks for dots, to leave the twenty rows and these.
fn expect_in_place(
    rt: &(impl Abort + AllocGlobal),
    left: Known<'_>,
    right: Known<'_>,
    wanted: Rows<'_>,
) {
    let (table, _) = in_place(rt, state(rt, left), &state(rt, right)).into_parts();
    let wanted = twenty_and(rt, wanted);
    expect_rows(rt, table, &wanted);
}

// Expects so many keys to be those that may change, and each join to leave the twenty rows and
// these.
fn expect_few(
    rt: &(impl Abort + AllocGlobal),
    left: Known<'_>,
    right: Known<'_>,
    keys: usize,
    wanted: Rows<'_>,
) {
    let (here, there) = (state(rt, left), state(rt, right));
    let plan = planned(rt, &here, &there, Looks::AtAll);
    assert!(rt; plan.functions().len() == keys);
    expect_made(rt, here, plan, wanted);
    expect_joined(rt, left, right, wanted);
    expect_in_place(rt, left, right, wanted);
}

// One row more under a key of its own.
const MORE: Rows<'static> = &[(21, ("b", 1), 8)];

// Another one.
const OTHER: Rows<'static> = &[(22, ("c", 1), 9)];

const BOTH: Rows<'static> = &[(21, ("b", 1), 8), (22, ("c", 1), 9)];

#[test]
fn maps_that_have_one_value_more_each_differ_under_few_keys(rt: HostRuntime) {
    // One that goes, as it is known there, and one that comes.
    expect_few(&rt, (MORE, &[]), (OTHER, &[("b", 1)]), 2, OTHER);
    // One that stays, as it is not known there, counts for nothing.
    expect_few(&rt, (MORE, &[]), (OTHER, &[]), 1, BOTH);
}

#[test]
fn a_map_does_not_differ_from_itself(rt: HostRuntime) {
    expect_few(&rt, (&[], &[]), (&[], &[]), 0, &[]);
    expect_few(&rt, (MORE, &[]), (MORE, &[("c", 9)]), 0, MORE);
}

#[test]
fn a_value_that_is_known_and_gone_there_is_planned_to_go(rt: HostRuntime) {
    let here = state(&rt, (MORE, &[]));
    let there = state(&rt, (&[], &[("b", 1)]));
    let plan = planned(&rt, &here, &there, Looks::AtAll);
    assert!(rt; plan.functions().len() == 1);
    let left = plan.functions().get(&21).expect(&rt, "the key");
    assert!(rt; left.values().len() == 0);
    expect_made(&rt, here, plan, &[]);
}

// A second value under the last of the twenty keys.
const SECOND: Rows<'static> = &[(20, ("b", 30), 8)];

#[test]
fn a_key_of_two_values_may_always_change(rt: HostRuntime) {
    expect_few(&rt, (SECOND, &[]), (&[], &[]), 1, SECOND);
    expect_few(&rt, (&[], &[]), (SECOND, &[]), 1, SECOND);
    expect_few(&rt, (SECOND, &[]), (&[], &[("b", 30)]), 1, &[]);
    expect_few(&rt, (SECOND, &[]), (SECOND, &[]), 1, SECOND);
}

// A lesser value of the same dot.
const LESS: Rows<'static> = &[(21, ("b", 1), 5)];

#[test]
fn another_value_of_the_same_dot_counts(rt: HostRuntime) {
    expect_few(&rt, (MORE, &[]), (LESS, &[]), 1, LESS);
    expect_few(&rt, (LESS, &[]), (MORE, &[]), 1, LESS);
}
