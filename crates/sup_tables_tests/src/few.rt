//! Joins that are planned only where the other tables know few dots, or few that aren't known.
use crate::acts::{copy, delete, empty, merged, start};
use crate::seen::expect_same;
use std::process::Abort;
use sup_tables::Tables;

// The id of a child, by a letter and a number.
fn numbered(rt: &(impl Abort + AllocGlobal), letter: &str, number: u32) -> String {
    format!(in rt.alloc(); "{letter}{number}").expect(rt, "room")
}

// Tables of forty children of a node, whose ids begin with its name.
fn forty(rt: &(impl Abort + AllocGlobal), me: &str) -> Tables {
    let mut tables = empty(rt);
    for number in 0..40 {
        start(rt, &mut tables, me, &numbered(rt, me, number), "one");
    }
    assert!(rt; tables.row_count() == 40);
    tables
}

// The same tables without the first so many children of this node.
fn without(rt: &(impl Abort + AllocGlobal), tables: &Tables, me: &str, count: u32) -> Tables {
    let mut left = copy(rt, tables);
    for number in 0..count {
        drop(delete(rt, &mut left, &numbered(rt, me, number)));
    }
    left
}

// Takes in the other tables where that is planned, and tells whether it is.
fn is_followed(rt: &(impl Abort + AllocGlobal), mine: &mut Tables, other: &Tables) -> bool {
    let planned = mine.plan_small_join(rt.alloc(), other);
    let Some(plan) = planned.expect(rt, "room") else {
        return false;
    };
    mine.follow(rt.alloc(), plan).expect(rt, "room");
    true
}

// Expects a join with the other tables to be planned, and to leave so many rows, those of a merge.
fn expect_planned(rt: &(impl Abort + AllocGlobal), mine: &Tables, other: &Tables, rows: usize) {
    let mut joined = copy(rt, mine);
    assert!(rt; is_followed(rt, &mut joined, other));
    assert!(rt; joined.row_count() == rows);
    expect_same(rt, &joined, &merged(rt, mine, other));
}

// Expects a join with the other tables not to be planned, and to change nothing.
fn expect_unplanned(rt: &(impl Abort + AllocGlobal), mine: &Tables, other: &Tables) {
    let mut left = copy(rt, mine);
    assert!(rt; !is_followed(rt, &mut left, other));
    expect_same(rt, &left, mine);
}

#[test]
fn a_join_of_tables_that_differ_by_a_row_is_planned(rt: HostRuntime) {
    let mine = forty(&rt, "a");
    let mut other = copy(&rt, &mine);
    start(&rt, &mut other, "b", "x", "two");
    assert!(rt; !other.is_small_beside(&mine) && !mine.is_small_beside(&other));
    expect_planned(&rt, &mine, &other, 41);
    expect_planned(&rt, &other, &mine, 41);
    expect_planned(&rt, &mine, &mine, 40);
}

#[test]
fn a_join_of_tables_without_a_common_row_is_not_planned(rt: HostRuntime) {
    let (a, b) = (forty(&rt, "a"), forty(&rt, "b"));
    expect_unplanned(&rt, &a, &b);
    expect_unplanned(&rt, &b, &a);
}

#[test]
fn a_join_with_few_dots_is_planned(rt: HostRuntime) {
    let mine = forty(&rt, "a");
    let mut delta = empty(&rt);
    start(&rt, &mut delta, "b", "x", "two");
    assert!(rt; delta.is_small_beside(&mine));
    expect_planned(&rt, &mine, &delta, 41);
    expect_unplanned(&rt, &delta, &mine);
}

#[test]
fn nothing_is_planned_beside_no_row_but_nothing(rt: HostRuntime) {
    let mut one = empty(&rt);
    start(&rt, &mut one, "a", "x", "one");
    expect_unplanned(&rt, &empty(&rt), &one);
    expect_planned(&rt, &one, &empty(&rt), 1);
    expect_planned(&rt, &empty(&rt), &empty(&rt), 0);
}

#[test]
fn rows_that_are_gone_there_are_planned_to_go(rt: HostRuntime) {
    let mine = forty(&rt, "a");
    expect_planned(&rt, &mine, &without(&rt, &mine, "a", 3), 37);
    expect_planned(&rt, &mine, &without(&rt, &mine, "a", 40), 0);
}

// An eighth of forty dots may be new.
#[test]
fn a_join_that_brings_few_dots_is_planned(rt: HostRuntime) {
    let mine = forty(&rt, "a");
    let mut other = copy(&rt, &mine);
    for number in 0..5 {
        start(&rt, &mut other, "b", &numbered(&rt, "b", number), "two");
    }
    expect_planned(&rt, &mine, &other, 45);
    start(&rt, &mut other, "b", "x", "two");
    expect_unplanned(&rt, &mine, &other);
}

#[test]
fn rows_that_are_gone_here_stay_gone(rt: HostRuntime) {
    let other = forty(&rt, "a");
    expect_planned(&rt, &without(&rt, &other, "a", 3), &other, 37);
}
