//! Joins in place beside joins by a merge: the plain way and the quick one give the same tables. `joined` is a merge.
//! `join_from` goes in place where the other tables know at most an eighth as many dots as these have rows.
use crate::acts::{absorb, copy, delete, empty, join, merged, register, replace, start};
use crate::reading::tables;
use crate::seen::{Shown, expect_same, expect_shown};
use std::process::Abort;
use sup_causal::Lattice;
use sup_tables::Tables;

// Expects that joins with other tables, which know few dots beside these tables' rows, give what merges give: the first one, which
// looks for the rows' dots, and the next one, which knows them.
fn expect_as_merged(rt: &(impl Abort + AllocGlobal), mine: &Tables, other: &Tables) {
    assert!(rt; other.context().has_at_most(mine.row_count() / 8));
    let merged = merged(rt, mine, other);
    let mut joined = copy(rt, mine);
    for _ in 0..2 {
        absorb(rt, &mut joined, other);
        expect_same(rt, &joined, &merged);
    }
}

// The last rows of what `many` shows.
const LAST: [Shown<'static>; 4] = [
    ("child", "w", "many", 24, "one"),
    ("child", "y", "many", 25, "two"),
    ("loser", "y", "many", 26, "three"),
    ("name", "m", "many", 27, "w"),
];

// What `many` shows, and further rows behind it.
fn shown_many(rt: &(impl Abort + AllocGlobal), further: &[Shown<'static>]) -> Vec<Shown<'static>> {
    let mut shown = Vec::new(rt.alloc());
    shown
        .push(("member", "many", "many", 28, "zone"))
        .expect(rt, "room");
    shown
        .push(("child", "p", "many", 2, "one"))
        .expect(rt, "room");
    for counter in 3..24 {
        shown
            .push(("loser", "p", "many", counter, "one"))
            .expect(rt, "room");
    }
    shown.extend_from_slice(&LAST).expect(rt, "room");
    shown.extend_from_slice(further).expect(rt, "room");
    shown
}

// Tables with 27 rows, beside which a short story is small: winners in each table, losers, and what was removed.
fn many(rt: &(impl Abort + AllocGlobal)) -> Tables {
    let mut many = empty(rt);
    start(rt, &mut many, "many", "w", "one");
    drop(delete(rt, &mut many, "w"));
    for _ in 0..22 {
        start(rt, &mut many, "many", "p", "one");
    }
    for (id, kind) in [("w", "one"), ("y", "two"), ("y", "three")] {
        start(rt, &mut many, "many", id, kind);
    }
    register(rt, &mut many, "many", "m", "w");
    join(rt, &mut many, "many", "zone");
    expect_shown(rt, &many, &shown_many(rt, &[]));
    many
}

// Lets one of two nodes act, as a number from 0 to 7 says.
fn act(rt: &(impl Abort + AllocGlobal), a: &mut Tables, b: &mut Tables, choice: u32) {
    match choice {
        0 => start(rt, a, "a", "x", "one"),
        1 => start(rt, b, "b", "x", "two"),
        2 => drop(replace(rt, a, "a", "x", "three")),
        3 => drop(delete(rt, b, "x")),
        4 => register(rt, a, "a", "n", "x"),
        5 => join(rt, b, "b", "zone"),
        6 => absorb(rt, a, b),
        _ => absorb(rt, b, a),
    }
}

// Two nodes that did what the digits of a number to the base 8 say.
fn after(rt: &(impl Abort + AllocGlobal), story: u32) -> (Tables, Tables) {
    let mut a = empty(rt);
    let mut b = empty(rt);
    for choice in [story % 8, story / 8 % 8, story / 64] {
        act(rt, &mut a, &mut b, choice);
    }
    (a, b)
}

// Expects two tables to be taken in alike by ones that have many rows beside, the two's own among them.
fn expect_alike(rt: &(impl Abort + AllocGlobal), many: &Tables, a: &Tables, b: &Tables) {
    let more_than_a = merged(rt, a, many);
    expect_as_merged(rt, &more_than_a, b);
    expect_as_merged(rt, &merged(rt, b, many), a);
    expect_as_merged(rt, &more_than_a, &empty(rt));
    expect_as_merged(rt, many, a);
}

#[test]
fn in_place_and_by_a_merge_all_short_stories_end_alike(rt: HostRuntime) {
    let many = many(&rt);
    for story in 0..512 {
        let (a, b) = after(&rt, story);
        expect_alike(&rt, &many, &a, &b);
    }
}

// Tables with one name, under the dot (a,1).
fn with_name(rt: &(impl Abort + AllocGlobal), id: &str) -> Tables {
    tables(rt, &[("a", 1)], &[("name", "n", "a", 1, id)])
}

// Expects that tables with one name, for the first child, and many rows beside show it for child a once the other name
// has come.
fn expect_a_stays(rt: &(impl Abort + AllocGlobal), first: &str, other: &str) {
    let mut mine = merged(rt, &with_name(rt, first), &many(rt));
    let other = with_name(rt, other);
    expect_as_merged(rt, &mine, &other);
    absorb(rt, &mut mine, &other);
    expect_shown(rt, &mine, &shown_many(rt, &[("name", "n", "a", 1, "a")]));
}

// Of two children for one name under one dot, which no run makes, the lesser stays, whichever comes first.
#[test]
fn a_lesser_value_comes_in_as_by_a_merge(rt: HostRuntime) {
    expect_a_stays(&rt, "b", "a");
    expect_a_stays(&rt, "a", "b");
}

#[test]
fn a_dot_under_two_keys_comes_in_as_by_a_merge(rt: HostRuntime) {
    let mut many = many(&rt);
    let rows = [("name", "k", "a", 1, "x"), ("name", "n", "a", 1, "x")];
    let twice = tables(&rt, &[("a", 1)], &rows);
    expect_as_merged(&rt, &many, &twice);
    absorb(&rt, &mut many, &twice);
    assert!(rt; many.row_count() == 29);
    expect_as_merged(&rt, &many, &twice);
    expect_as_merged(&rt, &many, &empty(&rt));
}

#[test]
fn few_rows_join_many(rt: HostRuntime) {
    let mut a = empty(&rt);
    let mut b = empty(&rt);
    for _ in 0..24 {
        start(&rt, &mut a, "a", "x", "one");
    }
    start(&rt, &mut b, "b", "y", "two");
    register(&rt, &mut b, "b", "n", "y");
    absorb(&rt, &mut a, &b);
    assert!(rt; a.row_count() == 26);
    drop(delete(&rt, &mut a, "x"));
    let left = [("child", "y", "b", 1, "two"), ("name", "n", "b", 2, "y")];
    expect_shown(&rt, &a, &left);
    drop(delete(&rt, &mut b, "y"));
    absorb(&rt, &mut a, &b);
    expect_shown(&rt, &a, &[]);
}

// The ids of as many children as an index is asked for beside one dot.
const IDS: [&str; 8] = ["p", "q", "r", "s", "t", "u", "v", "w"];

// Expects tables that got an index to be what they were, and to compare with others and take them in as before.
fn expect_as_indexed(
    rt: &(impl Abort + AllocGlobal),
    mine: &Tables,
    other: &Tables,
    is_known: bool,
) {
    let merged = merged(rt, mine, other);
    let mut indexed = copy(rt, mine);
    indexed.index_rows();
    expect_same(rt, &indexed, mine);
    assert!(rt; other.leq(mine) == is_known && other.leq(&indexed) == is_known);
    absorb(rt, &mut indexed, other);
    expect_same(rt, &indexed, &merged);
}

#[test]
fn an_index_changes_no_answer(rt: HostRuntime) {
    let mut many = empty(&rt);
    for id in IDS {
        start(&rt, &mut many, "many", id, "one");
    }
    let mut few = empty(&rt);
    start(&rt, &mut few, "few", "x", "two");
    expect_as_indexed(&rt, &many, &few, false);
    absorb(&rt, &mut many, &few);
    expect_as_indexed(&rt, &many, &few, true);
    drop(delete(&rt, &mut few, "x"));
    expect_as_indexed(&rt, &many, &few, false);
    absorb(&rt, &mut many, &few);
    expect_as_indexed(&rt, &many, &few, true);
}
