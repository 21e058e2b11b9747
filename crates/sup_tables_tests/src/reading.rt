//! Tables that are made of rows.
use crate::given::{child_id, dot, dots, draining, labelled, node, registered, spec};
use crate::seen::{Shown, expect_lent, expect_rows, knows};
use std::process::Abort;
use sup_causal::CausalContext;
use sup_specs::MAX;
use sup_tables::{Entry, Row, RowsFault, Tables};

fn row(rt: &(impl Abort + AllocGlobal), shown: &Shown<'_>) -> Row {
    let (table, key, name, counter, value) = *shown;
    let entry = match table {
        "member" => Entry::Member(node(rt, key), labelled(rt, value)),
        "draining" => Entry::Member(node(rt, key), draining(rt, value)),
        "child" => Entry::Child(child_id(rt, key), spec(rt, value)),
        _ => Entry::Name(registered(rt, key), child_id(rt, value)),
    };
    Row {
        dot: dot(rt, name, counter),
        entry,
    }
}

fn rows(rt: &(impl Abort + AllocGlobal), shown: &[Shown<'_>]) -> Vec<Row> {
    let mut rows = Vec::new(rt.alloc());
    for entry in shown {
        rows.push(row(rt, entry)).expect(rt, "room");
    }
    rows
}

fn context(rt: &(impl Abort + AllocGlobal), known: &[(&str, u64)]) -> CausalContext {
    let dots = dots(rt, known);
    assert!(rt;
        dots.iter()
            .all(|dot| 1 <= dot.counter && dot.counter <= MAX)
    );
    CausalContext::of_dots(rt.alloc(), &dots).expect(rt, "room")
}

fn read(
    rt: &(impl Abort + AllocGlobal),
    known: &[(&str, u64)],
    shown: &[Shown<'_>],
) -> Result<Tables, RowsFault> {
    Tables::from_rows(rt.alloc(), context(rt, known), rows(rt, shown))
}

// The tables with these rows that know these dots.
pub(crate) fn tables(
    rt: &(impl Abort + AllocGlobal),
    known: &[(&str, u64)],
    shown: &[Shown<'_>],
) -> Tables {
    read(rt, known, shown).expect(rt, "rows in order under their dots")
}

#[test]
fn rows_in_order_are_read_and_come_back(rt: HostRuntime) {
    let rows = [
        ("member", "a", "a", 1, "l"),
        ("child", "cache", "a", 1, "k"),
        ("child", "db", "a", 1, "k"),
        ("child", "db", "b", 1, "k"),
        ("name", "www", "a", 2, "db"),
    ];
    let read = tables(&rt, &[("a", 1), ("b", 1), ("a", 2)], &rows);
    expect_rows(&rt, &read, &rows);
    expect_lent(&rt, &read, &rows);
    assert!(rt; knows(&rt, &read, "a", 2) && !knows(&rt, &read, "b", 2));
}

#[test]
fn no_rows_are_read_under_any_dots(rt: HostRuntime) {
    let read = tables(&rt, &[("a", 1)], &[]);
    expect_rows(&rt, &read, &[]);
    assert!(rt; knows(&rt, &read, "a", 1));
}

// A row beyond the context is told after the order.
#[test]
fn rows_out_of_order_or_beyond_the_context_are_refused(rt: HostRuntime) {
    let cache = ("child", "cache", "a", 1, "k");
    let db = ("child", "db", "a", 1, "k");
    let later = ("child", "db", "a", 2, "k");
    let both: &[(&str, u64)] = &[("a", 1), ("a", 2)];
    let first: &[(&str, u64)] = &[("a", 1)];
    for (known, rows, fault) in [
        (both, [db, cache], RowsFault::NotCanonical),
        (both, [later, db], RowsFault::NotCanonical),
        (
            both,
            [db, ("member", "z", "a", 1, "l")],
            RowsFault::NotCanonical,
        ),
        (both, [db, db], RowsFault::NotCanonical),
        (first, [cache, later], RowsFault::NotCovered),
        (first, [later, cache], RowsFault::NotCanonical),
    ] {
        assert!(rt; read(&rt, known, &rows).err() == Some(fault));
    }
}
