//! Stores and the states of them, at values that were worked out by hand.
use crate::given::{dot, expect_below, expect_not_below, joined};
use crate::states::{
    Function, Rows, Table, expect_is_empty, expect_rows, function, known, none, pair, retract,
    state, table, with_rows,
};
use std::process::Abort;
use sup_causal::{CausalContext, Lattice};
use sup_dot_store::{Causal, DotMap, DotStore, NotCovered};

// Expects the two to mean the same, as seen by `leq` alone.
fn expect_same<L: Lattice>(rt: &impl Abort, left: &L, right: &L) {
    expect_below(rt, left, right);
    expect_below(rt, right, left);
}

// Expects two states, in either order, to join to one with these rows under so many keys.
fn expect_joined(
    rt: &(impl Abort + AllocGlobal),
    left: &Causal<Table>,
    right: &Causal<Table>,
    keys: usize,
    wanted: Rows<'_>,
) {
    let both = joined(rt, left, right);
    expect_rows(rt, both.store(), keys, wanted);
    expect_same(rt, &both, &joined(rt, right, left));
    expect_below(rt, left, &both);
}

#[test]
fn states_join_row_by_row(rt: HostRuntime) {
    let cases: [(Rows<'_>, Rows<'_>, &[&str], usize, Rows<'_>); 7] = [
        // A row whose dot the other knows and lacks is gone; one that it has never seen stays.
        (&[(1, "a", 7)], &[], &["a"], 0, &[]),
        (&[(1, "a", 7)], &[], &["b"], 1, &[(1, "a", 7)]),
        // Of two values under one dot the lesser stays.
        (&[(1, "a", 7)], &[(1, "a", 5)], &[], 1, &[(1, "a", 5)]),
        // One dot under two keys leaves no row.
        (&[(1, "a", 7)], &[(2, "a", 7)], &[], 0, &[]),
        // A key goes with its last row.
        (&[(1, "a", 7), (2, "b", 8)], &[], &["a"], 1, &[(2, "b", 8)]),
        (
            &[(1, "a", 7)],
            &[(2, "b", 8)],
            &[],
            2,
            &[(1, "a", 7), (2, "b", 8)],
        ),
        // Rows stand by key and then by dot.
        (
            &[(2, "b", 8), (2, "a", 7)],
            &[(1, "c", 9)],
            &[],
            2,
            &[(1, "c", 9), (2, "a", 7), (2, "b", 8)],
        ),
    ];
    for (left, right, gone, keys, wanted) in cases {
        let left = with_rows(&rt, left, &[]);
        expect_joined(&rt, &left, &with_rows(&rt, right, gone), keys, wanted);
    }
}

#[test]
fn a_lesser_value_is_above_and_another_key_is_neither(rt: HostRuntime) {
    let seven = with_rows(&rt, &[(1, "a", 7)], &[]);
    let five = with_rows(&rt, &[(1, "a", 5)], &[]);
    let other_key = with_rows(&rt, &[(2, "a", 7)], &[]);
    expect_below(&rt, &seven, &five);
    expect_not_below(&rt, &five, &seven);
    expect_not_below(&rt, &seven, &other_key);
}

// Expects the join to be the same in either order, any grouping and number, and above its parts.
fn expect_join<L: Lattice>(rt: &(impl Abort + AllocGlobal), a: &L, b: &L, c: &L) {
    let both = joined(rt, a, b);
    let left = joined(rt, &both, c);
    expect_below(rt, a, &both);
    expect_below(rt, b, &both);
    expect_same(rt, &both, &joined(rt, b, a));
    expect_same(rt, &left, &joined(rt, a, &joined(rt, b, c)));
    expect_same(rt, &left, &joined(rt, &left, &both));
}

fn expect_above_the_bottom<S: DotStore>(rt: &(impl Abort + AllocGlobal), state: &Causal<S>) {
    let bottom: Causal<S> = Causal::bottom(rt.alloc());
    expect_below(rt, &bottom, state);
    expect_not_below(rt, state, &bottom);
    expect_same(rt, state, &joined(rt, state, &bottom));
}

// Expects the laws of two stores, of which the first has the dot of a alone, and the second that of a or b.
fn expect_laws<S: DotStore>(rt: &(impl Abort + AllocGlobal), first: S, second: S) {
    let first = state(rt, first, &["a"]);
    let second = state(rt, second, &["a", "b"]);
    expect_join(rt, &first, &second, &none(rt, &["b"]));
    expect_above_the_bottom(rt, &first);
    // The contexts of these two are one: the stores alone tell that the row is gone in the second.
    let gone = none(rt, &["a"]);
    expect_below(rt, &first, &gone);
    expect_not_below(rt, &gone, &first);
}

#[test]
fn states_join_in_any_order_and_number(rt: HostRuntime) {
    expect_laws(&rt, function(&rt, "a", 7), function(&rt, "a", 5));
    expect_laws(&rt, table(&rt, 1, "a", 7), table(&rt, 2, "a", 7));
    expect_laws(&rt, pair(&rt, "a", 7), pair(&rt, "b", 8));
}

// Expects a context to be refused since it lacks the dot of a row.
fn expect_not_covered<S: DotStore>(rt: &impl Abort, store: S, context: CausalContext) {
    assert!(rt; matches!(Causal::of(store, context), Err(NotCovered)));
}

#[test]
fn a_row_whose_dot_the_context_lacks_is_refused(rt: HostRuntime) {
    expect_not_covered(&rt, function(&rt, "a", 7), known(&rt, &[]));
    expect_not_covered(&rt, table(&rt, 1, "a", 7), known(&rt, &["b"]));
    let text = format!(in rt.alloc(); "{}", NotCovered).expect(&rt, "room");
    assert!(rt; text.as_str() == "a row's dot is not in the context");
}

// The store of the join, and no context.
fn joined_store<S: DotStore>(
    rt: &(impl Abort + AllocGlobal),
    left: &Causal<S>,
    right: &Causal<S>,
) -> S {
    left.store()
        .joined_under(rt.alloc(), left.context(), right.store(), right.context())
        .expect(rt, "a join")
}

fn value_at(rt: &impl Abort, table: &Table, key: u8, name: &str) -> Option<u8> {
    table.get(&key)?.values().get(&dot(rt, name, 1)).copied()
}

#[test]
fn retract_takes_the_rows_of_its_dots_alone(rt: HostRuntime) {
    let left = with_rows(&rt, &[(1, "a", 7)], &[]);
    let mut store = joined_store(&rt, &left, &with_rows(&rt, &[(1, "b", 8)], &[]));
    retract(&rt, &mut store, &[("c", 1)]);
    expect_rows(&rt, &store, 1, &[(1, "a", 7), (1, "b", 8)]);
    assert!(rt; value_at(&rt, &store, 1, "b") == Some(8));
    retract(&rt, &mut store, &[("b", 1), ("b", 1)]);
    expect_rows(&rt, &store, 1, &[(1, "a", 7)]);
    assert!(rt; value_at(&rt, &store, 1, "b").is_none());
    retract(&rt, &mut store, &[("b", 1), ("a", 1)]);
    expect_is_empty(&rt, &store, true);
}

#[test]
fn both_stores_lose_the_rows_of_a_dot(rt: HostRuntime) {
    let mut stores = pair(&rt, "a", 7);
    retract(&rt, &mut stores, &[("b", 1)]);
    expect_is_empty(&rt, &stores.second, false);
    retract(&rt, &mut stores, &[("a", 1)]);
    expect_is_empty(&rt, &stores, true);
}

// The node and the value of the least dot.
fn first_of(function: &Function) -> Option<(&str, u8)> {
    let (dot, value) = function.first()?;
    Some((dot.node.as_str(), *value))
}

#[test]
fn the_first_value_is_that_of_the_least_dot(rt: HostRuntime) {
    let left = state(&rt, function(&rt, "b", 3), &["b"]);
    let both = joined_store(&rt, &left, &state(&rt, function(&rt, "a", 7), &["a"]));
    assert!(rt; first_of(&both) == Some(("a", 7)));
    assert!(rt; Function::new(rt.alloc()).first().is_none());
}

fn made_again(rt: &(impl Abort + AllocGlobal), table: &Table) -> Table {
    let rows = table.rows().expect(rt, "rows");
    DotMap::of_rows(rt.alloc(), rows).expect(rt, "room")
}

#[test]
fn rows_in_order_make_a_map(rt: HostRuntime) {
    let rows: Rows<'_> = &[(1, "c", 9), (2, "a", 7), (2, "b", 8)];
    let made = made_again(&rt, with_rows(&rt, rows, &[]).store());
    expect_rows(&rt, &made, 2, rows);
    let none = made_again(&rt, &DotMap::new(rt.alloc()));
    expect_rows(&rt, &none, 0, &[]);
}
