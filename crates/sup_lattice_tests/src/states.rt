//! Stores of the tests and the states of them. These calls promise nothing, and end the test where one of the stores'
//! fails or where one is not as expected. Dots are told by their nodes: each has the counter 1.
use crate::given::{context, dot, dots, grow};
use std::process::Abort;
use sup_causal::{CausalContext, Dot, Lattice};
use sup_dot_store::{Both, Causal, DotFun, DotMap, DotStore};

pub(crate) type Function = DotFun<u8>;

pub(crate) type Table = DotMap<u8, Function>;

pub(crate) type Pair = Both<Function, Function>;

pub(crate) fn function(rt: &(impl Abort + AllocGlobal), name: &str, value: u8) -> Function {
    DotFun::single(rt.alloc(), dot(rt, name, 1), value).expect(rt, "room")
}

// The map with one value, under one key and one dot.
pub(crate) fn table(rt: &(impl Abort + AllocGlobal), key: u8, name: &str, value: u8) -> Table {
    let values = function(rt, name, value);
    assert!(rt; !values.is_empty());
    DotMap::single(rt.alloc(), key, values).expect(rt, "room")
}

// The stores with one dot at two places: in the first, and in the second.
pub(crate) fn pair(rt: &(impl Abort + AllocGlobal), name: &str, value: u8) -> Pair {
    Both {
        first: function(rt, name, value),
        second: function(rt, name, value),
    }
}

pub(crate) fn known(rt: &(impl Abort + AllocGlobal), names: &[&str]) -> CausalContext {
    let mut known = CausalContext::empty(rt.alloc());
    for name in names {
        grow(rt, &mut known, &context(rt, &[(*name, 1)], &[]));
    }
    known
}

// The store under a context of these nodes' dots.
pub(crate) fn state<S: DotStore>(
    rt: &(impl Abort + AllocGlobal),
    store: S,
    names: &[&str],
) -> Causal<S> {
    Causal::of(store, known(rt, names)).expect(rt, "a context with the dots of all rows")
}

// The state with no rows that knows these nodes' dots.
pub(crate) fn none<S: DotStore>(rt: &(impl Abort + AllocGlobal), names: &[&str]) -> Causal<S> {
    state(rt, S::empty(rt.alloc()), names)
}

/// Rows, by key, node and value.
pub(crate) type Rows<'a> = &'a [(u8, &'a str, u8)];

// The state that has the rows, and knows the dots of these nodes beside.
pub(crate) fn with_rows(
    rt: &(impl Abort + AllocGlobal),
    rows: Rows<'_>,
    names: &[&str],
) -> Causal<Table> {
    let mut all = none(rt, names);
    for (key, name, value) in rows {
        grow(
            rt,
            &mut all,
            &state(rt, table(rt, *key, name, *value), &[*name]),
        );
    }
    all
}

pub(crate) fn rows(rt: &(impl Abort + AllocGlobal), rows: Rows<'_>) -> Vec<(u8, Dot, u8)> {
    let mut all = Vec::new(rt.alloc());
    for (key, name, value) in rows {
        all.push((*key, dot(rt, name, 1), *value))
            .expect(rt, "room");
    }
    all
}

// Expects these to be the table's rows, in this order, under so many keys.
pub(crate) fn expect_rows(
    rt: &(impl Abort + AllocGlobal),
    table: &Table,
    keys: usize,
    wanted: Rows<'_>,
) {
    assert!(rt; table.rows().expect(rt, "rows") == rows(rt, wanted));
    assert!(rt; table.row_count() == wanted.len() && table.stores().len() == keys);
}

pub(crate) fn expect_is_empty<S: DotStore>(rt: &impl Abort, store: &S, is_empty: bool) {
    assert!(rt; store.is_empty() == is_empty);
}

// Takes the rows of these nodes' dots away.
pub(crate) fn retract<S: DotStore>(
    rt: &(impl Abort + AllocGlobal),
    store: &mut S,
    names: &[(&str, u64)],
) {
    store.retract(&dots(rt, names))
}
