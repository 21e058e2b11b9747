//! Values of the tests, told by texts and numbers. These calls promise nothing, and end the test where there is no such
//! value, or where a call of the crates fails.
use std::process::Abort;
use sup_causal::{CausalContext, Dot, Lattice};
use sup_dot_store::{Causal, DotFun, DotMap, DotStore};
use sup_indexed::{IndexedMap, Looks, PlannedMap};
use sup_specs::NodeName;

pub(crate) type Table = DotMap<u8, DotFun<u8>>;

pub(crate) type Indexed = IndexedMap<u8, u8>;

pub(crate) type Plan = PlannedMap<u8, u8>;

/// Dots, by node and counter.
pub(crate) type Dots<'a> = &'a [(&'a str, u64)];

/// Rows, by key, dot and value.
pub(crate) type Rows<'a> = &'a [(u8, (&'a str, u64), u8)];

/// The rows of a state, and the dots that it knows beside theirs.
pub(crate) type Known<'a> = (Rows<'a>, Dots<'a>);

fn dot(rt: &impl Abort, of: (&str, u64)) -> Dot {
    Dot {
        counter: of.1,
        node: NodeName::parse(of.0).expect(rt, "a node's name"),
    }
}

pub(crate) fn dots(rt: &(impl Abort + AllocGlobal), of: Dots<'_>) -> Vec<Dot> {
    let mut dots = Vec::new(rt.alloc());
    for dot_of in of {
        dots.push(dot(rt, *dot_of)).expect(rt, "room");
    }
    dots
}

fn context(rt: &(impl Abort + AllocGlobal), of: Dots<'_>) -> CausalContext {
    let mut known = CausalContext::empty(rt.alloc());
    for dot_of in of {
        let dot = dot(rt, *dot_of);
        assert!(rt; dot.is_counted());
        known.insert(dot).expect(rt, "room");
    }
    known
}

// The state of one row.
fn row(rt: &(impl Abort + AllocGlobal), key: u8, of: (&str, u64), value: u8) -> Causal<Table> {
    let values = DotFun::single(rt.alloc(), dot(rt, of), value).expect(rt, "room");
    assert!(rt; !values.is_empty());
    let table = DotMap::single(rt.alloc(), key, values).expect(rt, "room");
    Causal::of(table, context(rt, &[of])).expect(rt, "the dot of the row")
}

/// The state with these rows that knows these dots beside, made by merges.
pub(crate) fn merged(rt: &(impl Abort + AllocGlobal), known: Known<'_>) -> Causal<Table> {
    let nothing = DotMap::new(rt.alloc());
    let mut all = Causal::of(nothing, context(rt, known.1)).expect(rt, "no row");
    for (key, of, value) in known.0 {
        let more = row(rt, *key, *of, *value);
        all = all.joined(rt.alloc(), &more).expect(rt, "room");
    }
    all
}

/// The same as a map that gets an index by its first join in place.
pub(crate) fn indexed(rt: &(impl Abort + AllocGlobal), known: Known<'_>) -> Causal<Indexed> {
    let (table, context) = merged(rt, known).into_parts();
    let table = IndexedMap::of_map(rt.alloc(), table);
    Causal::of(table, context).expect(rt, "the dots of all rows")
}

/// The map with values at one dot under two keys, 7 under 1 and 8 under 2.
pub(crate) fn under_two_keys(rt: &(impl Abort + AllocGlobal), of: (&str, u64)) -> Table {
    let mut rows = Vec::new(rt.alloc());
    rows.push((1, dot(rt, of), 7)).expect(rt, "room");
    rows.push((2, dot(rt, of), 8)).expect(rt, "room");
    DotMap::of_rows(rt.alloc(), rows).expect(rt, "room")
}

/// The rows of a map, by key and dot.
pub(crate) fn rows_of(rt: &impl Abort, table: &Table) -> Vec<(u8, Dot, u8)> {
    table.rows().expect(rt, "rows")
}

/// These rows, in this order.
pub(crate) fn rows(rt: &(impl Abort + AllocGlobal), rows: Rows<'_>) -> Vec<(u8, Dot, u8)> {
    let mut all = Vec::new(rt.alloc());
    for (key, of, value) in rows {
        all.push((*key, dot(rt, *of), *value)).expect(rt, "room");
    }
    all
}

/// Expects a map to have these rows, and to count them.
pub(crate) fn expect_rows(rt: &(impl Abort + AllocGlobal), table: Indexed, wanted: Rows<'_>) {
    assert!(rt; table.count() == Some(wanted.len()));
    assert!(rt; rows_of(rt, &table.into_map()) == rows(rt, wanted));
}

/// What a join with another state changes, found by a look at these keys.
pub(crate) fn planned(
    rt: &(impl Abort + AllocGlobal),
    state: &Causal<Indexed>,
    other: &Causal<Indexed>,
    looks: Looks,
) -> Plan {
    let (store, theirs) = (state.store(), other.store());
    store
        .plan_with(rt.alloc(), state.context(), theirs, other.context(), looks)
        .expect(rt, "room")
}

/// The join with another state, planned and carried out.
pub(crate) fn in_place(
    rt: &(impl Abort + AllocGlobal),
    state: Causal<Indexed>,
    other: &Causal<Indexed>,
) -> Causal<Indexed> {
    let plan = planned(rt, &state, other, Looks::AtTouched);
    let (table, context) = state.into_parts();
    let ready = table.open_for(rt.alloc(), plan).ok().expect(rt, "room");
    let context = context
        .joined(rt.alloc(), other.context())
        .expect(rt, "room");
    Causal::of(IndexedMap::carry_out(ready), context).expect(rt, "the dots of all rows")
}
