//! Values of the tests, told by texts and numbers. These calls promise nothing: a test knows no more than what it sees
//! when it runs. They end it where there is no such value, or where a call of the crates fails.
use std::process::Abort;
use sup_causal::{CausalContext, Dot, Lattice, PartsFault};
use sup_specs::NodeName;

/// Counters of nodes, told by name.
pub(crate) type Counters<'a> = &'a [(&'a str, u64)];

pub(crate) fn node(rt: &impl Abort, name: &str) -> NodeName {
    NodeName::parse(name).expect(rt, "a node's name")
}

pub(crate) fn dot(rt: &impl Abort, name: &str, counter: u64) -> Dot {
    Dot {
        counter,
        node: node(rt, name),
    }
}

pub(crate) fn dots(rt: &(impl Abort + AllocGlobal), counters: Counters<'_>) -> Vec<Dot> {
    let mut dots = Vec::new(rt.alloc());
    for (name, counter) in counters {
        dots.push(dot(rt, name, *counter)).expect(rt, "room");
    }
    dots
}

pub(crate) fn entries(
    rt: &(impl Abort + AllocGlobal),
    counters: Counters<'_>,
) -> Vec<(NodeName, u64)> {
    let mut entries = Vec::new(rt.alloc());
    for (name, counter) in counters {
        entries.push((node(rt, name), *counter)).expect(rt, "room");
    }
    entries
}

/// What a vector and a cloud give.
pub(crate) fn cut(
    rt: &(impl Abort + AllocGlobal),
    vector: Counters<'_>,
    cloud: Counters<'_>,
) -> Result<CausalContext, PartsFault> {
    CausalContext::from_parts(rt.alloc(), &entries(rt, vector), &dots(rt, cloud))
}

pub(crate) fn context(
    rt: &(impl Abort + AllocGlobal),
    vector: Counters<'_>,
    cloud: Counters<'_>,
) -> CausalContext {
    cut(rt, vector, cloud).expect(rt, "a cut")
}

/// Expects a context to be cut into these parts.
pub(crate) fn expect_cut(
    rt: &(impl Abort + AllocGlobal),
    context: &CausalContext,
    vector: Counters<'_>,
    cloud: Counters<'_>,
) {
    assert!(rt; context.vector().expect(rt, "room") == entries(rt, vector));
    assert!(rt; context.cloud().expect(rt, "room") == dots(rt, cloud));
}

pub(crate) fn add(rt: &impl Abort, context: &mut CausalContext, name: &str, counter: u64) {
    let dot = dot(rt, name, counter);
    assert!(rt; dot.is_counted());
    context.insert(dot).expect(rt, "room");
}

/// The join, through the trait's bound.
pub(crate) fn joined<L: Lattice>(rt: &(impl Abort + AllocGlobal), left: &L, right: &L) -> L {
    left.joined(rt.alloc(), right).expect(rt, "a join")
}

/// Joins a value to another in place.
pub(crate) fn grow<L: Lattice>(rt: &(impl Abort + AllocGlobal), value: &mut L, more: &L) {
    value.join_from(rt.alloc(), more).expect(rt, "a join");
}

pub(crate) fn expect_below<L: Lattice>(rt: &impl Abort, low: &L, high: &L) {
    assert!(rt; low.leq(high));
}

pub(crate) fn expect_not_below<L: Lattice>(rt: &impl Abort, low: &L, high: &L) {
    assert!(rt; !low.leq(high));
}
