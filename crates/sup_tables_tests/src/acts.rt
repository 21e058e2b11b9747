//! What nodes of the tests do to their tables. The calls promise nothing, and end the test where one of the tables' fails.
use crate::given::{child_id, dot, labelled, node, registered, spec};
use std::alloc::AllocError;
use std::process::Abort;
use sup_causal::{Dot, Lattice};
use sup_tables::{PutFault, Tables};

pub(crate) fn empty(rt: &impl AllocGlobal) -> Tables {
    Tables::empty(rt.alloc())
}

// Takes in what other tables know.
pub(crate) fn absorb(rt: &(impl Abort + AllocGlobal), tables: &mut Tables, other: &Tables) {
    tables.join_from(rt.alloc(), other).expect(rt, "a join")
}

// New tables that know what both know.
pub(crate) fn merged(rt: &(impl Abort + AllocGlobal), left: &Tables, right: &Tables) -> Tables {
    left.joined(rt.alloc(), right).expect(rt, "a join")
}

pub(crate) fn copy(rt: &(impl Abort + AllocGlobal), tables: &Tables) -> Tables {
    tables.try_clone(rt.alloc()).expect(rt, "a copy")
}

// Takes in an add, whose dot must be its node's next.
fn take_add(
    rt: &(impl Abort + AllocGlobal),
    tables: &mut Tables,
    put: Result<(Tables, Dot), PutFault>,
) {
    let (delta, dot) = put.expect(rt, "an add");
    assert!(rt; tables.context().next(dot.node) == Some(dot));
    absorb(rt, tables, &delta);
}

// Takes in a removal, and gives the dots that it names.
fn take_removal(
    rt: &(impl Abort + AllocGlobal),
    tables: &mut Tables,
    removed: Result<(Tables, Vec<Dot>), AllocError>,
) -> Vec<Dot> {
    let (delta, dots) = removed.expect(rt, "a removal");
    absorb(rt, tables, &delta);
    dots
}

pub(crate) fn join(rt: &(impl Abort + AllocGlobal), tables: &mut Tables, me: &str, label: &str) {
    let put = tables.put_member(node(rt, me), labelled(rt, label));
    take_add(rt, tables, put)
}

// Drains a member, which must be there, and gives the dots that this names.
pub(crate) fn drain(
    rt: &(impl Abort + AllocGlobal),
    tables: &mut Tables,
    me: &str,
    member: &str,
) -> Vec<Dot> {
    let put = tables.drain_member(node(rt, me), &node(rt, member));
    let (delta, dot, dots) = put.expect(rt, "an add");
    let dot = dot.expect(rt, "a member");
    take_add(rt, tables, Ok((delta, dot)));
    dots
}

pub(crate) fn leave(
    rt: &(impl Abort + AllocGlobal),
    tables: &mut Tables,
    member: &str,
) -> Vec<Dot> {
    let removed = tables.drop_member(&node(rt, member));
    take_removal(rt, tables, removed)
}

pub(crate) fn start(
    rt: &(impl Abort + AllocGlobal),
    tables: &mut Tables,
    me: &str,
    id: &str,
    kind: &str,
) {
    let put = tables.put_child(node(rt, me), child_id(rt, id), spec(rt, kind));
    take_add(rt, tables, put)
}

pub(crate) fn replace(
    rt: &(impl Abort + AllocGlobal),
    tables: &mut Tables,
    me: &str,
    id: &str,
    kind: &str,
) -> Vec<Dot> {
    let put = tables.replace_child(node(rt, me), child_id(rt, id), spec(rt, kind));
    let (delta, dot, dots) = put.expect(rt, "an add");
    take_add(rt, tables, Ok((delta, dot)));
    dots
}

pub(crate) fn delete(rt: &(impl Abort + AllocGlobal), tables: &mut Tables, id: &str) -> Vec<Dot> {
    let removed = tables.drop_child(&child_id(rt, id));
    take_removal(rt, tables, removed)
}

// Takes out the child that ran under this dot.
pub(crate) fn finish(
    rt: &(impl Abort + AllocGlobal),
    tables: &mut Tables,
    name: &str,
    counter: u64,
) {
    let dot = dot(rt, name, counter);
    assert!(rt; dot.is_counted());
    let delta = tables.finish_child(dot).expect(rt, "a removal");
    absorb(rt, tables, &delta)
}

pub(crate) fn register(
    rt: &(impl Abort + AllocGlobal),
    tables: &mut Tables,
    me: &str,
    name: &str,
    id: &str,
) {
    let put = tables.put_name(node(rt, me), registered(rt, name), child_id(rt, id));
    take_add(rt, tables, put)
}

pub(crate) fn unregister(
    rt: &(impl Abort + AllocGlobal),
    tables: &mut Tables,
    name: &str,
) -> Vec<Dot> {
    let removed = tables.drop_name(&registered(rt, name));
    take_removal(rt, tables, removed)
}
