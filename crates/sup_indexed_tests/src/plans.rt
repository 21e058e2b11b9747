//! Joins in three steps: planned beside a map, opened, and carried out or given up.
use crate::given::{
    Indexed, Known, Plan, Rows, expect_rows, indexed, merged, planned, rows, rows_of,
};
use std::process::Abort;
use sup_causal::Lattice;
use sup_dot_store::Causal;
use sup_indexed::{IndexedMap, Looks, Property, ReadyMap};

// Two values under 1, and one under 2 and 3.
const HERE: Known<'_> = (
    &[
        (1, ("a", 1), 7),
        (1, ("a", 4), 8),
        (2, ("a", 2), 7),
        (3, ("a", 3), 7),
    ],
    &[],
);

// A third value under 1, that of 2 is gone, a lesser one under 3, and the first under 4.
const THERE: Known<'_> = (
    &[(1, ("b", 5), 6), (3, ("a", 3), 5), (4, ("b", 6), 9)],
    &[("a", 2)],
);

const TOGETHER: Rows<'_> = &[
    (1, ("a", 1), 7),
    (1, ("a", 4), 8),
    (1, ("b", 5), 6),
    (3, ("a", 3), 5),
    (4, ("b", 6), 9),
];

// The map of these rows, opened for a plan of the join with those.
fn opened(rt: &(impl Abort + AllocGlobal), here: Causal<Indexed>) -> ReadyMap<u8, u8> {
    let plan = planned(rt, &here, &indexed(rt, THERE), Looks::AtTouched);
    let (table, _) = here.into_parts();
    table.open_for(rt.alloc(), plan).ok().expect(rt, "room")
}

fn with_index(rt: &(impl Abort + AllocGlobal), known: Known<'_>) -> Causal<Indexed> {
    let (table, context) = indexed(rt, known).into_parts();
    Causal::of(table.with_index(), context).expect(rt, "the dots of all rows")
}

#[test]
fn a_plan_carried_out_gives_what_a_merge_gives(rt: HostRuntime) {
    let merge = merged(&rt, HERE).joined(rt.alloc(), &merged(&rt, THERE));
    assert!(rt; rows_of(&rt, merge.expect(&rt, "room").store()) == rows(&rt, TOGETHER));
    let table = IndexedMap::carry_out(opened(&rt, indexed(&rt, HERE)));
    expect_rows(&rt, table, TOGETHER);
    let table = IndexedMap::carry_out(opened(&rt, with_index(&rt, HERE)));
    expect_rows(&rt, table, TOGETHER);
}

#[test]
fn a_plan_given_up_leaves_the_rows(rt: HostRuntime) {
    let table = IndexedMap::give_up(opened(&rt, with_index(&rt, HERE)));
    expect_rows(&rt, table, HERE.0);
}

#[test]
fn a_plan_touches_the_keys_whose_first_value_differs(rt: HostRuntime) {
    let state = indexed(&rt, HERE);
    let plan = planned(&rt, &state, &indexed(&rt, THERE), Looks::AtTouched);
    let touched = state.store().touched_by(rt.alloc(), &plan);
    assert!(rt; touched.expect(&rt, "room").as_slice() == [2, 3, 4].as_slice());
}

// A value is this one.
#[derive(Drop)]
struct Is {
    value: u8,
}

impl Property<u8> for Is {
    ghost use Rattle.std.specs.Prelude.{eqb};

    ghost is_held = { λ s v. eqb v s.value };

    fn holds(&self, value: &u8) -> bool {
        *value == self.value
    }
}

#[test]
fn a_property_of_first_values_comes_or_goes(rt: HostRuntime) {
    let state = indexed(&rt, HERE);
    let plan = planned(&rt, &state, &indexed(&rt, THERE), Looks::AtTouched);
    // Under 2 and 3 it goes, under 4 it comes, and no value behind the first counts.
    let cases: [(u8, bool); 5] = [(7, true), (9, true), (5, true), (8, false), (6, false)];
    for (value, differs) in cases {
        assert!(rt; state.store().differs_in(&plan, &Is { value }) == differs);
    }
}

// How many values the function under a key has once the plan is carried out.
fn count_after(state: &Causal<Indexed>, plan: &Plan, key: u8) -> Option<usize> {
    let function = state.store().get_after(plan, &key)?;
    Some(function.values().len())
}

#[test]
fn the_functions_of_a_plan_are_lent_before_it_is_carried_out(rt: HostRuntime) {
    let state = indexed(&rt, HERE);
    let plan = planned(&rt, &state, &indexed(&rt, THERE), Looks::AtTouched);
    assert!(rt; count_after(&state, &plan, 1) == Some(3));
    assert!(rt; count_after(&state, &plan, 2) == Some(0));
    assert!(rt; count_after(&state, &plan, 5) == None);
    let mut counts = Vec::new(rt.alloc());
    let functions = state.store().functions_after(rt.alloc(), &plan);
    for (key, function) in functions.expect(&rt, "room") {
        counts
            .push((*key, function.values().len()))
            .expect(&rt, "room");
    }
    assert!(rt; counts.as_slice() == [(1, 3), (2, 0), (3, 1), (4, 1)].as_slice());
}
