//! Contexts at values that were worked out by hand.
use crate::given::{Counters, add, context, cut, dot, dots, expect_cut, joined, node};
use std::process::Abort;
use sup_causal::{CausalContext, Lattice, PartsFault};
use sup_specs::MAX;

fn left(rt: &(impl Abort + AllocGlobal)) -> CausalContext {
    context(rt, &[("a", 2)], &[("b", 2), ("a", 5)])
}

fn right(rt: &(impl Abort + AllocGlobal)) -> CausalContext {
    context(rt, &[("a", 1), ("b", 1)], &[("a", 4)])
}

fn expect_refused(rt: &(impl Abort + AllocGlobal), vector: Counters<'_>, cloud: Counters<'_>) {
    assert!(rt; matches!(cut(rt, vector, cloud), Err(PartsFault::NotCanonical)));
}

#[test]
fn a_join_takes_the_cloud_into_the_vector(rt: HostRuntime) {
    let both = joined(&rt, &left(&rt), &right(&rt));
    expect_cut(&rt, &both, &[("a", 2), ("b", 2)], &[("a", 4), ("a", 5)]);
}

#[test]
fn a_join_in_place_takes_the_cloud_into_the_vector(rt: HostRuntime) {
    let mut both = left(&rt);
    both.join_from(rt.alloc(), &right(&rt)).expect(&rt, "room");
    expect_cut(&rt, &both, &[("a", 2), ("b", 2)], &[("a", 4), ("a", 5)]);
    // The other has nothing more to bring.
    both.join_from(rt.alloc(), &right(&rt)).expect(&rt, "room");
    expect_cut(&rt, &both, &[("a", 2), ("b", 2)], &[("a", 4), ("a", 5)]);
}

#[test]
fn an_insert_closes_a_gap(rt: HostRuntime) {
    let mut both = joined(&rt, &left(&rt), &right(&rt));
    add(&rt, &mut both, "a", 3);
    expect_cut(&rt, &both, &[("a", 5), ("b", 2)], &[]);
}

#[test]
fn the_longest_run_is_joined_at_once(rt: HostRuntime) {
    let all = context(&rt, &[("a", MAX)], &[]);
    let some = context(&rt, &[("a", 3)], &[("a", 9)]);
    let both = joined(&rt, &all, &some);
    expect_cut(&rt, &both, &[("a", MAX)], &[]);
    assert!(rt; some.leq(&both) && all.leq(&both));
    assert!(rt; both.leq(&all) && !both.leq(&some));
}

#[test]
fn parts_that_go_on_are_no_cut(rt: HostRuntime) {
    expect_refused(&rt, &[("a", 1)], &[("a", 2)]);
    expect_cut(
        &rt,
        &context(&rt, &[("a", 1)], &[("a", 3)]),
        &[("a", 1)],
        &[("a", 3)],
    );
}

#[test]
fn a_gap_is_left_and_closed(rt: HostRuntime) {
    let found = dots(&rt, &[("a", 3), ("a", 1), ("a", 3)]);
    assert!(rt;
        found
            .iter()
            .all(|dot| 1 <= dot.counter && dot.counter <= MAX)
    );
    let mut known = CausalContext::of_dots(rt.alloc(), &found).expect(&rt, "room");
    expect_cut(&rt, &known, &[("a", 1)], &[("a", 3)]);
    assert!(rt; known.contains(&dot(&rt, "a", 3)) && !known.contains(&dot(&rt, "a", 2)));
    assert!(rt; known.greatest(&node(&rt, "a")) == 3);
    assert!(rt; known.next(node(&rt, "a")) == Some(dot(&rt, "a", 4)));
    assert!(rt; known.next(node(&rt, "b")) == Some(dot(&rt, "b", 1)));
    add(&rt, &mut known, "a", 2);
    expect_cut(&rt, &known, &[("a", 3)], &[]);
    add(&rt, &mut known, "a", MAX);
    expect_cut(&rt, &known, &[("a", 3)], &[("a", MAX)]);
    assert!(rt; known.next(node(&rt, "a")).is_none());
}

#[test]
fn a_dot_beyond_a_gap_is_not_below(rt: HostRuntime) {
    let far = context(&rt, &[], &[("a", 3)]);
    let near = context(&rt, &[("a", 2)], &[]);
    assert!(rt; !far.leq(&near) && !near.leq(&far));
    assert!(rt; CausalContext::empty(rt.alloc()).leq(&far));
}
