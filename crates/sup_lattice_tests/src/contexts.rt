//! Contexts at values that were worked out by hand.
use crate::given::{
    Counters, add, context, cut, dot, dots, expect_below, expect_cut, expect_not_below, grow,
    joined, node,
};
use std::process::Abort;
use sup_causal::{CausalContext, PartsFault};
use sup_specs::MAX;

fn has(rt: &impl Abort, context: &CausalContext, name: &str, counter: u64) -> bool {
    context.contains(&dot(rt, name, counter))
}

#[test]
fn a_vector_stops_at_the_first_gap(rt: HostRuntime) {
    let mut known = CausalContext::empty(rt.alloc());
    add(&rt, &mut known, "a", 3);
    add(&rt, &mut known, "a", 1);
    expect_cut(&rt, &known, &[("a", 1)], &[("a", 3)]);
    assert!(rt; has(&rt, &known, "a", 1) && !has(&rt, &known, "a", 2));
    add(&rt, &mut known, "a", 2);
    expect_cut(&rt, &known, &[("a", 3)], &[]);
}

#[test]
fn a_counter_in_its_limits_is_counted(rt: HostRuntime) {
    for (counter, is_counted) in [(0, false), (1, true), (MAX, true), (MAX + 1, false)] {
        assert!(rt; dot(&rt, "a", counter).is_counted() == is_counted);
    }
}

fn of_dots(rt: &(impl Abort + AllocGlobal), counters: Counters<'_>) -> CausalContext {
    let dots = dots(rt, counters);
    assert!(rt;
        dots.iter()
            .all(|dot| 1 <= dot.counter && dot.counter <= MAX)
    );
    CausalContext::of_dots(rt.alloc(), &dots).expect(rt, "room")
}

#[test]
fn a_list_of_dots_may_stand_in_any_order_and_repeat(rt: HostRuntime) {
    let known = of_dots(&rt, &[("b", 3), ("a", 2), ("b", 1), ("b", 2), ("a", 2)]);
    expect_cut(&rt, &known, &[("b", 3)], &[("a", 2)]);
    assert!(rt; known.has_at_most(4) && !known.has_at_most(3));
}

// Expects the greatest counter of a node, and that of its next dot, if there is one.
fn expect_next(
    rt: &impl Abort,
    known: &CausalContext,
    name: &str,
    greatest: u64,
    next: Option<u64>,
) {
    assert!(rt; known.greatest(&node(rt, name)) == greatest);
    assert!(rt; known.next(node(rt, name)).map(|dot| dot.counter) == next);
}

#[test]
fn the_next_dot_is_above_the_greatest_until_dots_are_spent(rt: HostRuntime) {
    let known = of_dots(&rt, &[("a", 3), ("c", MAX), ("a", 1)]);
    expect_next(&rt, &known, "a", 3, Some(4));
    expect_next(&rt, &known, "b", 0, Some(1));
    expect_next(&rt, &known, "c", MAX, None);
}

#[test]
fn canonical_parts_make_a_context(rt: HostRuntime) {
    let gap = context(&rt, &[("a", 1)], &[("a", 3)]);
    assert!(rt; has(&rt, &gap, "a", 1) && !has(&rt, &gap, "a", 2) && has(&rt, &gap, "a", 3));
    expect_cut(&rt, &gap, &[("a", 1)], &[("a", 3)]);
    let cloud = context(&rt, &[], &[("a", 2), ("a", 3)]);
    expect_cut(&rt, &cloud, &[], &[("a", 2), ("a", 3)]);
}

#[test]
fn parts_that_are_not_canonical_are_refused(rt: HostRuntime) {
    let cases: [(Counters<'_>, Counters<'_>); 11] = [
        // Vectors.
        (&[("a", 0)], &[]),
        (&[("a", MAX + 1)], &[]),
        (&[("a", 1), ("a", 1)], &[]),
        (&[("b", 1), ("a", 1)], &[]),
        // Clouds.
        (&[], &[("a", 3), ("a", 3)]),
        (&[], &[("a", 3), ("a", 2)]),
        (&[], &[("b", 3), ("a", 3)]),
        (&[], &[("a", MAX + 1)]),
        // Clouds that touch their vector.
        (&[("a", 1)], &[("a", 2)]),
        (&[("a", 3)], &[("a", 3)]),
        (&[], &[("a", 1)]),
    ];
    for (vector, cloud) in cases {
        assert!(rt; cut(&rt, vector, cloud).err() == Some(PartsFault::NotCanonical));
    }
}

// Expects the join of two contexts, each told by its parts, to have these parts, made anew or in place.
fn expect_join(
    rt: &(impl Abort + AllocGlobal),
    left: &CausalContext,
    right: &CausalContext,
    vector: Counters<'_>,
    cloud: Counters<'_>,
) {
    let mut both = joined(rt, right, left);
    expect_cut(rt, &both, vector, cloud);
    both = joined(rt, left, right);
    expect_cut(rt, &both, vector, cloud);
    expect_below(rt, right, &both);
}

type Parts<'a> = (Counters<'a>, Counters<'a>);

// A context takes in up to an eighth as many dots as it has in place, and more of them by a merge.
#[test]
fn a_join_has_the_dots_of_both(rt: HostRuntime) {
    let cases: [(Parts<'_>, Parts<'_>, Parts<'_>); 9] = [
        (
            (&[("a", 1)], &[("a", 3)]),
            (&[], &[("a", 2)]),
            (&[("a", 3)], &[]),
        ),
        ((&[("a", 2)], &[]), (&[], &[("a", 3)]), (&[("a", 3)], &[])),
        // Where it belongs, and last.
        (
            (&[("a", 8)], &[("a", 10)]),
            (&[], &[("a", 9)]),
            (&[("a", 10)], &[]),
        ),
        ((&[("a", 8)], &[]), (&[], &[("a", 9)]), (&[("a", 9)], &[])),
        // Some far apart, and one that is known.
        (
            (&[("a", 24)], &[]),
            (&[], &[("b", 2), ("a", 4), ("b", 25)]),
            (&[("a", 24)], &[("b", 2), ("b", 25)]),
        ),
        ((&[("a", 8)], &[]), (&[], &[("a", 3)]), (&[("a", 8)], &[])),
        ((&[("a", 8)], &[]), (&[], &[]), (&[("a", 8)], &[])),
        // Many.
        (
            (&[("a", 3)], &[]),
            (&[("a", 1), ("b", 8)], &[]),
            (&[("a", 3), ("b", 8)], &[]),
        ),
        ((&[], &[]), (&[], &[("a", 3)]), (&[], &[("a", 3)])),
    ];
    for (left, right, wanted) in cases {
        let mut known = context(&rt, left.0, left.1);
        let more = context(&rt, right.0, right.1);
        expect_join(&rt, &known, &more, wanted.0, wanted.1);
        grow(&rt, &mut known, &more);
        expect_cut(&rt, &known, wanted.0, wanted.1);
    }
}

#[test]
fn contexts_that_share_dots_may_both_have_more(rt: HostRuntime) {
    let left = context(&rt, &[("a", 3)], &[("b", 2)]);
    let right = context(&rt, &[("b", 2)], &[("a", 2), ("a", 4)]);
    expect_not_below(&rt, &left, &right);
    expect_not_below(&rt, &right, &left);
    expect_below(&rt, &left, &left);
}

// Two contexts of 100,000 dots each, no two of one node next to one another in their join. One pass over both makes
// 200,000 steps; a join or a comparison that took 100,000 times 100,000 steps would not end in a test's minute.
#[test]
fn a_join_of_many_dots_is_one_pass(rt: HostRuntime) {
    let left = context(&rt, &[("a", 100_000)], &[]);
    let right = context(&rt, &[("b", 100_000)], &[]);
    expect_join(&rt, &left, &right, &[("a", 100_000), ("b", 100_000)], &[]);
    expect_not_below(&rt, &left, &right);
}
