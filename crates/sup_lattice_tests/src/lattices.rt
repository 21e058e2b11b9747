//! Lattices at values that were worked out by hand.

ghost use Rattle.std.specs.Prelude.{◌≡◌, IfOk};

use crate::given::{Counters, expect_below, expect_not_below, grow, node};
use std::alloc::{AllocError, Global};
use std::process::Abort;
use sup_causal::{Lattice, Least, MapJoin, MaxCount};
use sup_specs::NodeName;

// What two values join to, which is the same in either order.
fn joined_both_ways<L: Lattice>(alloc: Global, left: &L, right: &L) -> Result<(L, L), AllocError>
    ensures { IfOk result (λ r. L.meaning r.0 ≡ L.meaning r.1) }
{
    Ok((left.joined(alloc, right)?, right.joined(alloc, left)?))
}

#[test]
fn counts_join_to_the_greater(rt: HostRuntime) {
    let mut count = MaxCount::new(4);
    grow(&rt, &mut count, &MaxCount::new(9));
    assert!(rt; count.count == 9 && MaxCount::new(4).leq(&count));
}

// The lesser of two values, whichever comes first.
fn least_of(rt: &(impl Abort + AllocGlobal), left: u8, right: u8) -> Least<u8> {
    let (least, also) = joined_both_ways(rt.alloc(), &Least::new(left), &Least::new(right)).expect(
        rt, "a join",
    );
    assert!(rt; least.value == also.value);
    least
}

#[test]
fn least_values_join_to_the_lesser(rt: HostRuntime) {
    let mut nine = Least::new(9u8);
    grow(&rt, &mut nine, &least_of(&rt, 4, 9));
    assert!(rt; nine.value == 4);
}

type Counts = MapJoin<NodeName, MaxCount>;

fn counts(rt: &(impl Abort + AllocGlobal), counters: Counters<'_>) -> Counts {
    let mut counts = MapJoin::new(rt.alloc());
    for (name, count) in counters {
        counts
            .insert(node(rt, name), MaxCount::new(*count))
            .expect(rt, "room");
    }
    counts
}

// Whether these are its counts, all of them and in this order.
fn are_counts(counts: &Counts, counters: Counters<'_>) -> bool {
    let mut wanted = counters.iter();
    for (name, value) in &counts.map {
        match wanted.next() {
            Some((next, count)) if name.as_str() == *next && value.count == *count => {}
            _ => return false,
        }
    }
    wanted.next().is_none()
}

// Expects two maps, neither below the other, to join to this one.
fn expect_join(
    rt: &(impl Abort + AllocGlobal),
    left: &mut Counts,
    right: &Counts,
    wanted: Counters<'_>,
) {
    let (both, also) = joined_both_ways(rt.alloc(), left, right).expect(rt, "a join");
    assert!(rt; are_counts(&both, wanted) && are_counts(&also, wanted));
    expect_not_below(rt, right, left);
    grow(rt, left, right);
    assert!(rt; are_counts(left, wanted));
    expect_below(rt, right, left);
}

// What they join to is what Python says of two dicts a and b: {k: max(a.get(k, 0), b.get(k, 0)) for k in sorted(a | b)}.
#[test]
fn maps_join_key_by_key(rt: HostRuntime) {
    let mut few = counts(&rt, &[("p", 2)]);
    let more = counts(&rt, &[("p", 1), ("q", 3)]);
    assert!(rt; few.get(&node(&rt, "q")).is_none());
    expect_join(&rt, &mut few, &more, &[("p", 2), ("q", 3)]);
    let three = few.get(&node(&rt, "q")).map(|value| value.count);
    assert!(rt; three == Some(3));
    let mut a = counts(&rt, &[("b", 5), ("d", 1), ("e", 7), ("h", 2)]);
    let b = counts(&rt, &[("a", 3), ("d", 4), ("e", 6), ("g", 9), ("i", 8)]);
    let both = [
        ("a", 3),
        ("b", 5),
        ("d", 4),
        ("e", 7),
        ("g", 9),
        ("h", 2),
        ("i", 8),
    ];
    expect_join(&rt, &mut a, &b, &both);
}

#[test]
fn one_key_decides_between_maps_that_interleave(rt: HostRuntime) {
    let few = counts(&rt, &[("b", 2), ("d", 4)]);
    let more = counts(&rt, &[("a", 1), ("b", 2), ("c", 1), ("d", 5), ("e", 1)]);
    expect_below(&rt, &few, &more);
    let others: [Counters<'_>; 3] = [
        &[("a", 9), ("b", 9), ("c", 9), ("d", 3), ("e", 9)],
        &[("a", 9), ("c", 9), ("d", 9), ("e", 9)],
        &[("a", 9), ("b", 9), ("c", 9)],
    ];
    for other in others {
        expect_not_below(&rt, &few, &counts(&rt, other));
    }
}
