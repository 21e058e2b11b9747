//! Whether a context has a dot, all the dots of another, or few enough.

ghost use Rattle.std.specs.Prelude.{◌≡◌, ℕ, List, ◌≤◌, ◌+◌, ◌↔◌, true, IsTrue};
ghost use Rattle.sup_specs.specs.Rising.{among};
ghost use Rattle.sup_causal.specs.Cut.{entry, in_parts, IsCanonical};
ghost use Rattle.sup_causal.specs.Dots.{has, dot_cmp};
ghost use Rattle.sup_causal.specs.Parts.{IsVersions, total_of};

use crate::context::CausalContext;
use crate::dot::Dot;
use crate::entries::entry_in;
use crate::sorted_dots::is_in;
use sup_specs::NodeName;

// Whether a vector and a cloud have the dot.
pub(super) fn parts_have(vector: &[(NodeName, u64)], cloud: &[Dot], dot: &Dot) -> bool
    requires { IsCanonical vector.now cloud.now }
    ensures { result ≡ in_parts vector.now cloud.now dot.now }
{
    let entry = entry_in(vector, &dot.node);
    (1 <= dot.counter && dot.counter <= entry) || is_in(dot, cloud)
}

// Whether each entry is at most the other vector's.
pub(super) fn runs_within(vector: &[(NodeName, u64)], others: &[(NodeName, u64)]) -> bool
    requires vector { IsVersions vector.now }
    requires others { IsVersions others.now }
    ensures { IsTrue result ↔ ((q : List ℕ) → entry vector.now q ≤ entry others.now q) }
{
    for (node, entry) in vector {
        if entry_in(others, node) < *entry {
            return false;
        }
    }
    true
}

// Whether the context has all the dots.
pub(super) fn cloud_within(dots: &[Dot], other: &CausalContext) -> bool
    ensures { IsTrue result ↔ ((d : Dot) → among dot_cmp dots.now d ≡ true → has other.now d ≡ true) }
{
    for dot in dots {
        if !other.contains(dot) {
            return false;
        }
    }
    true
}

// Whether the dots of the runs, with as many more as `cloud` says, are at most as many as `most` says.
pub(super) fn is_at_most(vector: &[(NodeName, u64)], cloud: usize, most: usize) -> bool
    ensures { IsTrue result ↔ (total_of vector.now + cloud ≤ most) }
{
    if most < cloud {
        return false;
    }
    let mut left = (most - cloud) as u64;
    for entry in vector {
        if left < entry.1 {
            return false;
        }
        left -= entry.1;
    }
    true
}
