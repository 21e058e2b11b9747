//! Whether a version vector and a dot cloud are canonical.

ghost use Rattle.std.specs.Prelude.{◌+◌, ◌≤◌, ◌↔◌, All, IsTrue};
ghost use Rattle.std.specs.Map.{keys_of};
ghost use Rattle.std.specs.List.Sorted.{IsStrictlySortedBy};
ghost use Rattle.sup_specs.specs.Values.{text_cmp};
ghost use Rattle.sup_causal.specs.Cut.{entry, IsCanonical};
ghost use Rattle.sup_causal.specs.Dots.{dot_cmp};

use crate::dot::Dot;
use crate::entries::entry_in;
use std::alloc::AllocError;
use sup_specs::{MAX, NodeName};
use thiserror::Error;

/// Why a vector and a cloud make no context.
#[derive(Clone, Copy, Debug, PartialEq, Eq, Error)]
pub enum PartsFault {
    #[error("the vector and the cloud are not canonical")]
    NotCanonical,
    #[error("out of memory")]
    OutOfMemory,
}

impl From<AllocError> for PartsFault {
    ghost use Rattle.std.specs.Prelude.{◌≡◌};
    ghost use Rattle.sup_causal.specs.declared.parts.PartsFault.TheVariants.{OutOfMemory};

    ghost from_gives = { λ _ fault. fault ≡ OutOfMemory };

    fn from(_refused: AllocError) -> PartsFault {
        PartsFault::OutOfMemory
    }
}

// Whether the parts are canonical.
pub(crate) fn is_canonical(vector: &[(NodeName, u64)], cloud: &[Dot]) -> bool
    ensures { IsTrue result ↔ IsCanonical vector.now cloud.now }
{
    names_rise(vector) && all_counted(vector) && dots_rise(cloud) && all_apart(vector, cloud)
}

fn names_rise(vector: &[(NodeName, u64)]) -> bool
    ensures { IsTrue result ↔ IsStrictlySortedBy text_cmp (keys_of vector.now) }
{
    vector.is_sorted_by(|left, right| left.0 < right.0)
}

fn dots_rise(dots: &[Dot]) -> bool
    ensures { IsTrue result ↔ IsStrictlySortedBy dot_cmp dots.now }
{
    dots.is_sorted_by(|left, right| left < right)
}

fn all_counted(vector: &[(NodeName, u64)]) -> bool
    ensures { IsTrue result ↔ All (λ e. (1 ≤ e.1) × (e.1 ≤ MAX)) vector.now }
{
    vector.iter().all(|entry| 1 <= entry.1 && entry.1 <= MAX)
}

fn all_apart(vector: &[(NodeName, u64)], cloud: &[Dot]) -> bool
    requires { IsStrictlySortedBy text_cmp (keys_of vector.now) }
    ensures { IsTrue result ↔ All (λ d. (entry vector.now d.node + 2 ≤ d.counter) × (d.counter ≤ MAX)) cloud.now }
{
    for dot in cloud {
        if !is_apart(vector, dot) {
            return false;
        }
    }
    true
}

// Whether the dot's counter is in its limits and at least 2 above its node's entry.
fn is_apart(vector: &[(NodeName, u64)], dot: &Dot) -> bool
    requires { IsStrictlySortedBy text_cmp (keys_of vector.now) }
    ensures { IsTrue result ↔ (entry vector.now dot.now.node + 2 ≤ dot.now.counter) × (dot.now.counter ≤ MAX) }
{
    dot.counter <= MAX && entry_in(vector, &dot.node).saturating_add(2) <= dot.counter
}
