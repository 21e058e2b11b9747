//! Lists of dots in rising order: a list sorted, the union of two, and the greatest counter of a node.

ghost use Rattle.std.specs.Prelude.{◌≡◌, ◌+◌, ◌≤◌, ◌||◌, false, length, IfOk, OnOk, OnErr};
ghost use Rattle.std.specs.List.{AllByRecursion};
ghost use Rattle.std.specs.List.Sorted.{IsStrictlySortedBy};
ghost use Rattle.sup_specs.specs.Rising.{among};
ghost use Rattle.sup_causal.specs.Dots.{dot_cmp, dot_eq, IsCounted, IsGreatest, IsKept};

use crate::dot::Dot;
use std::alloc::{AllocError, Global};
use std::cmp::Ordering;
use sup_specs::NodeName;

// The dots of a list, each once and in rising order.
pub(crate) fn sorted(mut dots: Vec<Dot>) -> Vec<Dot>
    requires { AllByRecursion IsCounted dots.items }
    ensures kept { IsKept result.items }
    ensures dots { (d : Dot) → among dot_cmp result.items d ≡ among dot_cmp dots.items d }
{
    dots.sort_unstable();
    dots.dedup();
    dots
}

// The dots of both lists, in one pass.
pub(crate) fn union(alloc: Global, left: &[Dot], right: &[Dot]) -> Result<Vec<Dot>, AllocError>
    requires left { IsKept left.now }
    requires right { IsKept right.now }
    ensures kept { IfOk result (λ both. IsKept both.items) }
    ensures dots { IfOk result (λ both. (d : Dot) → among dot_cmp both.items d ≡ (among dot_cmp left.now d || among dot_cmp right.now d)) }
    ensures bound { IfOk result (λ both. length both.items ≤ length left.now + length right.now) }
{
    let mut both = Vec::with_capacity(alloc, left.len() + right.len())?;
    let mut i = 0;
    let mut j = 0;
    while i < left.len() && j < right.len() {
        match left[i].cmp(&right[j]) {
            Ordering::Less => {
                both.push(left[i])?;
                i += 1;
            }
            Ordering::Equal => {
                both.push(left[i])?;
                i += 1;
                j += 1;
            }
            Ordering::Greater => {
                both.push(right[j])?;
                j += 1;
            }
        }
    }
    both.extend_from_slice(&left[i..])?;
    both.extend_from_slice(&right[j..])?;
    Ok(both)
}

// Whether the list has the dot, by binary search.
pub(crate) fn is_in(dot: &Dot, dots: &[Dot]) -> bool
    requires { IsStrictlySortedBy dot_cmp dots.now }
    ensures { result ≡ among dot_cmp dots.now dot.now }
{
    dots.binary_search(dot).is_ok()
}

// The greatest counter of the node's dots, from the back: counters rise, so the first that is met is the greatest.
pub(crate) fn greatest_of(dots: &[Dot], node: &NodeName) -> u64
    requires { IsStrictlySortedBy dot_cmp dots.now }
    ensures { IsGreatest (among dot_cmp dots.now) node.now result }
{
    let mut i = dots.len();
    while i > 0 {
        i -= 1;
        if dots[i].node == *node {
            return dots[i].counter;
        }
    }
    0
}

// Puts a dot in at its place, where it is not there. Where memory is refused the list stays as it was, and the dot is
// not there.
pub(crate) fn put(dots: &mut Vec<Dot>, dot: Dot) -> Result<(), AllocError>
    requires { IsStrictlySortedBy dot_cmp dots.old.items }
    ensures rising { IsStrictlySortedBy dot_cmp dots.new.items }
    ensures ok { OnOk result ((d : Dot) → among dot_cmp dots.new.items d ≡ (among dot_cmp dots.old.items d || dot_eq dot d)) }
    ensures err { OnErr result (dots.new.items ≡ dots.old.items) }
    ensures fresh { OnErr result (among dot_cmp dots.old.items dot ≡ false) }
{
    match dots.binary_search(&dot) {
        Ok(_) => Ok(()),
        Err(at) => Ok(dots.insert(at, dot)?),
    }
}
