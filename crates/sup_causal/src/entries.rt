//! The entries of a version vector.

ghost use Rattle.std.specs.Prelude.{◌≡◌, ℕ, ◌≤◌, ◌||◌, List, [], cond, IfOk, OnOk, OnErr};
ghost use Rattle.std.specs.Map.{keys_of};
ghost use Rattle.std.specs.Ordering.{eq_by_cmp};
ghost use Rattle.std.specs.List.Sorted.{IsStrictlySortedBy};
ghost use Rattle.sup_specs.specs.Values.{text_cmp};
ghost use Rattle.sup_causal.specs.Cut.{entry, in_runs};
ghost use Rattle.sup_causal.specs.Parts.{IsVersions, in_vector};

use crate::dot::Dot;
use std::alloc::AllocError;
use sup_specs::{MAX, NodeName};

// A node's entry, 0 where it has none.
pub(crate) fn entry_in(vector: &[(NodeName, u64)], node: &NodeName) -> u64
    requires { IsStrictlySortedBy text_cmp (keys_of vector.now) }
    ensures { result ≡ entry vector.now node.now }
{
    match vector.binary_search_by(|entry| entry.0.cmp(node)) {
        Ok(at) => vector[at].1,
        Err(_) => 0,
    }
}

// Gives a node the entry. Where memory is refused the vector stays as it was.
pub(crate) fn raise(
    vector: &mut Vec<(NodeName, u64)>,
    node: NodeName,
    count: u64,
) -> Result<(), AllocError>
    requires vector { IsVersions vector.old.items }
    requires low { 1 ≤ count }
    requires high { count ≤ MAX }
    ensures vector { IsVersions vector.new.items }
    ensures ok { OnOk result ((q : List ℕ) → entry vector.new.items q ≡ cond (eq_by_cmp text_cmp node q) count (entry vector.old.items q)) }
    ensures err { OnErr result (vector.new.items ≡ vector.old.items) }
{
    match vector.binary_search_by(|entry| entry.0.cmp(&node)) {
        Ok(at) => {
            vector[at] = (node, count);
            Ok(())
        }
        Err(at) => Ok(vector.insert(at, (node, count))?),
    }
}

// Gives each node the greater of its entries in both. Where memory is refused some of them may be there.
pub(crate) fn lift(
    vector: &mut Vec<(NodeName, u64)>,
    others: &[(NodeName, u64)],
) -> Result<(), AllocError>
    requires vector { IsVersions vector.old.items }
    requires others { IsVersions others.now }
    ensures vector { IsVersions vector.new.items }
    ensures dots { OnOk result ((d : Dot) → in_vector vector.new.items d ≡ (in_vector vector.old.items d || in_runs others.now d)) }
{
    for (node, entry) in others {
        if entry_in(vector, node) < *entry {
            raise(vector, *node, *entry)?;
        }
    }
    Ok(())
}
