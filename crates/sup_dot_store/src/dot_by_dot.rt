//! Short values of two functions, merged and compared dot by dot, in one pass over both.

ghost use Rattle.std.specs.Prelude.{◌≡◌, ◌↔◌, cond, None, IsTrue, IfOk, OnOk};
ghost use Rattle.sup_causal.specs.declared.dot.Dot.{Dot as DotValue};
ghost use Rattle.sup_causal.specs.Dots.{dot_eq};
ghost use Rattle.sup_causal.specs.Merge.{IsMergeAt, IsBelowAt};
ghost use Rattle.sup_dot_store.specs.ByDot.{at_dot, DotsRise};

pub(crate) mod walk;

use crate::dot_by_dot::walk::DotByDot;
use crate::short_values::ShortValues;
use std::alloc::{AllocError, Global};
use sup_causal::{Below, Dot, Merge};

// The merge of the values of two functions. A dot that neither has is not there. Refused only for memory.
pub(crate) fn merge_values<V: Drop, M: Merge<Dot, V>>(
    alloc: Global,
    left: &ShortValues<V>,
    right: &ShortValues<V>,
    by: &M,
) -> Result<ShortValues<V>, AllocError>
    requires { (q : DotValue) → M.can_merge by.now q (at_dot left.now q) (at_dot right.now q) }
    ensures merged { IfOk result (λ out. (q : DotValue) → IsMergeAt (M.gives by.now q) (at_dot left.now q) (at_dot right.now q) (at_dot out q)) }
    ensures ordered { IfOk result DotsRise }
{
    let room = left.len().saturating_add(right.len());
    let mut out = ShortValues::with_room(alloc, room)?;
    for (dot, left_value, right_value) in DotByDot::new(left, right) {
        let merged = by.merge(alloc, dot, left_value, right_value)?;
        put_merged(&mut out, dot, merged)?;
    }
    out.shrink();
    // For its clause alone: the dots rise.
    out.rise();
    Ok(out)
}

// Puts what the merge has at a dot that has no value yet.
fn put_merged<V: Drop>(
    out: &mut ShortValues<V>,
    dot: &Dot,
    merged: Option<V>,
) -> Result<(), AllocError>
    requires { at_dot out.old dot.now ≡ None }
    ensures { OnOk result ((q : DotValue) → at_dot out.new q ≡ cond (dot_eq dot.now q) merged (at_dot out.old q)) }
{
    if let Some(value) = merged {
        out.put(*dot, value)?;
    }
    Ok(())
}

// Whether the first function's values are below the second's at each dot that one of them has.
pub(crate) fn values_below<V, M: Below<Dot, V>>(
    left: &ShortValues<V>,
    right: &ShortValues<V>,
    by: &M,
) -> bool
    requires { (q : DotValue) → M.can_compare by.now q (at_dot left.now q) (at_dot right.now q) }
    ensures { IsTrue result ↔ ((q : DotValue) → IsBelowAt (M.is_below by.now q) (at_dot left.now q) (at_dot right.now q)) }
{
    for (dot, left_value, right_value) in DotByDot::new(left, right) {
        if !by.below(dot, left_value, right_value) {
            return false;
        }
    }
    true
}
