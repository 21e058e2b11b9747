//! Two maps merged key by key.

ghost use Rattle.std.specs.Prelude.{◌≡◌, Option, None, IfOk, OnOk};
ghost use Rattle.std.specs.Option.{option_copied};
ghost use Rattle.std.specs.BTreeMap.{get, IsOrdered};
ghost use Rattle.sup_causal.specs.Merge.{IsMerge, PutsMerge, last_at};

pub mod peeked;
pub mod walk;

use crate::merge::walk::KeyByKey;
use std::alloc::{AllocError, Global};
use std::collections::BTreeMap;
use sup_specs::Plain;

/// How what two maps have at a key is merged.
pub trait Merge<K, V> {
    // Holds of a key and what the two maps have there, where a merge is asked for.
    ghost can_merge: { Self → K → Option V → Option V → Type 0 } = { λ _ _ _ _. Unit {0} };

    // Holds of a key, what the two maps have there, and what their merge may have.
    ghost gives: { Self → K → Option V → Option V → Option V → Type 0 };

    /// What the merge has at the key, where one of the maps has it. Refused only for memory.
    fn merge<'a>(
        &self,
        alloc: Global,
        key: &K,
        left: Option<&'a V>,
        right: Option<&'a V>,
    ) -> Result<Option<V>, AllocError>
        requires { can_merge self.now key.now (option_copied left) (option_copied right) }
        ensures { IfOk result (λ r. gives self.now key.now (option_copied left.entry) (option_copied right.entry) r) };
}

/// The merge of two maps, key by key. A key that neither has is not there. Refused only for memory.
pub fn merge_maps<K: Plain, V: Drop, M: Merge<K, V>>(
    alloc: Global,
    left: &BTreeMap<K, V>,
    right: &BTreeMap<K, V>,
    by: &M,
) -> Result<BTreeMap<K, V>, AllocError>
    requires { (q : K) → M.can_merge by.now q (get K.cmp left.now q) (get K.cmp right.now q) }
    ensures merged { IfOk result (λ out. IsMerge (M.gives by.now) (get K.cmp left.now) (get K.cmp right.now) (get K.cmp out)) }
    ensures ordered { IfOk result (IsOrdered K.cmp) }
{
    let pairs = merged_pairs(alloc, left, right, by)?;
    let out = pairs.into_iter().collect(alloc)?;
    Ok(out)
}

// The keys that the merge has, in their order, each with its value: of such a list a map is built in one pass, in full nodes.
fn merged_pairs<K: Plain, V: Drop, M: Merge<K, V>>(
    alloc: Global,
    left: &BTreeMap<K, V>,
    right: &BTreeMap<K, V>,
    by: &M,
) -> Result<Vec<(K, V)>, AllocError>
    requires { (q : K) → M.can_merge by.now q (get K.cmp left.now q) (get K.cmp right.now q) }
    ensures { IfOk result (λ pairs. IsMerge (M.gives by.now) (get K.cmp left.now) (get K.cmp right.now) (last_at K.cmp pairs.items)) }
{
    let room = left.len().saturating_add(right.len());
    let mut pairs = Vec::with_capacity(alloc, room)?;
    for (key, left_value, right_value) in KeyByKey::new(left, right) {
        let merged = by.merge(alloc, key, left_value, right_value)?;
        push_merge(alloc, &mut pairs, key, merged)?;
    }
    Ok(pairs)
}

/// The keys of a map rise.
pub fn keys_rise<K: Ord, V>(map: &BTreeMap<K, V>)
    ensures { IsOrdered K.cmp map.now }
{
    let _count = map.len();
}

// Pushes what the merge has at a key that is not there yet.
fn push_merge<K: Plain, V: Drop>(
    alloc: Global,
    pairs: &mut Vec<(K, V)>,
    key: &K,
    merged: Option<V>,
) -> Result<(), AllocError>
    requires { last_at K.cmp pairs.old.items key.now ≡ None }
    ensures { OnOk result (PutsMerge K.cmp key.now merged pairs.old.items pairs.new.items) }
{
    if let Some(value) = merged {
        pairs.push((key.try_clone(alloc)?, value))?;
    }
    Ok(())
}
