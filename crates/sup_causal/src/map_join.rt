//! Maps to a lattice, joined key by key.

ghost use Rattle.std.specs.Prelude.{◌≡◌, Option, Some, None, cond, OnOk, OnErr};
ghost use Rattle.std.specs.Option.{option_copied, option_map};
ghost use Rattle.std.specs.Ordering.{eq_by_cmp};
ghost use Rattle.std.specs.BTreeMap.{get};
ghost use Rattle.sup_causal.specs.Join.{pointwise_join, pointwise_laws, optional_join, optional_laws};

use crate::below::{Below, all_below};
use crate::lattice::Lattice;
use crate::merge::{Merge, merge_maps};
use std::alloc::{AllocError, Global};
use std::collections::BTreeMap;
use sup_specs::Plain;

/// A map to a lattice, joined key by key. An absent key is below every value, and the map means what its keys' values
/// mean.
#[derive(Drop)]
pub struct MapJoin<K: Plain, L: Lattice> {
    pub map: BTreeMap<K, L>,
}

impl<K: Plain, L: Lattice> MapJoin<K, L> {
    /// The map with no key. It takes no memory.
    pub fn new(alloc: Global) -> Self
        ensures { (k : K) → get K.cmp result.map k ≡ None }
    {
        MapJoin {
            map: BTreeMap::new(alloc),
        }
    }

    /// Puts a value at a key, in place of the one that was there. Where memory is refused the map stays as it was.
    pub fn insert(&mut self, key: K, value: L) -> Result<(), AllocError>
        ensures ok { OnOk result ((k : K) → get K.cmp self.new.map k ≡ cond (eq_by_cmp K.cmp key k) (Some value) (get K.cmp self.old.map k)) }
        ensures err { OnErr result ((k : K) → get K.cmp self.new.map k ≡ get K.cmp self.old.map k) }
    {
        self.map.insert(key, value)?;
        Ok(())
    }

    /// The value at a key.
    pub fn get(&self, key: &K) -> Option<&L>
        ensures { option_copied result ≡ get K.cmp self.now.map key.now }
    {
        self.map.get(key)
    }
}

// What two values of a key join to.
struct JoinValues;

impl<K, L: Lattice> Merge<K, L> for JoinValues {
    ghost gives = { λ _ _ l r o. option_map L.meaning o ≡ optional_join L.join (option_map L.meaning l) (option_map L.meaning r) };

    fn merge<'a>(
        &self,
        alloc: Global,
        _key: &K,
        left: Option<&'a L>,
        right: Option<&'a L>,
    ) -> Result<Option<L>, AllocError> {
        match (left, right) {
            (Some(left), Some(right)) => Ok(Some(left.joined(alloc, right)?)),
            // A value joined with itself is that value.
            (Some(left), None) => Ok(Some(left.joined(alloc, left)?)),
            (None, Some(right)) => Ok(Some(right.joined(alloc, right)?)),
            (None, None) => Ok(None),
        }
    }
}

impl<K, L: Lattice> Below<K, L> for JoinValues {
    ghost is_below = { λ _ _ l r. optional_join L.join (option_map L.meaning l) (option_map L.meaning r) ≡ option_map L.meaning r };

    fn below<'a>(&self, _key: &K, left: Option<&'a L>, right: Option<&'a L>) -> bool {
        match (left, right) {
            (Some(left), Some(right)) => left.leq(right),
            (Some(_), None) => false,
            (None, _) => true,
        }
    }
}

impl<K: Plain, L: Lattice> Lattice for MapJoin<K, L> {
    ghost Meaning = { K → Option L.Meaning };

    ghost meaning = { λ m k. option_map L.meaning (get K.cmp m.map k) };

    ghost join = { pointwise_join (optional_join L.join) };

    ghost laws = { pointwise_laws (optional_laws L.laws) };

    /// The map with the keys of both, each with the join of its values. Refused only for memory.
    fn joined(&self, alloc: Global, other: &Self) -> Result<Self, AllocError> {
        Ok(MapJoin {
            map: merge_maps(alloc, &self.map, &other.map, &JoinValues)?,
        })
    }

    /// Whether each key's value is below the other map's.
    fn leq(&self, other: &Self) -> bool {
        all_below(&self.map, &other.map, &JoinValues)
    }
}
