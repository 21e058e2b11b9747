//! Joins that are planned beside a map: the functions that it is to get.

ghost use Rattle.std.specs.Prelude.{◌≡◌, IfSome, IfOk};
ghost use Rattle.std.specs.BTreeMap.{IsOrdered};
ghost use Rattle.sup_causal.specs.Dots.{has};
ghost use Rattle.sup_indexed.specs.Joined.{AreKnown, ChangesToJoin, IsJoinPlan};
ghost use Rattle.sup_indexed.specs.Listed.{stands, ListsAll, HasKeys, HasKnownKeys};

use crate::differing::walked;
use crate::indexed_map::IndexedMap;
use crate::joining::joined_under;
use crate::place::Place;
use crate::touched::{push_keys, touched};
use std::alloc::{AllocError, Global};
use std::collections::{BTreeMap, BTreeSet};
use sup_causal::{CausalContext, keys_rise};
use sup_dot_store::DotFun;
use sup_specs::Plain;

/// Which keys a plan of a join looks at. Each gives a plan of the same join.
#[derive(Clone, Copy, Debug, PartialEq, Eq)]
pub enum Looks {
    /// At those that the other map has, and at those here under which a value has a dot that its context has: cheap where
    /// these are few. Where there is no index here, at all keys of both.
    AtTouched,
    /// At all keys of both, in one pass: cheap where they have most in common. Of a key under which both have the same one
    /// value nothing is planned.
    AtAll,
}

/// The functions that a map gets by a join, by key. It borrows nothing.
#[derive(Drop)]
pub struct PlannedMap<K: Plain, V: Plain> {
    pub(crate) changed: BTreeMap<K, DotFun<V>>,
}

impl<K: Plain, V: Plain> PlannedMap<K, V> {
    ghost use Rattle.sup_indexed.specs.Contents.{functions_planned};

    /// The functions, by key: as a list they stand in the order of the keys. One may have no value, and one may be the same as
    /// stands under its key.
    pub fn functions(&self) -> &BTreeMap<K, DotFun<V>>
        ensures functions { result.now ≡ functions_planned self.now }
        ensures ordered { IsOrdered K.cmp result.now }
    {
        // For its clause alone: the keys rise.
        keys_rise(&self.changed);
        &self.changed
    }
}

impl<K: Plain, V: Plain> IndexedMap<K, V> {
    ghost use Rattle.sup_indexed.specs.Contents.{functions_of};

    /// The functions that a join gives, where it may change one, found as `looks` says. Nothing changes. An `Err` is want of
    /// memory.
    pub fn plan_with(
        &self,
        alloc: Global,
        mine: &CausalContext,
        other: &Self,
        theirs: &CausalContext,
        looks: Looks,
    ) -> Result<PlannedMap<K, V>, AllocError>
        requires mine { AreKnown K.cmp (functions_of self.now) mine.now }
        requires theirs { AreKnown K.cmp (functions_of other.now) theirs.now }
        ensures { IfOk result (IsJoinPlan K.cmp V.cmp mine.now (functions_of self.now) theirs.now (functions_of other.now)) }
    {
        let (here, there) = (&self.stores, &other.stores);
        let changed = match looks {
            Looks::AtTouched => planned(alloc, &self.index, here, mine, there, theirs)?,
            Looks::AtAll => walked(alloc, here, mine, there, theirs)?,
        };
        Ok(PlannedMap { changed })
    }
}

// The keys under which a join may change something. Without an index all keys are named.
fn keys_to_join<K: Plain, V: Plain>(
    alloc: Global,
    index: &Option<BTreeSet<Place<K>>>,
    stores: &BTreeMap<K, DotFun<V>>,
    other: &BTreeMap<K, DotFun<V>>,
    theirs: &CausalContext,
) -> Result<Vec<K>, AllocError>
    requires { IfSome index.now (λ places. ListsAll K.cmp places stores.now) }
    ensures there { IfOk result (λ keys. HasKeys K.cmp (stands K.cmp other.now) keys.items) }
    ensures here { IfOk result (λ keys. HasKnownKeys K.cmp (stands K.cmp stores.now) (has theirs.now) keys.items) }
{
    match index {
        Some(places) => touched(alloc, places, other, theirs),
        None => all_keys(alloc, stores, other),
    }
}

// The keys of both maps.
fn all_keys<K: Plain, V: Plain>(
    alloc: Global,
    stores: &BTreeMap<K, DotFun<V>>,
    other: &BTreeMap<K, DotFun<V>>,
) -> Result<Vec<K>, AllocError>
    ensures there { IfOk result (λ keys. HasKeys K.cmp (stands K.cmp other.now) keys.items) }
    ensures here { IfOk result (λ keys. HasKeys K.cmp (stands K.cmp stores.now) keys.items) }
{
    let mut keys = Vec::new(alloc);
    push_keys(alloc, &mut keys, stores)?;
    push_keys(alloc, &mut keys, other)?;
    Ok(keys)
}

// The functions that a join gives, where it may change one. An `Err` is want of memory.
fn planned<K: Plain, V: Plain>(
    alloc: Global,
    index: &Option<BTreeSet<Place<K>>>,
    stores: &BTreeMap<K, DotFun<V>>,
    mine: &CausalContext,
    other: &BTreeMap<K, DotFun<V>>,
    theirs: &CausalContext,
) -> Result<BTreeMap<K, DotFun<V>>, AllocError>
    requires mine { AreKnown K.cmp stores.now mine.now }
    requires theirs { AreKnown K.cmp other.now theirs.now }
    requires lists { IfSome index.now (λ places. ListsAll K.cmp places stores.now) }
    ensures { IfOk result (ChangesToJoin K.cmp V.cmp mine.now stores.now theirs.now other.now) }
{
    let mut changed = BTreeMap::new(alloc);
    for key in keys_to_join(alloc, index, stores, other, theirs)? {
        if changed.contains_key(&key) {
            continue;
        }
        let function = joined_under(alloc, stores, mine, other, theirs, &key)?;
        changed.insert(key, function)?;
    }
    Ok(changed)
}
