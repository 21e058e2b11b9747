//! Which keys a planned join touches.

ghost use Rattle.std.specs.Prelude.{◌≡◌, ◌↔◌, Some, IsTrue, IfOk};
ghost use Rattle.std.specs.BTreeMap.{get};
ghost use Rattle.std.specs.List.Sorted.{IsStrictlySortedBy};
ghost use Rattle.sup_indexed.specs.Touched.{first_in, first_at, first_has, AreTouchedKeys, KeepsProperty};

use crate::indexed_map::IndexedMap;
use crate::planning::PlannedMap;
use crate::property::Property;
use std::alloc::{AllocError, Global};
use std::collections::BTreeMap;
use sup_causal::Dot;
use sup_dot_store::DotFun;
use sup_specs::Plain;

impl<K: Plain, V: Plain> IndexedMap<K, V> {
    ghost use Rattle.sup_indexed.specs.Contents.{functions_of, functions_planned};

    /// The keys whose first value, or its dot, differs once the plan is carried out, is new then or is gone: rising. An `Err` is
    /// want of memory.
    pub fn touched_by(&self, alloc: Global, plan: &PlannedMap<K, V>) -> Result<Vec<K>, AllocError>
        ensures rise { IfOk result (λ keys. IsStrictlySortedBy K.cmp keys.items) }
        ensures exact { IfOk result (λ keys. AreTouchedKeys K.cmp (functions_planned plan.now) (functions_of self.now) keys.items) }
    {
        touched_by(alloc, &self.stores, &plan.changed)
    }

    /// Whether there is a key whose first value has the property only as the map stands, or only once the plan is carried
    /// out.
    pub fn differs_in<P: Property<V>>(&self, plan: &PlannedMap<K, V>, property: &P) -> bool
        ensures { IsTrue result ↔ ¬ KeepsProperty K.cmp (P.is_held property.now) (functions_planned plan.now) (functions_of self.now) }
    {
        differs_in(&self.stores, &plan.changed, property)
    }
}

// The keys whose first value differs, is new or is gone once the functions are changed.
fn touched_by<K: Plain, V: Plain>(
    alloc: Global,
    stores: &BTreeMap<K, DotFun<V>>,
    changed: &BTreeMap<K, DotFun<V>>,
) -> Result<Vec<K>, AllocError>
    ensures rise { IfOk result (λ keys. IsStrictlySortedBy K.cmp keys.items) }
    ensures exact { IfOk result (λ keys. AreTouchedKeys K.cmp changed.now stores.now keys.items) }
{
    let mut keys = Vec::new(alloc);
    for (key, function) in changed {
        if !is_same_first(stores, key, function) {
            keys.push(key.try_clone(alloc)?)?;
        }
    }
    Ok(keys)
}

// Whether there is a key whose first value has the property only before the functions are changed, or only then.
fn differs_in<K: Plain, V: Plain, P: Property<V>>(
    stores: &BTreeMap<K, DotFun<V>>,
    changed: &BTreeMap<K, DotFun<V>>,
    property: &P,
) -> bool
    ensures { IsTrue result ↔ ¬ KeepsProperty K.cmp (P.is_held property.now) changed.now stores.now }
{
    for (key, function) in changed {
        if holds_under(stores, key, property) != holds_in(function, property) {
            return true;
        }
    }
    false
}

// Whether a value stands under the key and the first one has the property.
fn holds_under<K: Plain, V: Plain, P: Property<V>>(
    stores: &BTreeMap<K, DotFun<V>>,
    key: &K,
    property: &P,
) -> bool
    ensures { result ≡ first_has (P.is_held property.now) (first_at K.cmp stores.now key.now) }
{
    match stores.get(key) {
        Some(function) => holds_in(function, property),
        None => false,
    }
}

// Whether a function has a value and the first one has the property.
fn holds_in<V: Plain, P: Property<V>>(function: &DotFun<V>, property: &P) -> bool
    ensures { result ≡ first_has (P.is_held property.now) (first_in (Some function.now)) }
{
    match function.first() {
        Some((_, value)) => property.holds(value),
        None => false,
    }
}

// Whether a function has the first value that stands under the key, with the same dot.
fn is_same_first<K: Plain, V: Plain>(
    stores: &BTreeMap<K, DotFun<V>>,
    key: &K,
    new: &DotFun<V>,
) -> bool
    ensures { IsTrue result ↔ (first_in (Some new.now) ≡ first_at K.cmp stores.now key.now) }
{
    match stores.get(key) {
        Some(old) => is_same_value(old, new),
        None => new.first().is_none(),
    }
}

// Whether two functions have the same first value, with the same dot.
fn is_same_value<V: Plain>(old: &DotFun<V>, new: &DotFun<V>) -> bool
    ensures { IsTrue result ↔ (first_in (Some new.now) ≡ first_in (Some old.now)) }
{
    match (old.first(), new.first()) {
        (None, None) => true,
        (Some((dot, value)), Some((other, another))) => is_same(dot, value, other, another),
        (_, _) => false,
    }
}

// Whether both dots and both values are the same.
pub(crate) fn is_same<V: Plain>(dot: &Dot, value: &V, other: &Dot, another: &V) -> bool
    ensures { IsTrue result ↔ ((other.now ≡ dot.now) × (another.now ≡ value.now)) }
{
    dot.cmp(other).is_eq() && value.cmp(another).is_eq()
}
