//! The functions of a map as they stand once a plan is carried out, lent.

ghost use Rattle.std.specs.Prelude.{◌≡◌, map, IfOk};
ghost use Rattle.std.specs.Option.{option_copied};
ghost use Rattle.std.specs.Map.{keys_of};
ghost use Rattle.std.specs.List.Sorted.{IsStrictlySortedBy};
ghost use Rattle.sup_indexed.specs.Touched.{changed_function, function_after, lent_functions, AreFunctionsAfter};

use crate::indexed_map::IndexedMap;
use crate::planning::PlannedMap;
use std::alloc::{AllocError, Global};
use std::collections::BTreeMap;
use sup_causal::KeyByKey;
use sup_dot_store::DotFun;
use sup_specs::Plain;

impl<K: Plain, V: Plain> IndexedMap<K, V> {
    ghost use Rattle.sup_indexed.specs.Contents.{functions_of, functions_planned};

    /// The function under the key once the plan is carried out. It may have no value.
    pub fn get_after<'a>(&'a self, plan: &'a PlannedMap<K, V>, key: &K) -> Option<&'a DotFun<V>>
        ensures { option_copied result ≡ changed_function K.cmp (functions_planned plan.now) (functions_of self.now) key.now }
    {
        match plan.changed.get(key) {
            Some(function) => Some(function),
            None => self.stores.get(key),
        }
    }
    /// Each key with its function, by key, as they stand once the plan is carried out. A function may have no value. One
    /// pass over all keys. An `Err` is want of memory.
    pub fn functions_after<'a>(
        &'a self,
        alloc: Global,
        plan: &'a PlannedMap<K, V>,
    ) -> Result<Vec<(&'a K, &'a DotFun<V>)>, AllocError>
        ensures rise { IfOk result (λ fs. IsStrictlySortedBy K.cmp (keys_of (lent_functions fs.items))) }
        ensures found { IfOk result (λ fs. AreFunctionsAfter K.cmp (functions_planned plan.now) (functions_of self.now) fs.items) }
    {
        functions_after(alloc, &self.stores, &plan.changed)
    }
}

// Each key with its function, by key: one pass over both maps. A function may have no value.
fn functions_after<'a, K: Plain, V: Plain>(
    alloc: Global,
    stores: &'a BTreeMap<K, DotFun<V>>,
    changed: &'a BTreeMap<K, DotFun<V>>,
) -> Result<Vec<(&'a K, &'a DotFun<V>)>, AllocError>
    ensures rise { IfOk result (λ fs. IsStrictlySortedBy K.cmp (keys_of (lent_functions fs.items))) }
    ensures found { IfOk result (λ fs. AreFunctionsAfter K.cmp changed.now stores.now fs.items) }
{
    let mut functions = Vec::new(alloc);
    for (key, old, new) in KeyByKey::new(stores, changed) {
        if let Some(function) = changed_or(new, old) {
            functions.push((key, function))?;
        }
    }
    Ok(functions)
}

// The changed function, or the old one where none is changed.
fn changed_or<'a, V: Plain>(
    new: Option<&'a DotFun<V>>,
    old: Option<&'a DotFun<V>>,
) -> Option<&'a DotFun<V>>
    ensures { option_copied result ≡ function_after (option_copied new.entry) (option_copied old.entry) }
{
    match new {
        Some(function) => Some(function),
        None => old,
    }
}
