//! Stores under keys.

ghost use Rattle.std.specs.Prelude.{◌≡◌, true, false, Some, None, IfOk, [], ◌∷◌, if◌then◌else◌};
ghost use Rattle.std.specs.Option.{option_copied};
ghost use Rattle.std.proofs.Props.{props};
ghost use Rattle.std.specs.BTreeMap.{get, IsOrdered};
ghost use Rattle.sup_specs.specs.Rising.{among};
ghost use Rattle.sup_causal.specs.declared.dot.Dot.{Dot as DotValue};
ghost use Rattle.sup_causal.specs.Dots.{dot_cmp};
ghost use Rattle.sup_dot_store.specs.Places.{optional_held, HasRow};

use crate::dot_fun::DotFun;
use crate::dot_store::DotStore;
use crate::row_lists::{copied_rows, count_rows};
use crate::row_runs::functions_of;
use crate::stores_under::{StoresIn, StoresUnder};
use std::alloc::{AllocError, Global};
use std::collections::BTreeMap;
use sup_causal::{CausalContext, Dot, all_below, keys_rise, merge_maps};
use sup_specs::Plain;

/// Stores under keys, each with a row: a store that loses its last row goes with its key.
/// A place is a key and a place of its store.
#[derive(Drop)]
pub struct DotMap<K: Plain, S: DotStore> {
    alloc: Global,
    stores: BTreeMap<K, S>,
    // The keys rise. Every map's keys do; here it is said, so that a proof knows it of a map inside other values.
    pub ghost ordered: { IsOrdered K.cmp stores } by { Prim.hlevel props },
    pub ghost none_empty: { (k : K) (s : S) → get K.cmp stores k ≡ Some s → HasRow (S.held s) },
}

impl<K: Plain, S: DotStore> DotMap<K, S> {
    ghost use Rattle.sup_dot_store.specs.Contents.{stores_of};
    ghost use Rattle.sup_dot_store.specs.Places.{NoneEmpty};

    /// No stores.
    pub fn new(alloc: Global) -> Self
        ensures { (stores_of result).entries ≡ [] }
    {
        let stores = BTreeMap::new(alloc);
        DotMap { alloc, stores }
    }

    /// One store with a row (`is_empty` tells), under one key. An `Err` is want of memory.
    pub fn single(alloc: Global, key: K, store: S) -> Result<Self, AllocError>
        requires { HasRow (S.held store) }
        ensures { IfOk result (λ m. (stores_of m).entries ≡ (key, store) ∷ []) }
    {
        let mut stores = BTreeMap::new(alloc);
        stores.insert(key, store)?;
        Ok(DotMap { alloc, stores })
    }

    /// The map of these stores, each with a row.
    pub fn of_stores(alloc: Global, stores: BTreeMap<K, S>) -> Self
        requires { NoneEmpty S.held K.cmp stores }
        ensures { stores_of result ≡ stores }
    {
        // For its clause alone: the keys rise.
        keys_rise(&stores);
        DotMap { alloc, stores }
    }

    /// The stores, by key, each with a row.
    pub fn into_stores(self) -> BTreeMap<K, S>
        ensures stores { result ≡ stores_of self }
        ensures ordered { IsOrdered K.cmp result }
        ensures none_empty { NoneEmpty S.held K.cmp result }
    {
        self.stores
    }

    /// The store under the key. None where no row stands there.
    pub fn get(&self, key: &K) -> Option<&S>
        ensures { option_copied result ≡ get K.cmp (stores_of self.now) key.now }
    {
        self.stores.get(key)
    }

    /// The stores, by key: as a list they stand in the order of the keys.
    pub fn stores(&self) -> &BTreeMap<K, S>
        ensures { result.now ≡ stores_of self.now }
    {
        &self.stores
    }
}

impl<K: Plain, V: Plain> DotMap<K, DotFun<V>> {
    ghost use Rattle.std.specs.Prelude.{◌^◌, ◌-◌, min, length};
    ghost use Rattle.std.specs.List.Sorted.{IsStrictlySortedBy};
    ghost use Rattle.sup_dot_store.specs.Contents.{stores_of};
    ghost use Rattle.sup_dot_store.specs.RowLists.{rows_of, row_cmp};
    ghost use Rattle.sup_dot_store.specs.Index.{AreRowsOf};

    /// The map with these rows, each a key, a dot and a value, which rise by key and under one key by dot.
    /// An `Err` is want of memory.
    pub fn of_rows(alloc: Global, rows: Vec<(K, Dot, V)>) -> Result<Self, AllocError>
        requires { IsStrictlySortedBy (row_cmp K.cmp) rows.items }
        ensures { IfOk result (λ m. rows_of (stores_of m).entries ≡ rows.items) }
    {
        let stores = functions_of(alloc, rows)?;
        // For its clause alone: the keys rise.
        keys_rise(&stores);
        Ok(DotMap { alloc, stores })
    }

    /// Copies of the rows, each a key, a dot and a value: by key, and under one key by dot.
    /// An `Err` is want of memory.
    pub fn rows(&self) -> Result<Vec<(K, Dot, V)>, AllocError>
        ensures rows { IfOk result (λ rows. rows.items ≡ rows_of (stores_of self.now).entries) }
        ensures rising { IfOk result (λ rows. IsStrictlySortedBy (row_cmp K.cmp) rows.items) }
        ensures values { IfOk result (λ rows. AreRowsOf K.cmp rows.items (stores_of self.now)) }
    {
        let rows = copied_rows(self.alloc, &self.stores)?;
        Ok(rows)
    }

    /// How many rows there are. `usize::MAX` also stands for more.
    pub fn row_count(&self) -> usize
        ensures { result ≡ min (length (rows_of (stores_of self.now).entries)) (2 ^ 64 - 1) }
    {
        count_rows(&self.stores)
    }
}

impl<K: Plain, S: DotStore> DotStore for DotMap<K, S> {
    ghost use Rattle.sup_dot_store.specs.Contents.{stores_of};

    ghost Place = { K × S.Place };

    ghost Value = { λ place. S.Value place.1 };

    ghost lesser = { λ place. S.lesser place.1 };

    ghost held = { λ m d place. optional_held S.held (get K.cmp (stores_of m) place.0) d place.1 };

    ghost lesser_laws = { λ place. S.lesser_laws place.1 };

    fn empty(alloc: Global) -> Self {
        DotMap::new(alloc)
    }

    // No empty store is kept, so the map alone tells.
    fn is_empty(&self) -> bool {
        self.stores.is_empty()
    }

    fn covered_by(&self, context: &CausalContext) -> bool {
        all_below(&self.stores, &self.stores, &StoresIn { context })
    }

    fn joined_under(
        &self,
        alloc: Global,
        mine: &CausalContext,
        other: &Self,
        theirs: &CausalContext,
    ) -> Result<Self, AllocError> {
        let by = StoresUnder {
            alloc,
            mine,
            theirs,
        };
        let stores = merge_maps(alloc, &self.stores, &other.stores, &by)?;
        Ok(DotMap {
            alloc: self.alloc,
            stores,
        })
    }

    fn leq_under(&self, mine: &CausalContext, other: &Self, theirs: &CausalContext) -> bool {
        let by = StoresUnder {
            alloc: self.alloc,
            mine,
            theirs,
        };
        all_below(&self.stores, &other.stores, &by)
    }

    fn retract(&mut self, dots: &[Dot]) {
        self.stores.retain(|_, store| retract_and_test(store, dots));
    }
}

// Takes rows away, and answers whether one is left.
fn retract_and_test<S: DotStore>(store: &mut S, dots: &[Dot]) -> bool
    ensures taken { (d : DotValue) (p : S.Place) → S.held store.new d p ≡ (if among dot_cmp dots.now d then None else S.held store.old d p) }
    ensures kept { result ≡ true → HasRow (S.held store.new) }
    ensures dropped { result ≡ false → (d : DotValue) (p : S.Place) → S.held store.new d p ≡ None }
{
    store.retract(dots);
    !store.is_empty()
}
