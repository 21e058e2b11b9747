//! Functions that are joined under a key.

ghost use Rattle.std.specs.Prelude.{◌≡◌, [], IfOk};
ghost use Rattle.sup_causal.specs.declared.dot.Dot.{Dot as DotValue};
ghost use Rattle.sup_dot_store.specs.ByDot.{at_dot};
ghost use Rattle.sup_dot_store.specs.Contents.{values_of};
ghost use Rattle.sup_dot_store.specs.Index.{value_under};
ghost use Rattle.sup_indexed.specs.Joined.{AreKnownUnder, IsJoinedUnder};

use std::alloc::{AllocError, Global};
use std::collections::BTreeMap;
use sup_causal::CausalContext;
use sup_dot_store::{DotFun, DotStore};
use sup_specs::Plain;

// The join of the functions under a key. An `Err` is want of memory.
pub(crate) fn joined_under<K: Plain, V: Plain>(
    alloc: Global,
    stores: &BTreeMap<K, DotFun<V>>,
    mine: &CausalContext,
    other: &BTreeMap<K, DotFun<V>>,
    theirs: &CausalContext,
    key: &K,
) -> Result<DotFun<V>, AllocError>
    requires mine { AreKnownUnder K.cmp stores.now mine.now key.now }
    requires theirs { AreKnownUnder K.cmp other.now theirs.now key.now }
    ensures { IfOk result (IsJoinedUnder K.cmp V.cmp mine.now stores.now theirs.now other.now key.now) }
{
    let nothing = DotFun::new(alloc);
    let here = function_in(stores, key, &nothing);
    let there = function_in(other, key, &nothing);
    here.joined_under(alloc, mine, there, theirs)
}

// The function under a key, or one without a value.
pub(crate) fn function_in<'a, K: Plain, V: Plain>(
    stores: &'a BTreeMap<K, DotFun<V>>,
    key: &K,
    nothing: &'a DotFun<V>,
) -> &'a DotFun<V>
    requires { (values_of nothing.now).entries ≡ [] }
    ensures { (d : DotValue) → at_dot (values_of result.now) d ≡ value_under K.cmp stores.now key.now d }
{
    match stores.get(key) {
        Some(function) => function,
        None => nothing,
    }
}
