//! Joins of maps that have most in common, planned by one pass over both.

ghost use Rattle.std.specs.Prelude.{◌≡◌, false, Some, [], ◌∷◌, IsSome, IsTrue, IfSome, IfOk};
ghost use Rattle.std.specs.Option.{option_copied};
ghost use Rattle.sup_causal.specs.declared.dot.Dot.{Dot as DotValue};
ghost use Rattle.sup_causal.specs.Dots.{has};
ghost use Rattle.sup_dot_store.specs.ByDot.{at_dot};
ghost use Rattle.sup_dot_store.specs.Contents.{values_of};
ghost use Rattle.sup_indexed.specs.Changed.{value_in, IsKeptAt};
ghost use Rattle.sup_indexed.specs.Joined.{AreKnown, AreKnownIn, ChangesToJoin, IsChangeTo};

use crate::touching::is_same;
use std::alloc::{AllocError, Global};
use std::collections::BTreeMap;
use sup_causal::{CausalContext, Dot, Merge, merge_maps};
use sup_dot_store::{DotFun, DotStore};
use sup_specs::Plain;

// The functions that a join gives, where it may change one, by one pass over both maps. An `Err` is want of memory.
pub(crate) fn walked<K: Plain, V: Plain>(
    alloc: Global,
    here: &BTreeMap<K, DotFun<V>>,
    mine: &CausalContext,
    there: &BTreeMap<K, DotFun<V>>,
    theirs: &CausalContext,
) -> Result<BTreeMap<K, DotFun<V>>, AllocError>
    requires mine { AreKnown K.cmp here.now mine.now }
    requires theirs { AreKnown K.cmp there.now theirs.now }
    ensures { IfOk result (ChangesToJoin K.cmp V.cmp mine.now here.now theirs.now there.now) }
{
    let by = ChangesUnder { mine, theirs };
    merge_maps(alloc, here, there, &by)
}

// The contexts of two maps that are joined, of which only the functions are wanted that may change.
#[derive(Drop)]
struct ChangesUnder<'a> {
    mine: &'a CausalContext,
    theirs: &'a CausalContext,
}

impl<'a, K, V: Plain> Merge<K, DotFun<V>> for ChangesUnder<'a> {
    ghost can_merge = { λ s _ l r. AreKnownIn s.mine.now l × AreKnownIn s.theirs.now r };

    ghost gives = { λ s _ l r o. IsChangeTo V.cmp s.mine.now l s.theirs.now r o };

    fn merge<'b>(
        &self,
        alloc: Global,
        _key: &K,
        left: Option<&'b DotFun<V>>,
        right: Option<&'b DotFun<V>>,
    ) -> Result<Option<DotFun<V>>, AllocError> {
        if is_kept(left, right, self.theirs) {
            return Ok(None);
        }
        let nothing = DotFun::new(alloc);
        let here = function_or(left, &nothing);
        let there = function_or(right, &nothing);
        let joined = here.joined_under(alloc, self.mine, there, self.theirs)?;
        Ok(Some(joined))
    }
}

// The function, or one without a value where there is none.
fn function_or<'a, V: Plain>(
    function: Option<&'a DotFun<V>>,
    nothing: &'a DotFun<V>,
) -> &'a DotFun<V>
    requires { (values_of nothing.now).entries ≡ [] }
    ensures { (d : DotValue) → at_dot (values_of result.now) d ≡ value_in (option_copied function.entry) d }
{
    match function {
        Some(function) => function,
        None => nothing,
    }
}

// Where this is true, a join leaves what stands under the key as it is. It looks at functions of one value alone: false says
// nothing.
fn is_kept<V: Plain>(
    here: Option<&DotFun<V>>,
    there: Option<&DotFun<V>>,
    theirs: &CausalContext,
) -> bool
    ensures { IsTrue result → IsKeptAt theirs.now (option_copied here.entry) (option_copied there.entry) }
{
    match (here, there) {
        (Some(here), Some(there)) => have_same_value(here, there),
        (Some(here), None) => is_unknown(here, theirs),
        (None, _) => false,
    }
}

// Whether both functions have the same one value.
fn have_same_value<V: Plain>(here: &DotFun<V>, there: &DotFun<V>) -> bool
    ensures { IsTrue result → (values_of here.now).entries ≡ (values_of there.now).entries }
{
    match (only_value(here), only_value(there)) {
        (Some((dot, value)), Some((other, another))) => is_same(dot, value, other, another),
        (_, _) => false,
    }
}

// Whether the function has one value, of a dot that the context lacks.
fn is_unknown<V: Plain>(function: &DotFun<V>, context: &CausalContext) -> bool
    ensures { IsTrue result → (d : DotValue) → IsSome (value_in (Some function.now) d) → has context.now d ≡ false }
{
    match only_value(function) {
        Some((dot, _)) => !context.contains(dot),
        None => false,
    }
}

// The function's value, where it has one alone.
fn only_value<V: Plain>(function: &DotFun<V>) -> Option<(&Dot, &V)>
    ensures { IfSome result (λ e. (values_of function.now).entries ≡ (e.0.now, e.1.now) ∷ []) }
{
    if function.values().len() != 1 {
        return None;
    }
    function.first()
}
