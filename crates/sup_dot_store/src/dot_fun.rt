//! A function from dots to values.

ghost use Rattle.std.specs.Prelude.{◌≡◌, Option, Some, None, IfOk, IfSome, IfNone, [], ◌∷◌, slice_get, if◌then◌else◌};
ghost use Rattle.std.proofs.Props.{props};
ghost use Rattle.sup_specs.specs.Rising.{among};
ghost use Rattle.sup_causal.specs.declared.dot.Dot.{Dot as DotValue};
ghost use Rattle.sup_causal.specs.Join.{lesser as lesser_of, lesser_laws as laws_of_lesser};
ghost use Rattle.sup_causal.specs.Dots.{dot_cmp};
ghost use Rattle.sup_dot_store.specs.ByDot.{at_dot, DotsRise};

use crate::dot_by_dot::{merge_values, values_below};
use crate::dot_store::DotStore;
use crate::short_values::ShortValues;
use crate::values_under::{DotsIn, ValuesUnder};
use std::alloc::{AllocError, Global};
use sup_causal::{CausalContext, Dot};
use sup_specs::Plain;

/// Values under dots. A dot has one place, so at most one value.
#[derive(Drop)]
pub struct DotFun<V> {
    values: ShortValues<V>,
    // The dots rise, as in all short values; here it is said, so that a proof knows it of a function inside other values.
    pub ghost ordered: { DotsRise values } by { Prim.hlevel props },
}

impl<V: Plain> DotFun<V> {
    ghost use Rattle.sup_dot_store.specs.Contents.{values_of};

    /// No values.
    pub fn new(alloc: Global) -> Self
        ensures { (values_of result).entries ≡ [] }
    {
        let values = ShortValues::new(alloc);
        // For its clause alone: the dots rise.
        values.rise();
        DotFun { values }
    }

    /// One value under one dot. An `Err` is want of memory.
    pub fn single(alloc: Global, dot: Dot, value: V) -> Result<Self, AllocError>
        ensures { IfOk result (λ s. (values_of s).entries ≡ (dot, value) ∷ []) }
    {
        let values = ShortValues::single(alloc, dot, value)?;
        // For its clause alone: the dots rise.
        values.rise();
        Ok(DotFun { values })
    }

    // The function with these values.
    pub(crate) fn of(values: ShortValues<V>) -> Self
        ensures { values_of result ≡ values }
    {
        // For its clause alone: the dots rise.
        values.rise();
        DotFun { values }
    }

    /// The least dot and its value.
    pub fn first(&self) -> Option<(&Dot, &V)>
        ensures some { IfSome result (λ e. slice_get (values_of self.now).entries 0 ≡ Some (e.0.now, e.1.now)) }
        ensures none { IfNone result ((values_of self.now).entries ≡ []) }
    {
        self.values.first()
    }

    /// The values, by dot: as a list they stand in dot order.
    pub fn values(&self) -> &ShortValues<V>
        ensures { result.now ≡ values_of self.now }
    {
        &self.values
    }
}

impl<V: Plain> DotStore for DotFun<V> {
    ghost use Rattle.sup_dot_store.specs.Contents.{values_of};

    ghost Place = { Unit {0} };

    ghost Value = { λ _. V };

    ghost lesser = { λ _. lesser_of V.cmp };

    ghost held = { λ s d _. at_dot (values_of s) d };

    ghost lesser_laws = { λ _. laws_of_lesser V.Ord.total V.Plain.exact };

    fn empty(alloc: Global) -> Self {
        DotFun::new(alloc)
    }

    fn is_empty(&self) -> bool {
        self.values.is_empty()
    }

    fn covered_by(&self, context: &CausalContext) -> bool {
        values_below(&self.values, &self.values, &DotsIn { context })
    }

    fn joined_under(
        &self,
        alloc: Global,
        mine: &CausalContext,
        other: &Self,
        theirs: &CausalContext,
    ) -> Result<Self, AllocError> {
        let values = merge_values(
            alloc,
            &self.values,
            &other.values,
            &ValuesUnder { mine, theirs },
        )?;
        Ok(DotFun { values })
    }

    fn leq_under(&self, mine: &CausalContext, other: &Self, theirs: &CausalContext) -> bool {
        values_below(&self.values, &other.values, &ValuesUnder { mine, theirs })
    }

    fn retract(&mut self, dots: &[Dot]) {
        take_away(&mut self.values, dots);
    }
}

// Takes away what stands under the dots.
fn take_away<V: Drop>(values: &mut ShortValues<V>, dots: &[Dot])
    ensures taken { (d : DotValue) → at_dot values.new d ≡ (if among dot_cmp dots.now d then None else at_dot values.old d) }
    ensures ordered { DotsRise values.new }
{
    for dot in dots {
        values.take(dot);
    }
    // For its clause alone: the dots rise.
    values.rise();
}
