//! Two functions from dots to values, joined and compared dot by dot under their contexts.

ghost use Rattle.std.specs.Prelude.{◌≡◌, true, IsSome};
ghost use Rattle.sup_causal.specs.Join.{lesser as lesser_of};
ghost use Rattle.sup_causal.specs.Dots.{has};
ghost use Rattle.sup_dot_store.specs.Points.{standing, higher, value_at, IsBelow};

use std::alloc::{AllocError, Global};
use sup_causal::{Below, CausalContext, Dot, Merge};
use sup_specs::Plain;

/// The contexts of two functions that are joined or compared.
#[derive(Drop)]
pub struct ValuesUnder<'a> {
    pub mine: &'a CausalContext,
    pub theirs: &'a CausalContext,
}

impl<'a, V: Plain> Merge<Dot, V> for ValuesUnder<'a> {
    ghost can_merge = { λ s d l r. (IsSome l → has s.mine.now d ≡ true) × (IsSome r → has s.theirs.now d ≡ true) };

    ghost gives = { λ s d l r o. o ≡ value_at (higher (lesser_of V.cmp) (standing (has s.mine.now d) l) (standing (has s.theirs.now d) r)) };

    // A value that one side lacks stays only where that side's context lacks its dot: else it was removed there.
    fn merge<'b>(
        &self,
        alloc: Global,
        key: &Dot,
        left: Option<&'b V>,
        right: Option<&'b V>,
    ) -> Result<Option<V>, AllocError> {
        match (left, right) {
            (Some(left), Some(right)) => {
                let value = if right < left { right } else { left };
                Ok(Some(value.try_clone(alloc)?))
            }
            (Some(left), None) => {
                if self.theirs.contains(key) {
                    Ok(None)
                } else {
                    Ok(Some(left.try_clone(alloc)?))
                }
            }
            (None, Some(right)) => {
                if self.mine.contains(key) {
                    Ok(None)
                } else {
                    Ok(Some(right.try_clone(alloc)?))
                }
            }
            (None, None) => Ok(None),
        }
    }
}

impl<'a, V: Plain> Below<Dot, V> for ValuesUnder<'a> {
    ghost can_compare = { λ s d l r. (IsSome l → has s.mine.now d ≡ true) × (IsSome r → has s.theirs.now d ≡ true) × (has s.mine.now d ≡ true → has s.theirs.now d ≡ true) };

    ghost is_below = { λ s d l r. IsBelow (lesser_of V.cmp) (has s.mine.now d) l (has s.theirs.now d) r };

    fn below<'b>(&self, key: &Dot, left: Option<&'b V>, right: Option<&'b V>) -> bool {
        match (left, right) {
            (Some(left), Some(right)) => right <= left,
            // Known here and without a value it is gone here, which is above any value there.
            (None, Some(_)) => !self.mine.contains(key),
            // Where this context has the dot the other has it, too, and so it is gone there.
            (_, None) => true,
        }
    }
}

/// A context that is to have the dots of a function.
#[derive(Drop)]
pub struct DotsIn<'a> {
    pub context: &'a CausalContext,
}

impl<'a, V> Below<Dot, V> for DotsIn<'a> {
    ghost is_below = { λ s d _ _. has s.context.now d ≡ true };

    fn below<'b>(&self, key: &Dot, _left: Option<&'b V>, _right: Option<&'b V>) -> bool {
        self.context.contains(key)
    }
}
