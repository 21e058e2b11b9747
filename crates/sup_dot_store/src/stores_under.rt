//! Two maps of stores, joined and compared key by key under their contexts.

ghost use Rattle.std.specs.Prelude.{◌≡◌};
ghost use Rattle.sup_causal.specs.declared.dot.Dot.{Dot as DotValue};
ghost use Rattle.sup_dot_store.specs.Points.{AreJoinedRows, AreRowsBelow, ContextCovers, IsWithinContext};
ghost use Rattle.sup_dot_store.specs.Places.{optional_held, HasRowIfSome};

use crate::dot_store::DotStore;
use std::alloc::{AllocError, Global};
use sup_causal::{Below, CausalContext, Merge};

/// The contexts of two maps that are joined or compared. A key that a map lacks has the empty store.
#[derive(Drop)]
pub struct StoresUnder<'a> {
    pub alloc: Global,
    pub mine: &'a CausalContext,
    pub theirs: &'a CausalContext,
}

// The store, where it has a row.
fn kept<S: DotStore>(store: S) -> Option<S>
    ensures same { (d : DotValue) (p : S.Place) → optional_held S.held result d p ≡ S.held store d p }
    ensures has_row { HasRowIfSome S.held result }
{
    if store.is_empty() { None } else { Some(store) }
}

impl<'a, K, S: DotStore> Merge<K, S> for StoresUnder<'a> {
    ghost can_merge = { λ s _ l r. ContextCovers s.mine.now (optional_held S.held l) × ContextCovers s.theirs.now (optional_held S.held r) };

    ghost gives = { λ s _ l r o. AreJoinedRows S.lesser s.mine.now (optional_held S.held l) s.theirs.now (optional_held S.held r) (optional_held S.held o) × HasRowIfSome S.held o };

    fn merge<'b>(
        &self,
        alloc: Global,
        _key: &K,
        left: Option<&'b S>,
        right: Option<&'b S>,
    ) -> Result<Option<S>, AllocError> {
        match (left, right) {
            (Some(left), Some(right)) => {
                let joined = left.joined_under(alloc, self.mine, right, self.theirs)?;
                Ok(kept(joined))
            }
            (Some(left), None) => {
                let nothing = S::empty(alloc);
                let joined = left.joined_under(alloc, self.mine, &nothing, self.theirs)?;
                Ok(kept(joined))
            }
            (None, Some(right)) => {
                let nothing = S::empty(alloc);
                let joined = nothing.joined_under(alloc, self.mine, right, self.theirs)?;
                Ok(kept(joined))
            }
            (None, None) => Ok(None),
        }
    }
}

impl<'a, K, S: DotStore> Below<K, S> for StoresUnder<'a> {
    ghost can_compare = { λ s _ l r. ContextCovers s.mine.now (optional_held S.held l) × ContextCovers s.theirs.now (optional_held S.held r) × IsWithinContext s.mine.now s.theirs.now };

    ghost is_below = { λ s _ l r. AreRowsBelow S.lesser s.mine.now (optional_held S.held l) s.theirs.now (optional_held S.held r) };

    fn below<'b>(&self, _key: &K, left: Option<&'b S>, right: Option<&'b S>) -> bool {
        match (left, right) {
            (Some(left), Some(right)) => left.leq_under(self.mine, right, self.theirs),
            (Some(left), None) => {
                let nothing = S::empty(self.alloc);
                left.leq_under(self.mine, &nothing, self.theirs)
            }
            (None, Some(right)) => {
                let nothing = S::empty(self.alloc);
                nothing.leq_under(self.mine, right, self.theirs)
            }
            (None, None) => true,
        }
    }
}

/// A context that is to have the dots of a map's stores.
#[derive(Drop)]
pub struct StoresIn<'a> {
    pub context: &'a CausalContext,
}

impl<'a, K, S: DotStore> Below<K, S> for StoresIn<'a> {
    ghost is_below = { λ s _ l _. ContextCovers s.context.now (optional_held S.held l) };

    fn below<'b>(&self, _key: &K, left: Option<&'b S>, _right: Option<&'b S>) -> bool {
        match left {
            Some(left) => left.covered_by(self.context),
            None => true,
        }
    }
}
