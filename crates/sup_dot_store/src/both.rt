//! Two stores side by side.

ghost use Rattle.std.specs.Prelude.{◌⊎◌};
ghost use Rattle.sup_dot_store.specs.Places.{either_value, either_lesser, either_held, either_laws};

use crate::dot_store::DotStore;
use std::alloc::{AllocError, Global};
use sup_causal::{CausalContext, Dot};

/// Two stores. A place is one of the first or one of the second.
#[derive(Drop)]
pub struct Both<A, B> {
    pub first: A,
    pub second: B,
}

impl<A: DotStore, B: DotStore> DotStore for Both<A, B> {
    ghost Place = { A.Place ⊎ B.Place };

    ghost Value = { either_value A.Value B.Value };

    ghost lesser = { either_lesser A.lesser B.lesser };

    ghost held = { λ s d. either_held (A.held s.first d) (B.held s.second d) };

    ghost lesser_laws = { either_laws A.lesser_laws B.lesser_laws };

    fn empty(alloc: Global) -> Self {
        Both {
            first: A::empty(alloc),
            second: B::empty(alloc),
        }
    }

    fn is_empty(&self) -> bool {
        self.first.is_empty() && self.second.is_empty()
    }

    fn covered_by(&self, context: &CausalContext) -> bool {
        self.first.covered_by(context) && self.second.covered_by(context)
    }

    fn joined_under(
        &self,
        alloc: Global,
        mine: &CausalContext,
        other: &Self,
        theirs: &CausalContext,
    ) -> Result<Self, AllocError> {
        let first = self.first.joined_under(alloc, mine, &other.first, theirs)?;
        let second = self
            .second
            .joined_under(alloc, mine, &other.second, theirs)?;
        Ok(Both { first, second })
    }

    fn leq_under(&self, mine: &CausalContext, other: &Self, theirs: &CausalContext) -> bool {
        self.first.leq_under(mine, &other.first, theirs)
            && self.second.leq_under(mine, &other.second, theirs)
    }

    fn retract(&mut self, dots: &[Dot]) {
        self.first.retract(dots);
        self.second.retract(dots);
    }
}
