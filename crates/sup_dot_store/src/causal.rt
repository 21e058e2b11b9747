//! A store with the context that covers it.

ghost use Rattle.std.specs.Prelude.{◌≡◌, ◌↔◌, Bool, false, ◌||◌, None, IsTrue, IfOk, OnErr, IsOk};
ghost use Rattle.sup_causal.specs.declared.dot.Dot.{Dot as DotValue};
ghost use Rattle.sup_causal.specs.Dots.{has};
ghost use Rattle.sup_dot_store.specs.Points.{Standing, standing, points_join, points_laws, ContextCovers};
ghost use Rattle.sup_causal.specs.Join.{pair_join, pair_laws, pointwise_join, pointwise_laws, or_laws};

use crate::dot_store::DotStore;
use std::alloc::{AllocError, Global};
use sup_causal::{CausalContext, Lattice};
use thiserror::Error;

/// A state: a store with a context that has all its dots. It may have more: the dots of rows that are gone.
///
/// As a lattice a state is what it knows: its context, and at each dot and place whether the dot is unknown, a value
/// is present, or it is gone (Almeida, Shoker, Baquero 2018). The laws hold for every store.
#[derive(Drop)]
pub struct Causal<S: DotStore> {
    store: S,
    context: CausalContext,
    pub ghost covered: { ContextCovers context (S.held store) },
}

/// A store has a row whose dot the context lacks.
#[derive(Clone, Copy, Debug, PartialEq, Eq, Error)]
#[error("a row's dot is not in the context")]
pub struct NotCovered;

impl<S: DotStore> Causal<S> {
    ghost use Rattle.sup_dot_store.specs.Contents.{store_of, context_of};

    /// The store under a context that has all its dots.
    pub fn new(store: S, context: CausalContext) -> Self
        requires { ContextCovers context (S.held store) }
        ensures store { store_of result ≡ store }
        ensures context { context_of result ≡ context }
    {
        Causal { store, context }
    }

    /// The store under the context. `NotCovered` exactly where the context lacks the dot of a row.
    pub fn of(store: S, context: CausalContext) -> Result<Self, NotCovered>
        ensures covered { IsOk result ↔ ContextCovers context (S.held store) }
        ensures store { IfOk result (λ c. store_of c ≡ store) }
        ensures context { IfOk result (λ c. context_of c ≡ context) }
    {
        if store.covered_by(&context) {
            Ok(Causal { store, context })
        } else {
            Err(NotCovered)
        }
    }

    /// No rows under no dots.
    pub fn bottom(alloc: Global) -> Self
        ensures context { (d : DotValue) → has (context_of result) d ≡ false }
        ensures store { (d : DotValue) (p : S.Place) → S.held (store_of result) d p ≡ None }
    {
        Causal {
            store: S::empty(alloc),
            context: CausalContext::empty(alloc),
        }
    }

    /// The store and the context that covers it.
    pub fn into_parts(self) -> (S, CausalContext)
        ensures store { result.0 ≡ store_of self }
        ensures context { result.1 ≡ context_of self }
        ensures covered { ContextCovers result.1 (S.held result.0) }
    {
        let Causal { store, context } = self;
        (store, context)
    }

    /// The rows.
    pub fn store(&self) -> &S
        ensures { result.now ≡ store_of self.now }
    {
        &self.store
    }

    /// The dots that are known.
    pub fn context(&self) -> &CausalContext
        ensures { result.now ≡ context_of self.now }
    {
        &self.context
    }
}

impl<S: DotStore> Lattice for Causal<S> {
    ghost use Rattle.sup_dot_store.specs.Contents.{store_of, context_of};

    ghost Meaning = { (DotValue → Bool) × (DotValue → (p : S.Place) → Standing (S.Value p)) };

    ghost meaning = { λ c. (has (context_of c), λ d p. standing (has (context_of c) d) (S.held (store_of c) d p)) };

    ghost join = { pair_join (pointwise_join (λ a b. a || b)) (pointwise_join (points_join S.lesser)) };

    ghost laws = { pair_laws (pointwise_laws or_laws) (pointwise_laws (points_laws S.lesser_laws)) };

    /// What both know together. An `Err` is want of memory.
    fn joined(&self, alloc: Global, other: &Self) -> Result<Self, AllocError> {
        let context = self.context.joined(alloc, &other.context)?;
        let store = self
            .store
            .joined_under(alloc, &self.context, &other.store, &other.context)?;
        Ok(Causal { store, context })
    }

    /// Whether the other knows all that this one knows.
    fn leq(&self, other: &Self) -> bool {
        self.context.leq(&other.context)
            && self
                .store
                .leq_under(&self.context, &other.store, &other.context)
    }
}
