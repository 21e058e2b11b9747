//! Causal contexts: which dots a node has seen, kept as a version vector and a dot cloud.

ghost use Rattle.std.specs.Prelude.{◌≡◌, ◌≤◌, ◌+◌, ◌||◌, ◌↔◌, length, Bool, false, true, IsTrue, Err, IfOk, IfErr, OnOk, OnErr, IfSome, IsNone};
ghost use Rattle.std.specs.Prelude.{All};
ghost use Rattle.std.specs.List.Sorted.{IsStrictlySortedBy};
ghost use Rattle.sup_specs.specs.Rising.{among};
ghost use Rattle.sup_causal.specs.Cut.{in_parts, IsVector, IsCloud, IsCanonical, IsNoCut};
ghost use Rattle.sup_causal.specs.declared.parts.PartsFault.TheVariants.{NotCanonical};
ghost use Rattle.sup_causal.specs.Dots.{has, dot_cmp, dot_eq, IsCounted, IsGreatest, IsKept, IsNext};
ghost use Rattle.sup_causal.specs.Greatest.{greatest_in};
ghost use Rattle.sup_causal.specs.Parts.{IsVersions};

mod within;

use crate::absorb::absorb;
use crate::context::within::{cloud_within, is_at_most, parts_have, runs_within};
use crate::dot::Dot;
use crate::entries::{entry_in, lift, raise};
use crate::lattice::Lattice;
use crate::parts::{PartsFault, is_canonical};
use crate::sorted_dots::{greatest_of, is_in, put, sorted, union};
use std::alloc::{AllocError, Global};
use std::marker::Model;
use sup_specs::{MAX, NodeName};

/// A set of dots (Almeida, Shoker and Baquero 2018). A contract sees its dots as a rising list, in which `has` looks for
/// one, and nothing of how they are kept. Kept are a version vector and a dot cloud alone, so no call takes more time or
/// memory where a node has more dots without a gap.
#[derive(Drop)]
pub struct CausalContext {
    // By name, the run of each node that has one.
    vector: Vec<(NodeName, u64)>,
    // In dot order, the dots beyond the runs.
    cloud: Vec<Dot>,
}

impl Model for CausalContext {
    ghost use Rattle.sup_causal.specs.Cut.{IsCanonical};
    ghost use Rattle.sup_causal.specs.Dots.{Context};
    ghost use Rattle.sup_causal.specs.Parts.{dots_of};

    ghost Value = { Context };

    ghost view = { λ c. dots_of c.vector.items c.cloud.items };

    ghost invariant = { λ c. IsCanonical c.vector.items c.cloud.items };
}

impl CausalContext {
    /// The context with no dot. It takes no memory.
    pub fn empty(alloc: Global) -> CausalContext
        ensures { (d : Dot) → has result d ≡ false }
    {
        CausalContext {
            vector: Vec::new(alloc),
            cloud: Vec::new(alloc),
        }
    }

    /// The context with the dots of a list, in whatever order they stand and however often. Each passes
    /// [`Dot::is_counted`]. Refused only for memory.
    #[tactic(auto, using(crate::proofs::Cuts::no_versions))]
    pub fn of_dots(alloc: Global, dots: &[Dot]) -> Result<CausalContext, AllocError>
        requires { All IsCounted dots.now }
        ensures { IfOk result (λ context. (d : Dot) → has context d ≡ among dot_cmp dots.now d) }
    {
        let dots = sorted(Vec::from_slice(alloc, dots)?);
        let context = absorbed(alloc, Vec::new(alloc), &dots)?;
        Ok(context)
    }

    /// The context that a version vector and a dot cloud cut: the dots 1 to n of each node with entry n, and those of
    /// the cloud. NotCanonical where no context has this [`vector`](Self::vector) and [`cloud`](Self::cloud): where
    /// an entry is 0 or above [`MAX`], a name stands twice or out of order, a dot of the cloud stands twice or out of
    /// order, or its counter is above `MAX` or not at least 2 above its node's entry. Else refused only for memory.
    pub fn from_parts(
        alloc: Global,
        vector: &[(NodeName, u64)],
        cloud: &[Dot],
    ) -> Result<CausalContext, PartsFault>
        ensures canonical { IfOk result (λ _. IsCanonical vector.now cloud.now) }
        ensures dots { IfOk result (λ context. (d : Dot) → has context d ≡ in_parts vector.now cloud.now d) }
        ensures vector { IfOk result (λ context. IsVector (has context) vector.now) }
        ensures cloud { IfOk result (λ context. IsCloud (has context) cloud.now) }
        ensures not_canonical { IfErr result (λ fault. fault ≡ NotCanonical → ¬ IsCanonical vector.now cloud.now) }
        ensures refused { ¬ IsCanonical vector.now cloud.now → result ≡ Err NotCanonical }
        ensures no_cut { IfErr result (λ fault. fault ≡ NotCanonical → IsNoCut vector.now cloud.now) }
    {
        if !is_canonical(vector, cloud) {
            return Err(PartsFault::NotCanonical);
        }
        let vector = Vec::from_slice(alloc, vector)?;
        let cloud = Vec::from_slice(alloc, cloud)?;
        Ok(CausalContext { vector, cloud })
    }

    /// The counters of a context's dots are in their limits.
    pub fn counted(&self)
        ensures { (d : Dot) → has self.now d ≡ true → IsCounted d }
    {
        // The read alone shows the prover how the dots are kept.
        let _vector = &self.vector;
    }

    /// A contract sees a context's dots as their rising list, so two contexts with the same dots are equal.
    pub fn in_order(&self)
        ensures { IsStrictlySortedBy dot_cmp self.now }
    {
        // The read alone shows the prover how the dots are kept.
        let _vector = &self.vector;
    }

    /// Whether the context has the dot.
    pub fn contains(&self, dot: &Dot) -> bool
        ensures has { result ≡ has self.now dot.now }
        ensures counted { IsTrue result → IsCounted dot.now }
    {
        parts_have(&self.vector, &self.cloud, dot)
    }

    /// Adds a dot, which passes [`Dot::is_counted`]. Refused only for memory, and only where the context lacks the dot;
    /// it stays as it was then.
    pub fn insert(&mut self, dot: Dot) -> Result<(), AllocError>
        requires { IsCounted dot }
        ensures ok { OnOk result ((d : Dot) → has self.new d ≡ (dot_eq dot d || has self.old d)) }
        ensures err { OnErr result (self.new ≡ self.old) }
        ensures fresh { OnErr result (has self.old dot ≡ false) }
    {
        let entry = entry_in(&self.vector, &dot.node);
        if dot.counter <= entry {
            return Ok(());
        }
        if dot.counter > entry + 1 {
            return Ok(put(&mut self.cloud, dot)?);
        }
        let after = Dot {
            counter: dot.counter + 1,
            node: dot.node,
        };
        if !is_in(&after, &self.cloud) {
            return Ok(raise(&mut self.vector, dot.node, dot.counter)?);
        }
        // The run now reaches the cloud.
        let alloc = *self.vector.allocator();
        let mut vector = Vec::from_slice(alloc, &self.vector)?;
        raise(&mut vector, dot.node, dot.counter)?;
        let context = absorbed(alloc, vector, &self.cloud)?;
        *self = context;
        Ok(())
    }

    /// The greatest counter of the node's dots, 0 where there is none.
    pub fn greatest(&self, node: &NodeName) -> u64
        ensures greatest { IsGreatest (has self.now) node.now result }
        ensures value { result ≡ greatest_in self.now node.now }
        ensures counted { result ≤ MAX }
    {
        let last = greatest_of(&self.cloud, node);
        last.max(entry_in(&self.vector, node))
    }

    /// The node's dot after its greatest, which the context does not have. None only where the greatest is [`MAX`].
    pub fn next(&self, node: NodeName) -> Option<Dot>
        ensures spent { IsNone result → IsGreatest (has self.now) node MAX }
        ensures counted { IfSome result IsCounted }
        ensures next { IfSome result (IsNext (has self.now) node) }
    {
        let greatest = self.greatest(&node);
        if greatest == MAX {
            return None;
        }
        Some(Dot {
            counter: greatest + 1,
            node,
        })
    }

    /// The version vector: by name, for each node the greatest n such that the context has all its dots 1 to n, and
    /// nothing where that is 0. Refused only for memory.
    pub fn vector(&self) -> Result<Vec<(NodeName, u64)>, AllocError>
        ensures { IfOk result (λ vector. IsVector (has self.now) vector.items) }
    {
        let vector = Vec::from_slice(*self.vector.allocator(), &self.vector)?;
        Ok(vector)
    }

    /// The dot cloud: in dot order, the dots above their node's entry in the vector. Refused only for memory.
    pub fn cloud(&self) -> Result<Vec<Dot>, AllocError>
        ensures { IfOk result (λ cloud. IsCloud (has self.now) cloud.items) }
    {
        let cloud = Vec::from_slice(*self.cloud.allocator(), &self.cloud)?;
        Ok(cloud)
    }

    /// Whether the context has at most so many dots. It takes no memory, and at most one look at each entry of the vector.
    pub fn has_at_most(&self, most: usize) -> bool
        ensures { IsTrue result ↔ (length self.now ≤ most) }
    {
        is_at_most(&self.vector, self.cloud.len(), most)
    }
}

impl Lattice for CausalContext {
    ghost use Rattle.std.specs.Prelude.{Bool, ◌||◌};
    ghost use Rattle.sup_causal.specs.Dots.{has};
    ghost use Rattle.sup_causal.specs.Join.{pointwise_join, pointwise_laws, or_laws};
    ghost use Rattle.sup_causal.specs.declared.dot.Dot.{Dot};

    ghost Meaning = { Dot → Bool };

    ghost meaning = { has };

    ghost join = { pointwise_join (λ a b. a || b) };

    ghost laws = { pointwise_laws or_laws };

    /// The context with the dots of both.
    fn joined(&self, alloc: Global, other: &CausalContext) -> Result<CausalContext, AllocError> {
        let mut vector = Vec::from_slice(alloc, &self.vector)?;
        lift(&mut vector, &other.vector)?;
        let dots = union(alloc, &self.cloud, &other.cloud)?;
        let context = absorbed(alloc, vector, &dots)?;
        Ok(context)
    }

    /// Takes in the other's dots. Where it brings none this takes no memory.
    fn join_from(&mut self, alloc: Global, other: &CausalContext) -> Result<(), AllocError> {
        if other.leq(self) {
            return Ok(());
        }
        let joined = self.joined(alloc, other)?;
        *self = joined;
        Ok(())
    }

    /// Whether the other context has all dots of this one.
    fn leq(&self, other: &CausalContext) -> bool {
        runs_within(&self.vector, &other.vector) && cloud_within(&self.cloud, other)
    }
}

// The context with the dots of a vector and of a list.
fn absorbed(
    alloc: Global,
    mut vector: Vec<(NodeName, u64)>,
    dots: &[Dot],
) -> Result<CausalContext, AllocError>
    requires vector { IsVersions vector.items }
    requires dots { IsKept dots.now }
    ensures { IfOk result (λ context. (d : Dot) → has context d ≡ in_parts vector.items dots.now d) }
{
    let cloud = absorb(alloc, &mut vector, dots)?;
    Ok(CausalContext { vector, cloud })
}
