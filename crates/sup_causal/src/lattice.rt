//! Join semilattices, as deltas are joined in them (Almeida, Shoker and Baquero 2018).

ghost use Rattle.std.specs.Prelude.{◌≡◌, ◌↔◌, IsTrue, IfOk, OnOk, OnErr};
ghost use Rattle.sup_causal.specs.Join.{JoinLaws};

use std::alloc::{AllocError, Global};

/// Values that can be joined, in any order and any number of times. Each has a meaning, for contracts alone: values of
/// one meaning count as equal. The join of meanings is commutative, associative and idempotent.
pub trait Lattice: Drop {
    // What a value may mean.
    ghost Meaning: { Type 0 };

    // What a value means.
    ghost meaning: { Self → Meaning };

    // The join of two meanings.
    ghost join: { Meaning → Meaning → Meaning };

    /// The join of the two. Refused only for memory, where a lattice doesn't say more.
    fn joined(&self, alloc: Global, other: &Self) -> Result<Self, AllocError>
        ensures { IfOk result (λ r. meaning r ≡ join (meaning self.now) (meaning other.now)) };

    /// Whether the other is their join already.
    fn leq(&self, other: &Self) -> bool
        ensures { IsTrue result ↔ (join (meaning self.now) (meaning other.now) ≡ meaning other.now) };

    /// Becomes the join of the two. Refused as `joined` is, and then it stays as it was.
    fn join_from(&mut self, alloc: Global, other: &Self) -> Result<(), AllocError>
        ensures ok { OnOk result (meaning self.new ≡ join (meaning self.old) (meaning other.now)) }
        ensures err { OnErr result (self.new ≡ self.old) }
    {
        let joined = self.joined(alloc, other)?;
        *self = joined;
        Ok(())
    }

    // The join is commutative, associative and idempotent.
    ghost laws: { JoinLaws join };
}
