//! Counts that only grow.

ghost use Rattle.std.specs.Prelude.{◌≡◌, ℕ, max};
ghost use Rattle.sup_causal.specs.Join.{max_laws};

use crate::lattice::Lattice;
use std::alloc::{AllocError, Global};

/// A count, whose join is the greater. It means its number.
#[derive(Clone, Copy, Debug, PartialEq, Eq)]
pub struct MaxCount {
    pub count: u64,
}

impl MaxCount {
    /// The count of a number.
    pub fn new(count: u64) -> MaxCount
        ensures { result.count ≡ count }
    {
        MaxCount { count }
    }
}

impl Lattice for MaxCount {
    ghost Meaning = { ℕ };

    ghost meaning = { λ m. m.count };

    ghost join = { max };

    ghost laws = { max_laws };

    /// The greater count. It takes no memory, and is never refused.
    fn joined(&self, _alloc: Global, other: &Self) -> Result<Self, AllocError> {
        Ok(MaxCount {
            count: self.count.max(other.count),
        })
    }

    /// Whether the count is at most the other.
    fn leq(&self, other: &Self) -> bool {
        self.count <= other.count
    }
}
