//! The least of the values that were met.

ghost use Rattle.std.specs.Prelude.{◌≡◌};
ghost use Rattle.sup_causal.specs.Join.{lesser, lesser_laws};

use crate::lattice::Lattice;
use std::alloc::{AllocError, Global};
use sup_specs::Plain;

/// A value, whose join is the lesser. It means the value.
#[derive(Debug, Drop)]
pub struct Least<V> {
    pub value: V,
}

impl<V> Least<V> {
    /// The value as the only one that was met.
    pub fn new(value: V) -> Least<V>
        ensures { result.value ≡ value }
    {
        Least { value }
    }
}

impl<V: Plain> Lattice for Least<V> {
    ghost Meaning = { V };

    ghost meaning = { λ m. m.value };

    ghost join = { lesser V.cmp };

    ghost laws = { lesser_laws V.Ord.total V.Plain.exact };

    /// The lesser value. Refused only for memory, where a copy takes some.
    fn joined(&self, alloc: Global, other: &Self) -> Result<Self, AllocError> {
        let value = if other.value < self.value {
            &other.value
        } else {
            &self.value
        };
        Ok(Least {
            value: value.try_clone(alloc)?,
        })
    }

    /// Whether the other value is at most this one: the lesser value is the higher in the lattice.
    fn leq(&self, other: &Self) -> bool {
        other.value <= self.value
    }
}
