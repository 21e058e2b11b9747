//! Dots: the events of nodes, counted node by node.

ghost use Rattle.std.specs.Prelude.{◌↔◌, IsTrue};
ghost use Rattle.sup_causal.specs.Dots.{IsCounted};

use std::alloc::{AllocError, Global};
use sup_specs::{MAX, NodeName, Plain};

/// One event of a node (Almeida, Shoker and Baquero 2018): the node, and which of its events, from 1 to [`MAX`].
/// Dots are ordered by counter, then by the bytes of the node's name.
#[derive(Clone, Copy, PartialEq, Eq, PartialOrd, Ord)]
pub struct Dot {
    pub counter: u64,
    pub node: NodeName,
}

impl Dot {
    /// Whether the counter is in its limits, from 1 to [`MAX`].
    pub fn is_counted(&self) -> bool
        ensures { IsTrue result ↔ IsCounted self.now }
    {
        1 <= self.counter && self.counter <= MAX
    }
}

impl Plain for Dot {
    ghost use Rattle.sup_causal.specs.DotLaws.{dot_exact};

    fn try_clone(&self, _alloc: Global) -> Result<Dot, AllocError> {
        Ok(*self)
    }

    ghost exact = { dot_exact };
}
