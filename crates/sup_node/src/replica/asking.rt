//! What is asked of a replica.
ghost use Rattle.std.specs.Prelude.{◌≡◌, false};
ghost use Rattle.sup_replica.specs.Nodes.{is_named};
ghost use Rattle.sup_replica.specs.Steps.{passes_greatest};

use crate::replica::Replica;
use std::alloc::Global;
use sup_specs::NodeName;

impl Replica {
    // What its lists are allocated with.
    pub(crate) fn alloc(&self) -> Global {
        self.alloc
    }

    // Whether this is its name.
    pub(crate) fn is_named(&self, name: &NodeName) -> bool
        ensures { result ≡ is_named name.now self.now.name }
    {
        name.cmp(&self.name).is_eq()
    }

    // Tells a proof that none of its numbers is past the greatest.
    pub(crate) fn is_counted(&self)
        ensures { passes_greatest self.now ≡ false }
    {
        let _given = self.supervisor.given();
    }
}
