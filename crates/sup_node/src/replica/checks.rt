//! The checks of commands.
ghost use Rattle.std.specs.Prelude.{◌≡◌, ◌<◌, false};
ghost use Rattle.sup_specs.specs.declared.limits.TheConstants.{MAX as MOST};
ghost use Rattle.sup_tables.specs.Rows.{members, children, names};
ghost use Rattle.sup_tables.specs.Readers.{is_present};
ghost use Rattle.sup_tables.specs.OneOperation.{counter_in};
ghost use Rattle.sup_replica.specs.ByTables.{by_tables};
ghost use Rattle.sup_replica.specs.Commands.{is_draining, is_full, is_spent};
ghost use Rattle.sup_replica.specs.Steps.{reading};

use crate::replica::Replica;
use sup_specs::{ChildId, MAX, Name, NodeName, Status};

/// The live rows at which a node adds nothing any more, but in the place of what it removes.
const ROW_LIMIT: usize = 10_000;

impl Replica {
    // Whether the node is a member.
    pub(super) fn is_joined(&self) -> bool
        ensures { result ≡ is_present self.now.known.rows members self.now.name }
    {
        self.tables.member(&self.name).is_some()
    }

    // Whether there is such a member.
    pub(super) fn is_member(&self, member: &NodeName) -> bool
        ensures { result ≡ is_present self.now.known.rows members member.now }
    {
        self.tables.member(member).is_some()
    }

    // Whether there is such a member, and it is draining.
    pub(super) fn is_draining(&self, member: &NodeName) -> bool
        ensures { result ≡ is_draining self.now.known.rows member.now }
    {
        match self.tables.member(member) {
            Some((_, info)) => match info.status {
                Status::Open => false,
                Status::Draining => true,
            },
            None => false,
        }
    }

    // Whether there is such a child.
    pub(super) fn is_child(&self, id: &ChildId) -> bool
        ensures { result ≡ is_present self.now.known.rows children id.now }
    {
        self.tables.child(id).is_some()
    }

    // Whether there is such a name.
    pub(super) fn is_name(&self, name: &Name) -> bool
        ensures { result ≡ is_present self.now.known.rows names name.now }
    {
        self.tables.name(name).is_some()
    }

    // Whether there is no room for a row.
    pub(super) fn is_full(&self) -> bool
        ensures { result ≡ is_full (reading by_tables self.now) }
    {
        self.tables.row_count() >= ROW_LIMIT
    }

    // Whether there is no dot for a row.
    pub(super) fn is_spent(&self) -> bool
        ensures value { result ≡ is_spent (reading by_tables self.now) }
        ensures left { result ≡ false → counter_in self.now.known self.now.name < MOST }
    {
        self.tables.context().greatest(&self.name) >= MAX
    }
}
