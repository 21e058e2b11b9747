//! The members that run children, as they were weighed.
ghost use Rattle.std.specs.Prelude.{◌≡◌, ◌++◌, ◌||◌, ◌&&◌, [], ◌∷◌, not, map, IfOk, OnOk, OnErr, if◌then◌else◌};
ghost use Rattle.std.specs.Str.{bytes_eq};
ghost use Rattle.std.specs.List.{list_any};
ghost use Rattle.sup_specs.specs.Values.{Bytes};
ghost use Rattle.sup_placement.specs.Assigned.{at, is_there};

use crate::rendezvous::place;
use crate::weigh::Weigh;
use std::alloc::{AllocError, Global};
use std::collections::BTreeMap;
use std::marker::{Model, PhantomData};
use sup_specs::{ChildId, NodeName, Plain};

/// Which member runs each of some children: a child is weighed when it is told of, not when it is asked for. Its type names
/// how children are weighed. A contract sees the members, and of which ids it tells.
#[derive(Drop)]
pub struct Assignment<W: Weigh> {
    members: Vec<NodeName>,
    // `None` where there are no members, so that a child is there all the same.
    places: BTreeMap<ChildId, Option<NodeName>>,
    alloc: Global,
    weigher: PhantomData<W>,
}

impl<W: Weigh> Model for Assignment<W> {
    ghost use Rattle.std.specs.Prelude.{◌≡◌};
    ghost use Rattle.std.specs.Str.{bytes_eq};
    ghost use Rattle.std.specs.Map.{keys_of, lookup};
    ghost use Rattle.sup_specs.specs.Values.{Bytes};
    ghost use Rattle.sup_placement.specs.Assigned.{AssignedChildren, IsPlaced};

    ghost Value = { AssignedChildren };

    ghost view = { λ a. record { members = a.members.items; ids = keys_of a.places.entries } };

    // Each is the place.
    ghost invariant = { λ a. (q : Bytes) → IsPlaced W.weight_of a.members.items q (lookup (bytes_eq q) a.places.entries) };
}

impl<W: Weigh> Assignment<W> {
    /// The places of these children among these members.
    ///
    /// # Errors
    ///
    /// Refused only for memory.
    pub fn over(
        alloc: Global,
        weigher: &W,
        members: &[NodeName],
        ids: &[&ChildId],
    ) -> Result<Assignment<W>, AllocError>
        ensures members { IfOk result (λ a. a.members ≡ members.now) }
        ensures there { (q : Bytes) → IfOk result (λ a. is_there a q ≡ list_any (λ id. bytes_eq q id.now) ids.now) }
    {
        let mut made = Assignment::of(alloc, members)?;
        for id in ids {
            made.put(weigher, id)?;
        }
        Ok(made)
    }

    // No places.
    fn of(alloc: Global, members: &[NodeName]) -> Result<Assignment<W>, AllocError>
        ensures { IfOk result (λ a. a ≡ record { members = members.now; ids = [] }) }
    {
        Ok(Assignment {
            members: Vec::from_slice(alloc, members)?,
            places: BTreeMap::new(alloc),
            alloc,
            weigher: PhantomData,
        })
    }

    /// Tells of this child from now on, or no more.
    ///
    /// # Errors
    ///
    /// Refused only for memory. Nothing has changed then.
    pub fn touch(&mut self, weigher: &W, id: &ChildId, present: bool) -> Result<(), AllocError>
        ensures members { self.new.members ≡ self.old.members }
        ensures there { (q : Bytes) → OnOk result (is_there self.new q ≡ (if bytes_eq id.now q then present else is_there self.old q)) }
        ensures refused { OnErr result (self.new ≡ self.old) }
    {
        if present {
            self.put(weigher, id)
        } else {
            self.take(id);
            Ok(())
        }
    }

    // Tells of this child.
    fn put(&mut self, weigher: &W, id: &ChildId) -> Result<(), AllocError>
        ensures members { self.new.members ≡ self.old.members }
        ensures there { (q : Bytes) → OnOk result (is_there self.new q ≡ (bytes_eq id.now q || is_there self.old q)) }
        ensures refused { OnErr result (self.new ≡ self.old) }
    {
        let runner = place(weigher, &self.members, id);
        let id = id.try_clone(self.alloc)?;
        self.places.insert(id, runner)?;
        Ok(())
    }

    // Tells of this child no more.
    fn take(&mut self, id: &ChildId)
        ensures members { self.new.members ≡ self.old.members }
        ensures there { (q : Bytes) → is_there self.new q ≡ (not (bytes_eq id.now q) && is_there self.old q) }
    {
        let _gone = self.places.remove(id);
    }

    /// The member that runs a child; none where it isn't there, or where there are no members.
    pub fn at(&self, id: &ChildId) -> Option<NodeName>
        ensures { result ≡ at W.weight_of self.now id.now }
    {
        match self.places.get(id) {
            Some(runner) => *runner,
            None => None,
        }
    }
}
