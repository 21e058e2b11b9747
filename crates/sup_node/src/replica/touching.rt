//! What is wanted now under the ids that a delta touches.
ghost use Rattle.std.specs.Prelude.{◌≡◌, true, IfOk, IfSome};
ghost use Rattle.std.specs.Option.{option_copied};
ghost use Rattle.sup_specs.specs.Values.{text_cmp};
ghost use Rattle.sup_specs.specs.Rising.{among};
ghost use Rattle.sup_causal.specs.Dots.{IsCounted};
ghost use Rattle.sup_tables.specs.States.{State};
ghost use Rattle.sup_tables.specs.Planned.{IsPlanFor};
ghost use Rattle.sup_local_sup.specs.Keeping.{AreCounted};
ghost use Rattle.sup_local_sup.specs.Changing.{news};
ghost use Rattle.sup_node.specs.Changes.{ForPlanned, AreChangesThen};
ghost use Rattle.sup_node.specs.Placed.{ListsLeaving, ended_of, wanted_then};

use crate::placing::is_here;
use crate::replica::Replica;
use std::alloc::AllocError;
use sup_local_sup::{Change, Leaving, Wanted};
use sup_placement::Weigh;
use sup_specs::{ChildId, NodeName, Plain};
use sup_tables::PlannedTables;

impl Replica {
    // What is wanted under these ids once a plan is carried out, where these members may have children.
    pub(super) fn changes<W: Weigh>(
        &self,
        weigher: &W,
        hosts: &[NodeName],
        plan: &PlannedTables,
        ids: &[ChildId],
    ) -> Result<Vec<Change>, AllocError>
        requires { (new : State) × IsPlanFor plan.now self.now.known new }
        ensures changes { IfOk result (λ changes. AreChangesThen W.weight_of self.now hosts.now ids.now plan.now changes.items) }
        ensures counted { IfOk result (λ changes. ForPlanned plan.now self.now.known (λ _. AreCounted (news changes.items))) }
    {
        let mut changes = Vec::with_capacity(self.alloc, ids.len())?;
        for id in ids {
            let now = self.wanted_after(weigher, hosts, plan, id)?;
            let id = id.try_clone(self.alloc)?;
            changes.push(Change { id, now })?;
        }
        Ok(changes)
    }

    // What is wanted under an id then.
    fn wanted_after<W: Weigh>(
        &self,
        weigher: &W,
        hosts: &[NodeName],
        plan: &PlannedTables,
        id: &ChildId,
    ) -> Result<Option<Wanted>, AllocError>
        requires { (new : State) × IsPlanFor plan.now self.now.known new }
        ensures wanted { IfOk result (λ w. ForPlanned plan.now self.now.known (λ new. w ≡ wanted_then W.weight_of self.now hosts.now id.now new)) }
        ensures counted { IfOk result (λ w. ForPlanned plan.now self.now.known (λ _. IfSome w (λ v. IsCounted v.dot))) }
    {
        let Some((dot, spec)) = self.tables.child_after(plan, id) else {
            return Ok(None);
        };
        if !is_here(weigher, &self.name, hosts, id) {
            return Ok(None);
        }
        let spec = spec.try_clone(self.alloc)?;
        let id = id.try_clone(self.alloc)?;
        Ok(Some(Wanted { id, dot, spec }))
    }
}

// Whether whoever leaves is among these children, and nobody else leaves.
pub(super) fn reaches(children: &[ChildId], leaving: &Leaving) -> bool
    ensures { result ≡ true → ListsLeaving children.now leaving.now }
{
    match leaving {
        Leaving::Nobody => true,
        Leaving::Finished(id) => is_listed(children, id),
        Leaving::GaveUp(_) => false,
    }
}

// Whether an id is one of these.
fn is_listed(ids: &[ChildId], id: &ChildId) -> bool
    ensures { result ≡ true → among text_cmp ids.now id.now ≡ true }
{
    for other in ids {
        if id.cmp(other).is_eq() {
            return true;
        }
    }
    false
}

// The one child that leaves; none where nobody does, or all do.
pub(super) fn ended(leaving: &Leaving) -> Option<&ChildId>
    ensures { option_copied result ≡ ended_of leaving.now }
{
    match leaving {
        Leaving::Finished(id) => Some(id),
        Leaving::Nobody | Leaving::GaveUp(_) => None,
    }
}
