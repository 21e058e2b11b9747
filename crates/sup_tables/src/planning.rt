//! Joins that are planned beside the tables, and what they touch.
ghost use Rattle.std.specs.Prelude.{◌≡◌, ◌↔◌, ◌||◌, ◌<◌, ◌/◌, length, IsTrue, IsNone, IfOk, IfSome, OnOk, OnErr};
ghost use Rattle.std.specs.Option.{option_map};
ghost use Rattle.std.specs.List.Sorted.{IsStrictlySortedBy};
ghost use Rattle.sup_specs.specs.Values.{text_cmp};
ghost use Rattle.sup_causal.specs.declared.dot.Dot.{Dot as DotValue};
ghost use Rattle.sup_causal.specs.Dots.{has, IsCounted};
ghost use Rattle.sup_indexed.specs.Contents.{functions_of, functions_planned};
ghost use Rattle.sup_indexed.specs.Touched.{first_after};
ghost use Rattle.sup_tables.specs.States.{State};
ghost use Rattle.sup_tables.specs.Joined.{join_states};
ghost use Rattle.sup_tables.specs.Stored.{AreCovered, stored_in, child_row};
ghost use Rattle.sup_tables.specs.Planned.{IsPlanFor, IsWinnerPlanned, ArePlanned, AreTouched, MembersDiffer};

use crate::joining::SMALL;
use crate::openness::Openness;
use crate::tables::{Stores, Table, Tables};
use std::alloc::{AllocError, Global};
use std::mem::replace;
use sup_causal::{CausalContext, Dot, Lattice};
use sup_indexed::{Looks, PlannedMap};
use sup_specs::{ChildId, ChildSpec, MemberInfo, Name, NodeName, Plain};

/// A join of tables that is planned: the rows of each key that it may change, and the dots that are known then. It
/// borrows nothing.
#[derive(Drop)]
pub struct PlannedTables {
    pub(crate) members: PlannedMap<NodeName, MemberInfo>,
    pub(crate) children: PlannedMap<ChildId, ChildSpec>,
    pub(crate) names: PlannedMap<Name, ChildId>,
    pub(crate) context: CausalContext,
}

/// What a join touches: whether children may be placed on other members than before, and the children with another
/// winner, rising by id.
#[derive(Drop)]
pub struct Touched {
    pub members: bool,
    pub children: Vec<ChildId>,
}

impl Tables {
    /// Plans a join with other tables. Nothing changes. An `Err` is want of memory, or of a count of the rows.
    pub fn plan_join(&self, alloc: Global, delta: &Tables) -> Result<PlannedTables, AllocError>
        ensures { IfOk result (λ p. IsPlanFor p self.now (join_states self.now delta.now)) }
    {
        self.plan_by(alloc, delta, Looks::AtTouched)
    }

    /// Plans a join with other tables where it costs less than a merge, which copies all rows: always where these know at most
    /// an eighth as many dots as there are rows here ([`is_small_beside`](Tables::is_small_beside)), and else by one pass over
    /// both, where these know few dots that aren't known here. None elsewhere. Nothing changes. An `Err` is want of memory, or
    /// of a count of the rows.
    pub fn plan_small_join(
        &self,
        alloc: Global,
        delta: &Tables,
    ) -> Result<Option<PlannedTables>, AllocError>
        ensures plan { IfOk result (λ o. IfSome o (λ p. IsPlanFor p self.now (join_states self.now delta.now))) }
        ensures small { IfOk result (λ o. IsNone o → length self.now.rows / 8 < length delta.now.context) }
    {
        if delta.is_small_beside(self) {
            return Ok(Some(self.plan_join(alloc, delta)?));
        }
        if !brings_few(self.context(), delta.context(), self.row_count() / SMALL)? {
            return Ok(None);
        }
        let plan = self.plan_by(alloc, delta, Looks::AtAll)?;
        Ok(Some(plan))
    }

    // Plans a join with other tables, by a look at these keys.
    fn plan_by(
        &self,
        alloc: Global,
        delta: &Tables,
        looks: Looks,
    ) -> Result<PlannedTables, AllocError>
        ensures { IfOk result (λ p. IsPlanFor p self.now (join_states self.now delta.now)) }
    {
        let Some(_rows) = self.row_count().checked_add(delta.row_count()) else {
            return Err(AllocError);
        };
        let planned = planned(
            alloc,
            self.stores(),
            self.context(),
            delta.stores(),
            delta.context(),
            looks,
        )?;
        Ok(planned)
    }

    /// What a plan touches. An `Err` is want of memory.
    pub fn touched_by(&self, alloc: Global, plan: &PlannedTables) -> Result<Touched, AllocError>
        requires { (new : State) × IsPlanFor plan.now self.now new }
        ensures rise { IfOk result (λ t. IsStrictlySortedBy text_cmp t.children.items) }
        ensures children { IfOk result (λ t. (new : State) → IsPlanFor plan.now self.now new → AreTouched t.children.items self.now new) }
        ensures members { IfOk result (λ t. (new : State) → IsPlanFor plan.now self.now new → (IsTrue t.members ↔ MembersDiffer self.now new)) }
    {
        // For its clause: tables are in their one form.
        self.context();
        let store = self.stores();
        let children = store.second.first.touched_by(alloc, &plan.children)?;
        Ok(Touched {
            members: store.first.differs_in(&plan.members, &Openness),
            children,
        })
    }

    /// Takes in what other tables know, and tells what that touched. An `Err` is want of memory, or of a count of the rows, and
    /// changes nothing.
    pub fn join_touching(&mut self, alloc: Global, delta: &Tables) -> Result<Touched, AllocError>
        ensures state { OnOk result (self.new ≡ join_states self.old delta.now) }
        ensures err { OnErr result (self.new ≡ self.old) }
        ensures rise { IfOk result (λ t. IsStrictlySortedBy text_cmp t.children.items) }
        ensures children { IfOk result (λ t. AreTouched t.children.items self.old self.new) }
        ensures members { IfOk result (λ t. IsTrue t.members ↔ MembersDiffer self.old self.new) }
    {
        let plan = self.plan_join(alloc, delta)?;
        let touched = self.touched_by(alloc, &plan)?;
        self.follow(alloc, plan)?;
        Ok(touched)
    }

    /// Becomes what the plan makes: [`open`](Tables::open) and [`carried_out`](crate::OpenTables::carried_out) in one. An
    /// `Err` is want of memory, and changes nothing.
    pub fn follow(&mut self, alloc: Global, plan: PlannedTables) -> Result<(), AllocError>
        requires { (new : State) × IsPlanFor plan self.old new }
        ensures made { OnOk result ((new : State) → IsPlanFor plan self.old new → self.new ≡ new) }
        ensures err { OnErr result (self.new ≡ self.old) }
    {
        let tables = replace(self, Tables::empty(alloc));
        match tables.open(alloc, plan) {
            Ok(open) => {
                *self = open.carried_out();
                Ok(())
            }
            Err(tables) => {
                *self = tables;
                Err(AllocError)
            }
        }
    }

    /// The dot and the value of a child's winner once the plan is carried out. The dot passes [`Dot::is_counted`].
    pub fn child_after<'a>(
        &'a self,
        plan: &'a PlannedTables,
        id: &ChildId,
    ) -> Option<(Dot, &'a ChildSpec)>
        requires { (new : State) × IsPlanFor plan.now self.now new }
        ensures winner { IsWinnerPlanned plan.now self.now id.now (option_map (λ r. child_row id.now r.0 r.1.now) result) }
        ensures counted { (new : State) → IsPlanFor plan.now self.now new → IfSome result (λ r. IsCounted r.0) }
    {
        // For its clauses: tables are in their one form, and the counters of known dots in their limits.
        self.context();
        plan.context.counted();
        first_after(&self.stores().second.first, &plan.children, id)
    }
}

// The first value of a key, by dot, once a plan is carried out.
fn first_after<'a, K: Plain, V: Plain>(
    table: &'a Table<K, V>,
    plan: &'a PlannedMap<K, V>,
    key: &K,
) -> Option<(Dot, &'a V)>
    ensures { option_map (λ r. (r.0, r.1.now)) result ≡ first_after K.cmp (functions_planned plan.now) (functions_of table.now) key.now }
{
    let values = table.get_after(plan, key)?;
    let (dot, value) = values.first()?;
    Some((*dot, value))
}

// The plan of a join of stores under their contexts.
fn planned(
    alloc: Global,
    store: &Stores,
    mine: &CausalContext,
    other: &Stores,
    theirs: &CausalContext,
    looks: Looks,
) -> Result<PlannedTables, AllocError>
    requires mine { AreCovered mine.now (stored_in store.now) }
    requires theirs { AreCovered theirs.now (stored_in other.now) }
    ensures contexts { IfOk result (λ p. (d : DotValue) → has p.context d ≡ (has mine.now d || has theirs.now d)) }
    ensures planned { IfOk result (λ p. ArePlanned p mine.now (stored_in store.now) theirs.now (stored_in other.now)) }
{
    let here = &store.second;
    let there = &other.second;
    let members = store
        .first
        .plan_with(alloc, mine, &other.first, theirs, looks)?;
    let children = here
        .first
        .plan_with(alloc, mine, &there.first, theirs, looks)?;
    let names = here
        .second
        .plan_with(alloc, mine, &there.second, theirs, looks)?;
    let context = mine.joined(alloc, theirs)?;
    Ok(PlannedTables {
        members,
        children,
        names,
        context,
    })
}

// Whether `theirs` has at most so many dots that `mine` lacks, by an estimate: of its runs only the dots above the greatest that
// `mine` has of the node are counted. It decides of cost alone.
fn brings_few(
    mine: &CausalContext,
    theirs: &CausalContext,
    most: usize,
) -> Result<bool, AllocError> {
    let mut left = most as u64;
    for (node, counter) in &theirs.vector()? {
        let more = counter.saturating_sub(mine.greatest(node));
        if left < more {
            return Ok(false);
        }
        left -= more;
    }
    let beyond = theirs.cloud()?;
    let unknown = beyond.iter().filter(|dot| !mine.contains(dot)).count();
    Ok(unknown as u64 <= left)
}
