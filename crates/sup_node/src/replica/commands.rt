//! Commands, made ready. Nothing changes; each refuses with the first check that fails, or for memory.
ghost use Rattle.std.specs.Prelude.{◌≡◌, ◌<◌, true, IfOk};
ghost use Rattle.sup_specs.specs.declared.limits.TheConstants.{MAX as MOST};
ghost use Rattle.sup_tables.specs.Rows.{members};
ghost use Rattle.sup_tables.specs.Readers.{is_present, live_dots};
ghost use Rattle.sup_tables.specs.Makers.{put_child, replace_child, put_name, drop_member, drain_member, drop_child, drop_name};
ghost use Rattle.sup_tables.specs.OneOperation.{state_of_one, counter_in};
ghost use Rattle.sup_replica.specs.declared.event.Event.TheVariants.{Join, Leave, Drain, Start, Replace, Delete, Register, Unregister};
ghost use Rattle.sup_replica.specs.ByTables.{by_tables};
ghost use Rattle.sup_replica.specs.Steps.{up_step};
ghost use Rattle.sup_node.specs.Changes.{ReadiesOutcome, IsOwn, own_next, put_open_member};
ghost use Rattle.sup_node.specs.Placed.{keeps_placed};

use crate::change::Ready;
use crate::replica::Replica;
use std::alloc::AllocError;
use sup_causal::Dot;
use sup_local_sup::Leaving;
use sup_placement::Weigh;
use sup_replica::{Dots, Refusal, Reply};
use sup_specs::{ChildId, ChildSpec, MemberInfo, Name, NodeName, Plain, Status, Text};
use sup_tables::Tables;

impl Replica {
    // The node joins.
    pub(crate) fn join<W: Weigh>(&self, label: &Text, weigher: &W) -> Result<Ready, Refusal>
        requires keeps { keeps_placed W.weight_of self.now ≡ true }
        ensures ready { ReadiesOutcome W.weight_of (up_step by_tables W.weight_of self.now (Join label.now) 0) self.now result }
        ensures own { IfOk result (λ p. IsOwn self.now p.change) }
    {
        if self.is_joined() {
            return Err(Refusal::AlreadyMember);
        }
        if self.is_full() {
            return Err(Refusal::TableFull);
        }
        if self.is_spent() {
            return Err(Refusal::DotsSpent);
        }
        let (delta, dot) = self.put_member(label)?;
        self.issue(Reply::Added(dot), &Leaving::Nobody, delta, weigher)
    }

    // A member leaves.
    pub(crate) fn leave<W: Weigh>(&self, m: &NodeName, weigher: &W) -> Result<Ready, Refusal>
        requires keeps { keeps_placed W.weight_of self.now ≡ true }
        ensures ready { ReadiesOutcome W.weight_of (up_step by_tables W.weight_of self.now (Leave m.now) 0) self.now result }
        ensures own { IfOk result (λ p. IsOwn self.now p.change) }
    {
        if !self.is_member(m) {
            return Err(Refusal::NotMember);
        }
        let (delta, dots) = self.drop_member(m)?;
        let removed = Dots::new(dots);
        self.issue(Reply::Removed(removed), &Leaving::Nobody, delta, weigher)
    }

    // A member stays, and keeps no children.
    pub(crate) fn drain<W: Weigh>(&self, m: &NodeName, weigher: &W) -> Result<Ready, Refusal>
        requires keeps { keeps_placed W.weight_of self.now ≡ true }
        ensures ready { ReadiesOutcome W.weight_of (up_step by_tables W.weight_of self.now (Drain m.now) 0) self.now result }
        ensures own { IfOk result (λ p. IsOwn self.now p.change) }
    {
        if !self.is_member(m) {
            return Err(Refusal::NotMember);
        }
        if self.is_draining(m) {
            return Err(Refusal::AlreadyDraining);
        }
        if self.is_spent() {
            return Err(Refusal::DotsSpent);
        }
        let (delta, dot, dots) = self.drain_member(m)?;
        let named = Dots::new(dots);
        self.issue(
            Reply::Replaced(dot, named),
            &Leaving::Nobody,
            delta,
            weigher,
        )
    }

    // A child comes.
    pub(crate) fn start<W: Weigh>(
        &self,
        id: &ChildId,
        spec: &ChildSpec,
        weigher: &W,
    ) -> Result<Ready, Refusal>
        requires keeps { keeps_placed W.weight_of self.now ≡ true }
        ensures ready { ReadiesOutcome W.weight_of (up_step by_tables W.weight_of self.now (Start id.now spec.now) 0) self.now result }
        ensures own { IfOk result (λ p. IsOwn self.now p.change) }
    {
        if self.is_child(id) {
            return Err(Refusal::AlreadyPresent);
        }
        if self.is_full() {
            return Err(Refusal::TableFull);
        }
        if self.is_spent() {
            return Err(Refusal::DotsSpent);
        }
        let (delta, dot) = self.put_child(id, spec)?;
        self.issue(Reply::Added(dot), &Leaving::Nobody, delta, weigher)
    }

    // A child gets a new specification.
    pub(crate) fn replace<W: Weigh>(
        &self,
        id: &ChildId,
        spec: &ChildSpec,
        weigher: &W,
    ) -> Result<Ready, Refusal>
        requires keeps { keeps_placed W.weight_of self.now ≡ true }
        ensures ready { ReadiesOutcome W.weight_of (up_step by_tables W.weight_of self.now (Replace id.now spec.now) 0) self.now result }
        ensures own { IfOk result (λ p. IsOwn self.now p.change) }
    {
        if !self.is_child(id) {
            return Err(Refusal::NotFound);
        }
        if self.is_spent() {
            return Err(Refusal::DotsSpent);
        }
        let (delta, dot, dots) = self.replace_child(id, spec)?;
        let removed = Dots::new(dots);
        self.issue(
            Reply::Replaced(dot, removed),
            &Leaving::Nobody,
            delta,
            weigher,
        )
    }

    // A child goes.
    pub(crate) fn delete<W: Weigh>(&self, id: &ChildId, weigher: &W) -> Result<Ready, Refusal>
        requires keeps { keeps_placed W.weight_of self.now ≡ true }
        ensures ready { ReadiesOutcome W.weight_of (up_step by_tables W.weight_of self.now (Delete id.now) 0) self.now result }
        ensures own { IfOk result (λ p. IsOwn self.now p.change) }
    {
        if !self.is_child(id) {
            return Err(Refusal::NotFound);
        }
        let (delta, dots) = self.drop_child(id)?;
        let removed = Dots::new(dots);
        self.issue(Reply::Removed(removed), &Leaving::Nobody, delta, weigher)
    }

    // A name is registered.
    pub(crate) fn register<W: Weigh>(
        &self,
        name: &Name,
        id: &ChildId,
        weigher: &W,
    ) -> Result<Ready, Refusal>
        requires keeps { keeps_placed W.weight_of self.now ≡ true }
        ensures ready { ReadiesOutcome W.weight_of (up_step by_tables W.weight_of self.now (Register name.now id.now) 0) self.now result }
        ensures own { IfOk result (λ p. IsOwn self.now p.change) }
    {
        if !self.is_child(id) {
            return Err(Refusal::NoSuchChild);
        }
        if self.is_name(name) {
            return Err(Refusal::NameTaken);
        }
        if self.is_full() {
            return Err(Refusal::TableFull);
        }
        if self.is_spent() {
            return Err(Refusal::DotsSpent);
        }
        let (delta, dot) = self.put_name(name, id)?;
        self.issue(Reply::Added(dot), &Leaving::Nobody, delta, weigher)
    }

    // A name is taken back.
    pub(crate) fn unregister<W: Weigh>(&self, name: &Name, weigher: &W) -> Result<Ready, Refusal>
        requires keeps { keeps_placed W.weight_of self.now ≡ true }
        ensures ready { ReadiesOutcome W.weight_of (up_step by_tables W.weight_of self.now (Unregister name.now) 0) self.now result }
        ensures own { IfOk result (λ p. IsOwn self.now p.change) }
    {
        if !self.is_name(name) {
            return Err(Refusal::NameUnknown);
        }
        let (delta, dots) = self.drop_name(name)?;
        let removed = Dots::new(dots);
        self.issue(Reply::Removed(removed), &Leaving::Nobody, delta, weigher)
    }

    fn put_member(&self, label: &Text) -> Result<(Tables, Dot), AllocError>
        requires { counter_in self.now.known self.now.name < MOST }
        ensures dot { IfOk result (λ put. put.1 ≡ own_next self.now) }
        ensures delta { IfOk result (λ put. put.0 ≡ state_of_one (put_open_member self.now label.now)) }
    {
        let label = label.try_clone(self.alloc)?;
        let put = self.tables.add_member(
            self.name,
            MemberInfo {
                label,
                status: Status::Open,
            },
        )?;
        Ok(put)
    }

    fn put_child(&self, id: &ChildId, spec: &ChildSpec) -> Result<(Tables, Dot), AllocError>
        requires { counter_in self.now.known self.now.name < MOST }
        ensures dot { IfOk result (λ put. put.1 ≡ own_next self.now) }
        ensures delta { IfOk result (λ put. put.0 ≡ state_of_one (put_child (own_next self.now) id.now spec.now)) }
    {
        let id = id.try_clone(self.alloc)?;
        let spec = spec.try_clone(self.alloc)?;
        let put = self.tables.add_child(self.name, id, spec)?;
        Ok(put)
    }

    fn put_name(&self, name: &Name, id: &ChildId) -> Result<(Tables, Dot), AllocError>
        requires { counter_in self.now.known self.now.name < MOST }
        ensures dot { IfOk result (λ put. put.1 ≡ own_next self.now) }
        ensures delta { IfOk result (λ put. put.0 ≡ state_of_one (put_name (own_next self.now) name.now id.now)) }
    {
        let name = name.try_clone(self.alloc)?;
        let id = id.try_clone(self.alloc)?;
        let put = self.tables.add_name(self.name, name, id)?;
        Ok(put)
    }

    fn replace_child(
        &self,
        id: &ChildId,
        spec: &ChildSpec,
    ) -> Result<(Tables, Dot, Vec<Dot>), AllocError>
        requires { counter_in self.now.known self.now.name < MOST }
        ensures dot { IfOk result (λ put. put.1 ≡ own_next self.now) }
        ensures dots { IfOk result (λ put. put.2.items ≡ (replace_child self.now.known.rows (own_next self.now) id.now spec.now).removes) }
        ensures delta { IfOk result (λ put. put.0 ≡ state_of_one (replace_child self.now.known.rows (own_next self.now) id.now spec.now)) }
    {
        let id = id.try_clone(self.alloc)?;
        let spec = spec.try_clone(self.alloc)?;
        let put = self.tables.add_replacement(self.name, id, spec)?;
        Ok(put)
    }

    fn drain_member(&self, m: &NodeName) -> Result<(Tables, Dot, Vec<Dot>), AllocError>
        requires left { counter_in self.now.known self.now.name < MOST }
        requires there { is_present self.now.known.rows members m.now ≡ true }
        ensures dot { IfOk result (λ put. put.1 ≡ own_next self.now) }
        ensures dots { IfOk result (λ put. put.2.items ≡ live_dots self.now.known.rows members m.now) }
        ensures delta { IfOk result (λ put. put.0 ≡ state_of_one (drain_member self.now.known.rows (own_next self.now) m.now)) }
    {
        let put = self.tables.add_draining(self.name, m)?;
        Ok(put)
    }

    fn drop_member(&self, m: &NodeName) -> Result<(Tables, Vec<Dot>), AllocError>
        ensures dots { IfOk result (λ r. r.1.items ≡ (drop_member self.now.known.rows m.now).removes) }
        ensures delta { IfOk result (λ r. r.0 ≡ state_of_one (drop_member self.now.known.rows m.now)) }
    {
        let dropped = self.tables.drop_member(m)?;
        Ok(dropped)
    }

    fn drop_child(&self, id: &ChildId) -> Result<(Tables, Vec<Dot>), AllocError>
        ensures dots { IfOk result (λ r. r.1.items ≡ (drop_child self.now.known.rows id.now).removes) }
        ensures delta { IfOk result (λ r. r.0 ≡ state_of_one (drop_child self.now.known.rows id.now)) }
    {
        let dropped = self.tables.drop_child(id)?;
        Ok(dropped)
    }

    fn drop_name(&self, name: &Name) -> Result<(Tables, Vec<Dot>), AllocError>
        ensures dots { IfOk result (λ r. r.1.items ≡ (drop_name self.now.known.rows name.now).removes) }
        ensures delta { IfOk result (λ r. r.0 ≡ state_of_one (drop_name self.now.known.rows name.now)) }
    {
        let dropped = self.tables.drop_name(name)?;
        Ok(dropped)
    }
}
