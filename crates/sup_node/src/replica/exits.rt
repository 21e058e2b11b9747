//! Exits, made ready.
ghost use Rattle.std.specs.Prelude.{◌≡◌, true, IfOk};
ghost use Rattle.sup_causal.specs.declared.dot.Dot.{Dot as DotValue};
ghost use Rattle.sup_causal.specs.Dots.{IsCounted};
ghost use Rattle.sup_tables.specs.Makers.{drop_member, finish_child};
ghost use Rattle.sup_tables.specs.OneOperation.{state_of_one};
ghost use Rattle.sup_local_sup.specs.declared.leaving.Ruling.TheVariants.{Restart, Finish, GiveUp};
ghost use Rattle.sup_local_sup.specs.Planning.{ruling};
ghost use Rattle.sup_replica.specs.declared.event.Event.TheVariants.{Exit};
ghost use Rattle.sup_replica.specs.ByTables.{by_tables};
ghost use Rattle.sup_replica.specs.Steps.{up_step, exit_step};
ghost use Rattle.sup_node.specs.Changes.{ReadiesOutcome, ReadiesPlaced, IsOwn};
ghost use Rattle.sup_node.specs.Placed.{keeps_placed};

use crate::change::{Change, Ready};
use crate::replica::Replica;
use std::alloc::AllocError;
use sup_causal::Dot;
use sup_local_sup::{Incarnation, Leaving, Ruling, SupFault};
use sup_placement::Weigh;
use sup_replica::{Dots, Refusal, Reply};
use sup_specs::{ChildId, ExitReason, Plain};
use sup_tables::Tables;

impl Replica {
    // A run of a child ended.
    pub(crate) fn exit<W: Weigh>(
        &self,
        id: &ChildId,
        inc: Incarnation,
        reason: &ExitReason,
        now: u64,
        weigher: &W,
    ) -> Result<Ready, Refusal>
        requires keeps { keeps_placed W.weight_of self.now ≡ true }
        ensures ready { ReadiesOutcome W.weight_of (up_step by_tables W.weight_of self.now (Exit id.now inc reason.now) now) self.now result }
        ensures own { IfOk result (λ p. IsOwn self.now p.change) }
    {
        match self.ruling(id, inc, reason, now) {
            Ruling::Stale => Err(Refusal::StaleExit),
            Ruling::Restart => self.begin_again(id, now),
            Ruling::Finish(dot) => self.finish(id, &dot, weigher),
            Ruling::GiveUp => self.give_up(id, weigher),
        }
    }

    // What the exit calls for.
    fn ruling(&self, id: &ChildId, inc: Incarnation, reason: &ExitReason, now: u64) -> Ruling
        ensures ruling { result ≡ ruling self.now.supervisor id.now inc reason.now now }
        ensures counted { (dot : DotValue) → result ≡ Finish dot → IsCounted dot }
    {
        self.supervisor.ruling(id, inc, reason, now)
    }

    // The child begins a new run, and no table changes.
    fn begin_again(&self, id: &ChildId, now: u64) -> Result<Ready, Refusal>
        ensures ready { ReadiesPlaced (λ w. exit_step by_tables w self.now id.now now Restart) self.now result }
        ensures own { IfOk result (λ p. IsOwn self.now p.change) }
    {
        let again = id.try_clone(self.alloc)?;
        match self.supervisor.plan_restart(id) {
            Ok(effects) => Ok(Ready {
                reply: Reply::Restarted,
                effects,
                change: Change::Begins(again, now),
            }),
            Err(SupFault::CountSpent) => Err(Refusal::CountSpent),
            Err(SupFault::OutOfMemory) => Err(Refusal::OutOfMemory),
        }
    }

    // The entry that ran is done.
    fn finish<W: Weigh>(&self, id: &ChildId, dot: &Dot, weigher: &W) -> Result<Ready, Refusal>
        requires counted { IsCounted dot.now }
        requires keeps { keeps_placed W.weight_of self.now ≡ true }
        ensures ready { ReadiesOutcome W.weight_of (exit_step by_tables W.weight_of self.now id.now 0 (Finish dot.now)) self.now result }
        ensures own { IfOk result (λ p. IsOwn self.now p.change) }
    {
        let delta = self.finished(dot)?;
        let copy = id.try_clone(self.alloc)?;
        let leaving = Leaving::Finished(copy);
        self.issue(Reply::Finished(*dot), &leaving, delta, weigher)
    }

    // The node leaves, and stops all other children.
    fn give_up<W: Weigh>(&self, id: &ChildId, weigher: &W) -> Result<Ready, Refusal>
        requires keeps { keeps_placed W.weight_of self.now ≡ true }
        ensures ready { ReadiesOutcome W.weight_of (exit_step by_tables W.weight_of self.now id.now 0 GiveUp) self.now result }
        ensures own { IfOk result (λ p. IsOwn self.now p.change) }
    {
        let (delta, dots) = self.drop_itself()?;
        let removed = Dots::new(dots);
        let copy = id.try_clone(self.alloc)?;
        let leaving = Leaving::GaveUp(copy);
        self.issue(Reply::GaveUp(removed), &leaving, delta, weigher)
    }

    fn finished(&self, dot: &Dot) -> Result<Tables, AllocError>
        requires { IsCounted dot.now }
        ensures { IfOk result (λ t. t ≡ state_of_one (finish_child dot.now)) }
    {
        let delta = self.tables.finish_child(*dot)?;
        Ok(delta)
    }

    fn drop_itself(&self) -> Result<(Tables, Vec<Dot>), AllocError>
        ensures dots { IfOk result (λ r. r.1.items ≡ (drop_member self.now.known.rows self.now.name).removes) }
        ensures delta { IfOk result (λ r. r.0 ≡ state_of_one (drop_member self.now.known.rows self.now.name)) }
    {
        let dropped = self.tables.drop_member(&self.name)?;
        Ok(dropped)
    }
}
