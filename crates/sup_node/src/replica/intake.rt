//! How a delta is taken in: by what it touches, or else by all that is known and kept.
ghost use Rattle.std.specs.Prelude.{◌≡◌, true, IfOk, IfErr, IfSome};
ghost use Rattle.sup_node.specs.Changes.{IsIntake, IsNoIntake};
ghost use Rattle.sup_node.specs.Placed.{keeps_placed};

use crate::change::Intake;
use crate::placing::wanted_at;
use crate::replica::Replica;
use crate::replica::touching::{ended, reaches};
use sup_causal::Lattice;
use sup_local_sup::{Effects, Leaving, SupFault};
use sup_placement::Weigh;
use sup_replica::Refusal;
use sup_tables::Tables;

impl Replica {
    // How a delta is taken in, and the effects of that. Those that leave are let go first.
    pub(super) fn intake<W: Weigh>(
        &self,
        leaving: &Leaving,
        delta: &Tables,
        weigher: &W,
    ) -> Result<(Intake, Effects), Refusal>
        requires keeps { keeps_placed W.weight_of self.now ≡ true }
        ensures intake { IfOk result (λ r. IsIntake W.weight_of self.now leaving.now delta.now r.0 r.1) }
        ensures refused { IfErr result (IsNoIntake W.weight_of self.now leaving.now delta.now) }
    {
        if let Some(found) = self.touched_intake(leaving, delta, weigher)? {
            return Ok(found);
        }
        self.whole_intake(leaving, delta, weigher)
    }

    // By a merge of the tables, with all children placed anew.
    fn whole_intake<W: Weigh>(
        &self,
        leaving: &Leaving,
        delta: &Tables,
        weigher: &W,
    ) -> Result<(Intake, Effects), Refusal>
        ensures intake { IfOk result (λ r. IsIntake W.weight_of self.now leaving.now delta.now r.0 r.1) }
        ensures refused { IfErr result (IsNoIntake W.weight_of self.now leaving.now delta.now) }
    {
        let mut tables = self.tables.joined(self.alloc, delta)?;
        tables.index_rows();
        let wanted = wanted_at(self.alloc, weigher, &self.name, &tables)?;
        match self.supervisor.plan(leaving, &wanted) {
            Ok(plan) => {
                let (plan, effects) = plan.parted();
                Ok((Intake::Whole(tables, plan), effects))
            }
            Err(SupFault::CountSpent) => Err(Refusal::CountSpent),
            Err(SupFault::OutOfMemory) => Err(Refusal::OutOfMemory),
        }
    }

    // By what the delta touches. There is none where it changes much, where other members are open with it, or where a child
    // leaves that it doesn't touch, or all do.
    fn touched_intake<W: Weigh>(
        &self,
        leaving: &Leaving,
        delta: &Tables,
        weigher: &W,
    ) -> Result<Option<(Intake, Effects)>, Refusal>
        requires keeps { keeps_placed W.weight_of self.now ≡ true }
        ensures intake { IfOk result (λ found. IfSome found (λ r. IsIntake W.weight_of self.now leaving.now delta.now r.0 r.1)) }
        ensures refused { IfErr result (IsNoIntake W.weight_of self.now leaving.now delta.now) }
    {
        let Some(plan) = self.tables.plan_small_join(self.alloc, delta)? else {
            return Ok(None);
        };
        let touched = self.tables.touched_by(self.alloc, &plan)?;
        if touched.members || !reaches(&touched.children, leaving) {
            return Ok(None);
        }
        let hosts = self.tables.eligible()?;
        let changes = self.changes(weigher, &hosts, &plan, &touched.children)?;
        match self.supervisor.plan_change(ended(leaving), &changes) {
            Ok(kept) => {
                let (kept, effects) = kept.parted();
                Ok(Some((Intake::Touched(plan, kept), effects)))
            }
            Err(SupFault::CountSpent) => Err(Refusal::CountSpent),
            Err(SupFault::OutOfMemory) => Err(Refusal::OutOfMemory),
        }
    }
}
