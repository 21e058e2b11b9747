//! A restart from an image.
ghost use Rattle.std.specs.Prelude.{◌≡◌, ◌≤◌, true, IfOk};
ghost use Rattle.sup_replica.specs.ByTables.{by_tables};
ghost use Rattle.sup_replica.specs.Acts.{act_step};
ghost use Rattle.sup_replica.specs.declared.event.Act.TheVariants.{Restart};
ghost use Rattle.sup_node.specs.Changes.{RestartsAs, stopped_node};
ghost use Rattle.sup_node.specs.Placed.{keeps_placed};

use crate::placing::wanted_at;
use crate::replica::Replica;
use std::alloc::Global;
use sup_local_sup::{Effects, Leaving, SupFault, Supervisor};
use sup_placement::Weigh;
use sup_replica::Refusal;
use sup_specs::MAX;
use sup_wire::Image;

impl Replica {
    // The node that goes on from an image, in the next boot, and what it starts.
    pub(crate) fn restarted<W: Weigh>(
        alloc: Global,
        image: Image,
        intensity: usize,
        period: u64,
        weigher: &W,
    ) -> Result<(Replica, Effects), Refusal>
        requires { intensity ≤ 1000 }
        ensures restarts { RestartsAs (act_step by_tables W.weight_of (stopped_node intensity period image) Restart 0) result }
        ensures keeps { IfOk result (λ r. keeps_placed W.weight_of r.0 ≡ true) }
    {
        if image.boot >= MAX {
            return Err(Refusal::CountSpent);
        }
        if image.count > MAX {
            return Err(Refusal::CountSpent);
        }
        let wanted = wanted_at(alloc, weigher, &image.node, &image.state)?;
        let mut supervisor = Supervisor::new(alloc, image.boot + 1, intensity, period)?;
        match supervisor.plan(&Leaving::Nobody, &wanted) {
            Ok(plan) => {
                let effects = supervisor.carry_out(plan);
                let mut tables = image.state;
                tables.index_rows();
                let replica = Replica {
                    name: image.node,
                    tables,
                    count: image.count,
                    supervisor,
                    newest: None,
                    alloc,
                };
                Ok((replica, effects))
            }
            Err(SupFault::CountSpent) => Err(Refusal::CountSpent),
            Err(SupFault::OutOfMemory) => Err(Refusal::OutOfMemory),
        }
    }
}
