//! The verdict over what happened at a plan's nodes: a function of these histories and the plan, with no threads.

ghost use Rattle.std.specs.Prelude.{◌≡◌, Err, IfErr, IfOk, Ok, string_bytes};
ghost use Rattle.sup_world.specs.SeenNodes.{sites_of};
ghost use Rattle.sup_cluster_texts.specs.Faults.{of_certify};
ghost use Rattle.sup_clustering.specs.Verdicts.{IsCertified, RefusesHistories, PrintsRun, SettlesFrom};

use std::alloc::Global;
use sup_certify::{CertifyFault, Run, certify};
use sup_cluster_texts::{ClusterFault, cluster_text, of_certify};
use sup_jobs::Fault;
use sup_placement::Weigh;
use sup_plan::{Histories, Plan};
use sup_world::{Settled, World};

/// Judges histories of the plan's nodes, and gives what is printed of these once they have settled.
///
/// # Errors
///
/// `Stuck` and `Differs` where no order of all entries is a run of the world, as [`certify`] tells them; `OutOfMemory`, which stands
/// also where settling is refused; and no other.
pub fn judged_text<G: Weigh + Copy + Drop>(
    alloc: Global,
    weigher: &G,
    plan: &Plan,
    histories: &Histories,
) -> Result<String, ClusterFault>
    ensures prints { IfOk result (λ s. PrintsRun G.weight_of plan.now histories.now (string_bytes s)) }
    ensures refused { IfErr result (RefusesHistories G.weight_of plan.now histories.now) }
{
    let Run { mut world, .. } = certified_run(alloc, weigher, plan, histories)?;
    let _settled = settle(&mut world)?;
    let text = cluster_text(alloc, weigher, &world, plan.nodes.as_slice())?;
    Ok(text)
}

// The run that the histories make, or why they make none.
fn certified_run<G: Weigh + Copy + Drop>(
    alloc: Global,
    weigher: &G,
    plan: &Plan,
    histories: &Histories,
) -> Result<Run<G>, ClusterFault>
    ensures certified { IfOk result (λ run. IsCertified G.weight_of plan.now histories.now run.steps.items (sites_of run.world)) }
    ensures refused { IfErr result (RefusesHistories G.weight_of plan.now histories.now) }
{
    judged_as(certify(alloc, plan, histories, *weigher))
}

// The same judgement, as the cluster tells it.
fn judged_as<R: Drop>(judged: Result<R, CertifyFault>) -> Result<R, ClusterFault>
    ensures run { IfOk judged (λ run. result ≡ Ok run) }
    ensures fault { IfErr judged (λ fault. result ≡ Err (of_certify fault)) }
{
    match judged {
        Ok(run) => Ok(run),
        Err(fault) => Err(of_certify(fault)),
    }
}

// Has the nodes exchange all that they know. No step of that is refused but for want of memory while counts are far from their limit.
fn settle<G: Weigh>(world: &mut World<G>) -> Result<Settled, ClusterFault>
    ensures settles { IfOk result (λ _. SettlesFrom G.weight_of (sites_of world.old) (sites_of world.new)) }
    ensures refused { IfErr result (λ fault. fault ≡ ClusterFault.Job Fault.OutOfMemory) }
{
    match world.settle() {
        Ok(settled) => Ok(settled),
        Err(_) => Err(ClusterFault::Job(Fault::OutOfMemory)),
    }
}
