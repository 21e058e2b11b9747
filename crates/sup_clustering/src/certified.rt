//! A planned run by threads, and what is told of its end.

ghost use Rattle.std.specs.Prelude.{◌≡◌, IfErr, IfOk, Ok, string_bytes};
ghost use Rattle.sup_node_gate.specs.Gates.{IsBound};
ghost use Rattle.sup_plan.specs.Plans.{IsPlan};
ghost use Rattle.sup_cluster.specs.Ran.{IsRanBy};
ghost use Rattle.sup_clustering.specs.CertifiedPlans.{IsGiven, IsUntold, IsUntoldOf};
ghost use Rattle.sup_clustering.specs.Verdicts.{PrintsRun};

use crate::told::{Told, Untold};
use crate::verdict::judged_text;
use std::alloc::Global;
use std::sync::Wait;
use std::thread::Threads;
use sup_cluster::{PlannedRun, Quiet, RunHistories, Runner, run};
use sup_placement::Weigh;
use sup_plan::Plan;
use sup_posts::RunFault;

/// Makes a planned run by threads, and gives what is printed of its nodes once the run is certified and they have settled. What is to be
/// done with their children is told its runner. The run is used up: what is told is told of this one, whose histories stand beside it.
///
/// # Errors
///
/// - `Stopped` with why the threads gave no histories, which is never a bad plan.
/// - `Refused` with the run's histories, and why these are no run, in whatever order; or `OutOfMemory`, which stands also where settling is
///   refused.
pub fn plan_text<
    'a,
    T: Threads + Wait + Sync,
    G: Weigh + Copy + Drop + Send + Sync,
    N: Runner + Sync,
>(
    rt: &T,
    alloc: Global,
    weigher: &G,
    planned: PlannedRun<'a, N, Quiet>,
) -> Result<Told<'a, N>, Untold<'a, N>>
    requires plan { IsPlan planned.plan }
    requires bound { IsBound planned.bound }
    ensures prints { IfOk result (λ told. PrintsRun G.weight_of planned.entry.plan told.histories.histories (string_bytes told.text)) }
    ensures given { IfOk result (λ told. IsGiven G.weight_of (N.did planned.entry.runner) planned.entry.bound planned.entry.plan told.histories.histories) }
    ensures ran_by { IfOk result (λ told. IsRanBy planned.entry told.histories) }
    ensures untold { IfErr result (IsUntold G.weight_of (N.did planned.entry.runner) planned.entry) }
{
    let plan = planned.plan();
    let ended = run(rt, alloc, planned, weigher);
    ended_text(alloc, weigher, plan, ended)
}

// What is told of threads that ended so: the verdict over just these histories, or just this fault. Nothing runs by threads here, so no
// verdict can be put off for another run's.
fn ended_text<'a, G: Weigh + Copy + Drop, N>(
    alloc: Global,
    weigher: &G,
    plan: &Plan,
    ended: Result<RunHistories<'a, N, Quiet>, RunFault>,
) -> Result<Told<'a, N>, Untold<'a, N>>
    ensures prints { IfOk result (λ told. PrintsRun G.weight_of plan.now told.histories.histories (string_bytes told.text)) }
    ensures these { IfOk result (λ told. ended.entry ≡ Ok told.histories) }
    ensures untold { IfErr result (IsUntoldOf G.weight_of plan.now ended.entry) }
{
    match ended {
        Ok(histories) => match judged_text(alloc, weigher, plan, histories.histories()) {
            Ok(text) => Ok(Told { text, histories }),
            Err(fault) => Err(Untold::Refused(fault, histories)),
        },
        Err(fault) => Err(Untold::Stopped(fault)),
    }
}
