//! A run of a plan.
ghost use Rattle.std.specs.Prelude.{◌≢◌, ◌≤◌, All, Err, IfOk, length};
ghost use Rattle.sup_node_gate.specs.Gates.{IsBound};
ghost use Rattle.sup_plan.specs.Plans.{IsPlan};
ghost use Rattle.sup_posts.specs.declared.fault.RunFault.TheVariants.{BadPlan};
ghost use Rattle.sup_driving.specs.Called.{stood_by};
ghost use Rattle.sup_cluster.specs.Ran.{IsRanBy};
ghost use Rattle.sup_cluster.specs.Runs.{IsRunOf, AllStoodBy};

use crate::run_histories::RunHistories;
use std::alloc::Global;
use std::sync::Wait;
use std::thread::Threads;
use sup_driving::{Checkpoint, PlannedRun, Runner, launch};
use sup_placement::Weigh;
use sup_posts::RunFault;
use sup_run_ends::{make_drives, open_posts};

/// Makes a run: each node of its plan is driven by the plan's commands, over links by its scripts, in threads of their own. What is to
/// be done with nodes' children is told its runner, and its checkpoint stands by each command. Gives what happened at each node, with
/// the run's runner and checkpoint: so the histories of another run can't stand in its place.
///
/// # Errors
///
/// - `HistoryFull` where a node's history would have had more entries than it may.
/// - `LinkClosed` where a link's other end was gone.
/// - `OutOfMemory` where memory was refused, or a thread couldn't be made. Of several faults this is told first, and a closed link last.
pub fn run<
    'a,
    R: Threads + Wait + Sync,
    W: Weigh + Send + Sync,
    N: Runner + Sync,
    C: Checkpoint + Sync,
>(
    rt: &R,
    alloc: Global,
    planned: PlannedRun<'a, N, C>,
    weigher: &W,
) -> Result<RunHistories<'a, N, C>, RunFault>
    requires plan { IsPlan planned.plan }
    requires bound { IsBound planned.bound }
    ensures good { result ≢ Err BadPlan }
    ensures run { IfOk result (λ ran. IsRunOf W.weight_of (N.did planned.entry.runner) planned.entry.plan ran.histories) }
    ensures stood { IfOk result (λ ran. AllStoodBy (N.did planned.entry.runner) (stood_by C.was_before C.was_answered planned.entry.checkpoint) planned.entry.plan ran.histories) }
    ensures bound { IfOk result (λ ran. All (λ h. length h.entries.items ≤ planned.entry.bound) ran.histories) }
    ensures ran_by { IfOk result (IsRanBy planned.entry) }
{
    let plan = planned.plan();
    let (posts, seats) = open_posts(alloc, plan.config, planned.bound(), &plan.nodes)?;
    let drives = make_drives(alloc, plan, &posts, seats)?;
    let launched = launch(rt, alloc, weigher, planned, &posts, drives)?;
    let ran = RunHistories::of(alloc, posts, launched)?;
    Ok(ran)
}
