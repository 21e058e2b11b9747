//! A run of a plan with a runner of the caller's.
ghost use Rattle.std.specs.Prelude.{◌≡◌, ◌≢◌, true, Err, IfOk};
ghost use Rattle.sup_placement.specs.Weights.{flat_weight};
ghost use Rattle.sup_plan.specs.Plans.{IsPlan};
ghost use Rattle.sup_posts.specs.declared.fault.RunFault.TheVariants.{BadPlan};
ghost use Rattle.sup_cluster.specs.Runs.{IsRunOf};

use std::alloc::Global;
use std::sync::Wait;
use std::sync::atomic::{AtomicU64, Ordering};
use std::thread::Threads;
use sup_cluster::{PlannedRun, Quiet, Request, Runner, run};
use sup_local_sup::Effect;
use sup_node_gate::MAX_BOUND;
use sup_placement::FlatWeigh;
use sup_plan::{Histories, Plan};
use sup_posts::RunFault;

/// Counts the starts that it is told, in place of making them. No clause speaks of the count.
#[derive(Drop)]
pub struct Starts {
    pub count: AtomicU64,
}

impl Runner for Starts {
    ghost did = { λ starts node effect answer. answer ≡ true };

    fn act(&self, request: Request) -> bool {
        if matches!(request.effect(), Effect::Start { .. }) {
            self.count.fetch_add(1, Ordering::SeqCst);
        }
        true
    }
}

/// Runs a plan: what happened at each of its nodes, and how many starts the runner was told, of which no clause speaks.
///
/// # Errors
///
/// `BadPlan` where no such plan can be run; and as [`run`] tells.
pub fn run_counted<R: Threads + Wait + Sync>(
    rt: &R,
    alloc: Global,
    plan: &Plan,
) -> Result<(Histories, u64), RunFault>
    ensures run { IfOk result (λ r. IsRunOf flat_weight (λ node effect answer. answer ≡ true) plan.now r.0) }
    ensures bad { ¬ (IsPlan plan.now) → result ≡ Err BadPlan }
    ensures good { IsPlan plan.now → result ≢ Err BadPlan }
{
    let runner = Starts {
        count: AtomicU64::new(0),
    };
    let planned = PlannedRun::new(plan, MAX_BOUND, &runner, &Quiet)?;
    let ran = run(rt, alloc, planned, &FlatWeigh)?;
    Ok((ran.into_histories(), runner.count.load(Ordering::SeqCst)))
}
