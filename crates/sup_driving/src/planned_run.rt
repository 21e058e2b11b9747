//! One run of a plan, not made yet.
ghost use Rattle.std.specs.Prelude.{◌≡◌, IfOk, IfErr};
ghost use Rattle.sup_node_gate.specs.Gates.{IsBound};
ghost use Rattle.sup_plan.specs.Plans.{IsPlan};
ghost use Rattle.sup_posts.specs.declared.fault.RunFault.TheVariants.{BadPlan};

use std::marker::Model;
use sup_plan::{Plan, is_plan};
use sup_posts::RunFault;

/// One run of a plan that can be run, how many entries each history may have, and who is told of it: only [`launch`](crate::launch) can tell
/// them, which uses the run up.
#[derive(Drop)]
pub struct PlannedRun<'a, N, C> {
    plan: &'a Plan,
    bound: u64,
    pub(crate) runner: &'a N,
    pub(crate) checkpoint: &'a C,
}

impl<'a, N, C> Model for PlannedRun<'a, N, C> {
    ghost use Rattle.sup_driving.specs.PlannedRuns.{Planned};

    ghost Value = { Planned N C };

    ghost view = { λ p. record { plan = p.plan.now; bound = p.bound; runner = p.runner.now; checkpoint = p.checkpoint.now } };
}

impl<'a, N, C> PlannedRun<'a, N, C> {
    /// A run of this plan, of which these are told. Each node's history may have `bound` entries, from 1 to
    /// [`MAX_BOUND`](sup_node_gate::MAX_BOUND).
    ///
    /// # Errors
    ///
    /// `BadPlan` where [`is_plan`] refuses the plan, and only there.
    pub fn new(
        plan: &'a Plan,
        bound: u64,
        runner: &'a N,
        checkpoint: &'a C,
    ) -> Result<PlannedRun<'a, N, C>, RunFault>
        requires { IsBound bound }
        ensures planned { IfOk result (λ p. p ≡ record { plan = plan.now; bound = bound; runner = runner.now; checkpoint = checkpoint.now }) }
        ensures good { IfOk result (λ p. IsPlan plan.now) }
        ensures bad { IfErr result (λ f. ¬ (IsPlan plan.now)) }
        ensures fault { IfErr result (λ f. f ≡ BadPlan) }
    {
        if !is_plan(plan) {
            return Err(RunFault::BadPlan);
        }
        Ok(PlannedRun {
            plan,
            bound,
            runner,
            checkpoint,
        })
    }

    /// The plan.
    pub fn plan(&self) -> &'a Plan
        ensures { result.now ≡ self.now.plan }
    {
        self.plan
    }

    /// How many entries each history may have.
    pub fn bound(&self) -> u64
        ensures { result ≡ self.now.bound }
    {
        self.bound
    }
}
