//! What is told of a planned run.

ghost use Rattle.std.specs.Prelude.{◌≡◌, ◌≢◌};
ghost use Rattle.sup_posts.specs.declared.fault.RunFault.TheVariants.{BadPlan};
ghost use Rattle.sup_clustering.specs.declared.told.Untold.TheVariants.{Stopped};
ghost use Rattle.sup_clustering.specs.CertifiedPlans.{fault_of};

use sup_cluster::{Quiet, RunHistories};
use sup_cluster_texts::{ClusterFault, of_run};
use sup_posts::RunFault;

/// The text that is told of a run, and the run's histories.
#[derive(Drop)]
pub struct Told<'a, N> {
    pub text: String,
    pub histories: RunHistories<'a, N, Quiet>,
}

/// Why nothing is told of a run.
#[derive(Drop)]
pub enum Untold<'a, N> {
    /// Its threads gave no histories, by this fault.
    Stopped(RunFault),
    /// The verdict over its histories, and these.
    Refused(ClusterFault, RunHistories<'a, N, Quiet>),
}

impl<'a, N> Untold<'a, N> {
    /// The fault alone, as the command `cluster` tells it, which has no word for a plan that can't be run.
    pub fn fault(self) -> ClusterFault
        requires { self ≢ Stopped BadPlan }
        ensures { result ≡ fault_of self.entry }
    {
        match self {
            Untold::Stopped(fault) => of_run(fault),
            Untold::Refused(fault, _histories) => fault,
        }
    }
}
