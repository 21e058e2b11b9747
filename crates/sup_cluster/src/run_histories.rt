//! What a run gave.
ghost use Rattle.std.specs.Prelude.{◌≡◌, IfOk, IfErr};
ghost use Rattle.std.specs.List.{AllZip};
ghost use Rattle.sup_driving.specs.Launches.{launched_by, results_of};
ghost use Rattle.sup_run_ends.specs.Steps.{AreFinished, IsFaultOf, ReturnsDriven};

use std::alloc::Global;
use std::marker::Model;
use sup_driving::{Launched, RunBy};
use sup_placement::Weigh;
use sup_plan::{Histories, History};
use sup_posts::{SharedNode, ThreadFault};
use sup_run_ends::finish;

/// The histories of a run's nodes, in their order, and by whom it was made. Only [`run`](crate::run) makes them, of what the threads of its
/// planned run hand back, and nobody changes or copies them, or reads the runner and the checkpoint back. So code that may be given any of
/// these two has no other value of this type than that of the run that it was given. A contract sees a list, and who made the run.
#[derive(Drop)]
pub struct RunHistories<'a, N, C> {
    histories: Histories,
    by: RunBy<'a, N, C>,
}

impl<'a, N, C> Model for RunHistories<'a, N, C> {
    ghost use Rattle.sup_cluster.specs.Ran.{Ran};

    ghost Value = { Ran N C };

    ghost view = { λ ran. record { histories = ran.histories; by = ran.by } };
}

impl<'a, N, C> RunHistories<'a, N, C> {
    // The histories of these nodes, of what a launched run's drivers hand back. There is no other way to make them.
    pub(crate) fn of<W: Weigh>(
        alloc: Global,
        posts: Vec<SharedNode<W>>,
        launched: Launched<'a, W, N, C>,
    ) -> Result<RunHistories<'a, N, C>, ThreadFault>
        requires { AllZip (ReturnsDriven posts.items) posts.items (results_of launched) }
        ensures histories { IfOk result (λ ran. AreFinished W.weight_of posts.items (results_of launched.entry) ran.histories) }
        ensures ran_by { IfOk result (λ ran. ran.by ≡ launched_by launched.entry) }
        ensures fault { IfErr result (IsFaultOf (results_of launched.entry)) }
    {
        let (results, by) = launched.take_apart();
        let histories = finish(alloc, posts, results)?;
        Ok(RunHistories { histories, by })
    }

    /// The histories.
    pub fn histories(&self) -> &Histories
        ensures { result.now ≡ self.now.histories }
    {
        &self.histories
    }

    /// The histories, in their order.
    pub fn as_slice(&self) -> &[History]
        ensures { result.now ≡ self.now.histories }
    {
        self.histories.as_slice()
    }

    /// The histories alone.
    pub fn into_histories(self) -> Histories
        ensures { result ≡ self.entry.histories }
    {
        let RunHistories { histories, by: _ } = self;
        histories
    }
}
