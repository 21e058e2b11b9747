//! A run that was made, once its threads have ended.
ghost use Rattle.std.specs.Prelude.{◌≡◌};
ghost use Rattle.sup_driving.specs.Launches.{launched_by, results_of};

use std::marker::Model;
use sup_placement::Weigh;
use sup_posts::{Driven, ThreadFault};

/// By whom a run was made: its runner and its checkpoint. Only [`launch`](crate::launch) makes it, and nobody can copy it, or read the two back:
/// so who is given a planned run can make no second one by the same two.
#[derive(Drop)]
pub struct RunBy<'a, N, C> {
    pub(crate) runner: &'a N,
    pub(crate) checkpoint: &'a C,
}

impl<'a, N, C> Model for RunBy<'a, N, C> {
    ghost use Rattle.sup_driving.specs.PlannedRuns.{By};

    ghost Value = { By N C };

    ghost view = { λ by. record { runner = by.runner.now; checkpoint = by.checkpoint.now } };
}

/// A run that was made: what each driver hands back, in their order, and by whom it was made. Only [`launch`](crate::launch) makes it.
#[derive(Drop)]
pub struct Launched<'a, W: Weigh, N, C> {
    pub(crate) results: Vec<Result<Driven<W>, ThreadFault>>,
    pub(crate) by: RunBy<'a, N, C>,
}

impl<'a, W: Weigh, N, C> Launched<'a, W, N, C> {
    /// What each driver hands back, in their order, and by whom the run was made. Nobody can put them together again.
    pub fn take_apart(self) -> (Vec<Result<Driven<W>, ThreadFault>>, RunBy<'a, N, C>)
        ensures results { result.0.items ≡ results_of self.entry }
        ensures ran_by { result.1 ≡ launched_by self.entry }
    {
        let Launched { results, by } = self;
        (results, by)
    }
}
