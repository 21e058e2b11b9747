//! The threads of a run, all at once.
ghost use Rattle.std.specs.Prelude.{◌≡◌, IfOk, map};
ghost use Rattle.std.specs.List.{AllZip};
ghost use Rattle.sup_posts.specs.Drives.{IsDriveOf, IsSharedNodeOf, HaveWhole, dealt_by};
ghost use Rattle.sup_posts.specs.Jobs.{GivesDriven};
ghost use Rattle.sup_driving.specs.Called.{stood_by};
ghost use Rattle.sup_driving.specs.Launches.{launched_by, results_of};
ghost use Rattle.sup_driving.specs.PlannedRuns.{planned_by};

use crate::field::Field;
use crate::gathering::gather_all;
use crate::launched::{Launched, RunBy};
use crate::planned_run::PlannedRun;
use crate::runner::{Checkpoint, Runner};
use crate::teams::split_all;
use std::alloc::{AllocError, Global};
use std::sync::Wait;
use std::thread::Threads;
use sup_crew::run_teams;
use sup_placement::Weigh;
use sup_posts::{Drive, SharedNode};

/// Makes a run: does the jobs of the drivers of its plan's nodes, which nobody called yet, each in a thread of its own, with one more for
/// each of their links, and gives what each driver hands back, in their order: its commands stand in its node's history, each once with its
/// moment, and what the links make of the letters of all answers that the history had then, and of nothing else, is delivered to the other
/// nodes. The threads make no other calls but exits, with the reason `failed`, of runs that didn't start: each of a run that an answer to the
/// thread began, of which the runner answered so, and at the moment of the command or the delivery to which it was. Of each node the runner
/// was told all effects of its answers to the driver and its receivers, by the node's name, and the checkpoint each command, with its place
/// and what its answer asks for.
/// Of the faults of a driver and of the receivers behind its links the gravest is told: want of memory before a full history, and that
/// before a closed link. Such a driver still ends its links, and a receiver at a full history still takes what comes, and throws it away: so
/// the others come to their ends. With this it gives by whom the run was made, the planned run's runner and checkpoint.
///
/// # Errors
///
/// Where memory was refused, or a thread couldn't be made.
pub fn launch<
    'a,
    R: Threads + Wait + Sync,
    W: Weigh + Send + Sync,
    N: Runner + Sync,
    C: Checkpoint + Sync,
>(
    rt: &R,
    alloc: Global,
    weigher: &W,
    planned: PlannedRun<'a, N, C>,
    posts: &[SharedNode<W>],
    drives: Vec<Drive<W>>,
) -> Result<Launched<'a, W, N, C>, AllocError>
    requires nodes { AllZip (IsSharedNodeOf planned.plan.config planned.bound) planned.plan.nodes.items posts.now }
    requires drives { AllZip (IsDriveOf planned.plan posts.now) posts.now drives.items }
    requires whole { HaveWhole (map (λ d. d.seat) drives.items) (dealt_by drives.items) }
    ensures driven { IfOk result (λ launched. AllZip (GivesDriven (N.did planned.entry.runner) (stood_by C.was_before C.was_answered planned.entry.checkpoint) posts.now) drives.items (results_of launched)) }
    ensures ran_by { IfOk result (λ launched. launched_by launched ≡ planned_by planned.entry) }
{
    let teams = split_all(alloc, posts, drives)?;
    let field = Field {
        rt,
        alloc,
        posts,
        weigher,
        runner: planned.runner,
        checkpoint: planned.checkpoint,
    };
    let done = run_teams(rt, alloc, teams, &field)?;
    let results = gather_all(alloc, done)?;
    Ok(Launched {
        results,
        by: RunBy {
            runner: planned.runner,
            checkpoint: planned.checkpoint,
        },
    })
}
