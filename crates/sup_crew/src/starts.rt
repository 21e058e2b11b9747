//! A thread for each job.
ghost use Rattle.std.specs.Prelude.{◌≡◌, IfOk, All};
ghost use Rattle.std.specs.List.{AllZip};
ghost use Rattle.sup_crew.specs.Promises.{IsFor};

use crate::work::{Given, Work};
use std::alloc::{AllocError, Global};
use std::snapshot::Snapshot;
use std::thread::{PromisedHandle, Scope};

// Starts a thread of the scope for the job. Refused where it can't be made: then the job is dropped.
pub(crate) fn start<'s, E: 's, J: Send + Drop + 's, T: Send + Drop + 's, W: Work<J, T> + Sync + 's>(
    scope: &Scope<'s, E>,
    job: J,
    work: &'s W,
) -> Result<PromisedHandle<T, Given<J, W>>, AllocError>
    requires { W.takes work.now job }
    ensures { IfOk result (λ h. IsFor work.now job h) }
{
    let promise = Given {
        job: Snapshot::of(&job),
        work: Snapshot::of(work),
    };
    let started = scope.spawn_with(
        promise,
        move || -> T
            requires { W.takes work.now job }
            ensures { W.gives work.entry.now job result }
        { work.run(job) },
    )?;
    Ok(started)
}

// Starts a thread of the scope for each job. Refused where one can't be made: the jobs that have none are dropped, and the threads that
// run are left to the scope.
pub(crate) fn start_all<
    's,
    E: 's,
    J: Send + Drop + 's,
    T: Send + Drop + 's,
    W: Work<J, T> + Sync + 's,
>(
    scope: &Scope<'s, E>,
    alloc: Global,
    jobs: Vec<J>,
    work: &'s W,
) -> Result<Vec<PromisedHandle<T, Given<J, W>>>, AllocError>
    requires { All (W.takes work.now) jobs.items }
    ensures { IfOk result (λ hs. AllZip (IsFor work.now) jobs.items hs.items) }
{
    let mut handles = Vec::with_capacity(alloc, jobs.len())?;
    for job in jobs {
        let started = start(scope, job, work)?;
        handles.push(started)?;
    }
    Ok(handles)
}
