//! The threads of teams: all are started, and then they are joined.
ghost use Rattle.std.specs.Prelude.{IfOk, All};
ghost use Rattle.std.specs.List.{AllZip};
ghost use Rattle.sup_crew.specs.Promises.{IsFor, IsGivenAt};
ghost use Rattle.sup_crew.specs.Teams.{AllOfTeam, TeamZip};

use crate::starts::{start, start_all};
use crate::team::Team;
use crate::work::{Given, Work};
use std::alloc::{AllocError, Global};
use std::thread;
use std::thread::{PromisedHandle, Scope, Threads};

// The threads of a team.
pub(crate) type TeamThreads<K, U, J, T, W> = Team<
    PromisedHandle<U, Given<K, W>>,
    PromisedHandle<T, Given<J, W>>,
>;

// Starts a thread of the scope for each job of each team. Refused where one can't be made: the jobs that have none are dropped, and the
// threads that run are left to the scope.
pub(crate) fn start_teams<
    's,
    E: 's,
    K: Send + Drop + 's,
    U: Send + Drop + 's,
    J: Send + Drop + 's,
    T: Send + Drop + 's,
    W: Work<K, U> + Work<J, T> + Sync + 's,
>(
    scope: &Scope<'s, E>,
    alloc: Global,
    teams: Vec<Team<K, J>>,
    work: &'s W,
) -> Result<Vec<TeamThreads<K, U, J, T, W>>, AllocError>
    requires { All (AllOfTeam (W.Work-1.takes work.now) (W.Work-2.takes work.now)) teams.items }
    ensures { IfOk result (λ all. AllZip (TeamZip (IsFor work.now) (IsFor work.now)) teams.items all.items) }
{
    let mut started = Vec::with_capacity(alloc, teams.len())?;
    for team in teams {
        let Team { lead, others } = team;
        let lead = start(scope, lead, work)?;
        let others = start_all(scope, alloc, others, work)?;
        started.push(Team { lead, others })?;
    }
    Ok(started)
}

// Joins the threads of a team. Refused where memory runs out: the threads that are not joined are left to their scope.
fn join_team<R: Threads, K, U: Drop, J, T: Drop, W: Work<K, U> + Work<J, T>>(
    rt: &R,
    threads: TeamThreads<K, U, J, T, W>,
) -> Result<Team<U, T>, AllocError>
    ensures { IfOk result (λ done. TeamZip (IsGivenAt W.Work-1.gives) (IsGivenAt W.Work-2.gives) threads done) }
{
    let Team { lead, others } = threads;
    let lead = lead.join(rt);
    let others = thread::join_promised(rt, others)?;
    Ok(Team { lead, others })
}

// Joins the threads of each team. Refused as `join_team` is.
pub(crate) fn join_teams<R: Threads, K, U: Drop, J, T: Drop, W: Work<K, U> + Work<J, T>>(
    rt: &R,
    alloc: Global,
    started: Vec<TeamThreads<K, U, J, T, W>>,
) -> Result<Vec<Team<U, T>>, AllocError>
    ensures { IfOk result (λ all. AllZip (TeamZip (IsGivenAt W.Work-1.gives) (IsGivenAt W.Work-2.gives)) started.items all.items) }
{
    let mut all = Vec::with_capacity(alloc, started.len())?;
    for threads in started {
        let done = join_team(rt, threads)?;
        all.push(done)?;
    }
    Ok(all)
}
