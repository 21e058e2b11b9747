//! Jobs in teams, all of which run at once while the calling thread waits for them.
ghost use Rattle.std.specs.Prelude.{IfOk, All};
ghost use Rattle.std.specs.List.{AllZip};
ghost use Rattle.sup_crew.specs.Teams.{AllOfTeam, TeamZip};

use crate::team::Team;
use crate::team_threads::{join_teams, start_teams};
use crate::work::Work;
use std::alloc::{AllocError, Global};
use std::sync::Wait;
use std::thread;
use std::thread::Threads;

/// Does every job of every team, of those that lead and of the others, in a thread of its own, all at once. Gives the results team by
/// team, in the order of the teams, and those of a team's others in the order of these.
///
/// Refused where a thread can't be made or memory runs out: then the jobs that have no thread are dropped, and after that the threads that
/// run are waited for. So a job may wait for an end of a channel that another job has, of its team or of another one, but not for one that
/// stands in another's result: results are kept until all threads have ended.
pub fn run_teams<
    R: Threads + Wait + Sync,
    K: Send + Drop,
    U: Send + Drop,
    J: Send + Drop,
    T: Send + Drop,
    W: Work<K, U> + Work<J, T> + Sync,
>(rt: &R, alloc: Global, teams: Vec<Team<K, J>>, work: &W) -> Result<Vec<Team<U, T>>, AllocError>
    requires { All (AllOfTeam (W.Work-1.takes work.now) (W.Work-2.takes work.now)) teams.items }
    ensures { IfOk result (λ v. AllZip (TeamZip (W.Work-1.gives work.now) (W.Work-2.gives work.now)) teams.items v.items) }
{
    thread::scope(
        thread::scope_env(),
        rt,
        move |scope| -> Result<Vec<Team<U, T>>, AllocError>
            requires { All (AllOfTeam (W.Work-1.takes work.now) (W.Work-2.takes work.now)) teams.items }
            ensures { IfOk result (λ v. AllZip (TeamZip (W.Work-1.gives work.entry.now) (W.Work-2.gives work.entry.now)) teams.items v.items) }
        {
            let started = start_teams(scope, alloc, teams, work)?;
            join_teams(rt, alloc, started)
        },
    )
}
