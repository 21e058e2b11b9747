//! The results of jobs in teams come team by team.
ghost use Rattle.std.specs.Prelude.{◌≡◌, ⊤, ◌*◌, length, IfSome};

use std::process::Abort;
use sup_crew::{Team, Work, run_teams};

// What all threads share: the factor by which numbers are taken.
struct Times {
    factor: u64,
}

// One that leads gives the length of its bytes.
impl<'a> Work<&'a [u8], usize> for Times {
    ghost takes = { λ work job. ⊤ };

    ghost gives = { λ work job done. done ≡ length job.now };

    fn run(&self, job: &'a [u8]) -> usize {
        job.len()
    }
}

// The others give their number taken as often as the factor says, or none where that is too large.
impl Work<u32, Option<u64>> for Times {
    ghost takes = { λ work job. ⊤ };

    ghost gives = { λ work job done. IfSome done (λ n. n ≡ work.factor * job) };

    fn run(&self, job: u32) -> Option<u64> {
        self.factor.checked_mul(job as u64)
    }
}

fn team_of<'a>(
    rt: &(impl Abort + AllocGlobal),
    lead: &'a [u8],
    others: &[u32],
) -> Team<&'a [u8], u32> {
    Team {
        lead,
        others: others.to_vec(rt.alloc()).expect(rt, "room"),
    }
}

#[test]
fn results_come_team_by_team_in_order(rt: HostRuntime) {
    let bytes = [1, 2, 3, 4, 5];
    let (front, back) = bytes.split_at(2);
    let mut teams = Vec::new(rt.alloc());
    teams
        .push(team_of(&rt, front, &[5, 3, 9]))
        .expect(&rt, "room");
    teams.push(team_of(&rt, back, &[1, 3])).expect(&rt, "room");
    let done = run_teams(&rt, rt.alloc(), teams, &Times { factor: 10 }).expect(&rt, "room");
    assert!(rt; done.len() == 2);
    assert!(rt; done[0].lead == 2);
    assert!(rt; done[0].others.as_slice() == [Some(50), Some(30), Some(90)].as_slice());
    assert!(rt; done[1].lead == 3);
    assert!(rt; done[1].others.as_slice() == [Some(10), Some(30)].as_slice());
}

#[test]
fn a_team_without_others_has_one_result(rt: HostRuntime) {
    let mut teams = Vec::new(rt.alloc());
    teams
        .push(team_of(&rt, &[7, 7, 7], &[]))
        .expect(&rt, "room");
    teams.push(team_of(&rt, &[], &[4])).expect(&rt, "room");
    let done = run_teams(&rt, rt.alloc(), teams, &Times { factor: 2 }).expect(&rt, "room");
    assert!(rt; done.len() == 2);
    assert!(rt; done[0].lead == 3);
    assert!(rt; done[0].others.is_empty());
    assert!(rt; done[1].lead == 0);
    assert!(rt; done[1].others.as_slice() == [Some(8)].as_slice());
}

#[test]
fn of_no_teams_there_are_no_results(rt: HostRuntime) {
    let teams: Vec<Team<&[u8], u32>> = Vec::new(rt.alloc());
    let done = run_teams(&rt, rt.alloc(), teams, &Times { factor: 2 }).expect(&rt, "room");
    assert!(rt; done.is_empty());
}
