//! Jobs that wait for one another get on, since none waits for another's end.
ghost use Rattle.std.specs.Prelude.{⊤};

use crossbeam_channel::{Receiver, Sender, unbounded};
use std::sync::Wait;
use sup_crew::{Team, Work, run_all, run_teams};

#[derive(Drop)]
enum Side {
    Tells(Sender<u64>),
    Hears(Receiver<u64>),
}

#[derive(Drop)]
struct Talks<'a, R> {
    rt: &'a R,
}

// A side gives the number that it told or heard, or none where the other side is gone.
impl<'a, R: Wait> Work<Side, Option<u64>> for Talks<'a, R> {
    ghost takes = { λ work job. ⊤ };

    ghost gives = { λ work job done. ⊤ };

    fn run(&self, job: Side) -> Option<u64> {
        match job {
            Side::Tells(to) => to.send(self.rt, 7).ok().map(|()| 7),
            Side::Hears(from) => from.recv(self.rt).ok(),
        }
    }
}

#[test]
fn a_job_waits_for_the_one_behind_it(rt: HostRuntime) {
    let (to, from) = unbounded(rt.alloc()).expect(&rt, "room");
    let mut jobs = Vec::new(rt.alloc());
    jobs.push(Side::Hears(from)).expect(&rt, "room");
    jobs.push(Side::Tells(to)).expect(&rt, "room");
    let done = run_all(&rt, rt.alloc(), jobs, &Talks { rt: &rt }).expect(&rt, "room");
    assert!(rt; done.as_slice() == [Some(7), Some(7)].as_slice());
}

#[test]
fn jobs_of_two_teams_wait_for_one_another(rt: HostRuntime) {
    let (to_first, from_second) = unbounded(rt.alloc()).expect(&rt, "room");
    let (to_second, from_first) = unbounded(rt.alloc()).expect(&rt, "room");
    let mut first = Vec::new(rt.alloc());
    first.push(Side::Tells(to_second)).expect(&rt, "room");
    let mut second = Vec::new(rt.alloc());
    second.push(Side::Tells(to_first)).expect(&rt, "room");
    let mut teams = Vec::new(rt.alloc());
    teams
        .push(Team {
            lead: Side::Hears(from_second),
            others: first,
        })
        .expect(&rt, "room");
    teams
        .push(Team {
            lead: Side::Hears(from_first),
            others: second,
        })
        .expect(&rt, "room");
    let done = run_teams(&rt, rt.alloc(), teams, &Talks { rt: &rt }).expect(&rt, "room");
    assert!(rt; done.len() == 2);
    for team in &done {
        assert!(rt; team.lead == Some(7));
        assert!(rt; team.others.as_slice() == [Some(7)].as_slice());
    }
}
