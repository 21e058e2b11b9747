//! Threads that start threads, over one field that they share.
ghost use Rattle.std.specs.Prelude.{◌≡◌, ⊤, IfOk};
ghost use Rattle.std.specs.List.{AllZip, slice_get};
ghost use Rattle.std.specs.Thread.{IsSync};
ghost use Rattle.sup_crew_tests.specs.Weights.{AreWeightsAt};

use std::alloc::{AllocError, Global};
use std::process::Abort;
use std::sync::Wait;
use std::thread::Threads;
use sup_crew::{Work, run_all};

// What all threads look at.
#[derive(Drop)]
struct Field<'a, R> {
    rt: &'a R,
    alloc: Global,
    weights: &'a [u64],
}

// Asks for the weights at places, each in a thread of its own.
#[derive(Drop)]
struct Team {
    places: Vec<usize>,
}

// The weights at the places of a team.
type Found = Result<Vec<Option<u64>>, AllocError>;

// Asked for the weight at a place.
impl<'a, R> Work<usize, Option<u64>> for Field<'a, R> {
    ghost takes = { λ field place. ⊤ };

    ghost gives = { λ field place weight. weight ≡ slice_get field.weights.now place };

    fn run(&self, place: usize) -> Option<u64> {
        self.weights.get(place).copied()
    }
}

impl<'a, R: Threads + Wait + Sync> Work<Team, Result<Vec<Option<u64>>, AllocError>>
    for Field<'a, R> {
    ghost takes = { λ field team. IsSync R.row };

    ghost gives = { λ field team found. IfOk found (λ r. AreWeightsAt field.weights.now team.places.items r.items) };

    fn run(&self, team: Team) -> Found {
        run_all(self.rt, self.alloc, team.places, self)
    }
}

fn team_of(rt: &(impl Abort + AllocGlobal), places: &[usize]) -> Team {
    Team {
        places: places.to_vec(rt.alloc()).expect(rt, "room"),
    }
}

// The weights at the places of each team, in the order of the teams.
fn find_all<R: Threads + Wait + Sync>(
    rt: &R,
    alloc: Global,
    weights: &[u64],
    teams: Vec<Team>,
) -> Result<Vec<Found>, AllocError>
    ensures { IfOk result (λ all. AllZip (λ team found. IfOk found (λ r. AreWeightsAt weights.now team.places.items r.items)) teams.items all.items) }
{
    run_all(rt, alloc, teams, &Field { rt, alloc, weights })
}

#[test]
fn threads_start_threads_over_one_field(rt: HostRuntime) {
    let mut teams = Vec::new(rt.alloc());
    teams.push(team_of(&rt, &[2, 0])).expect(&rt, "room");
    teams.push(team_of(&rt, &[])).expect(&rt, "room");
    teams.push(team_of(&rt, &[3, 1, 1])).expect(&rt, "room");
    let mut found = Vec::new(rt.alloc());
    for done in find_all(&rt, rt.alloc(), &[10, 20, 30], teams).expect(&rt, "room") {
        let weights = done.expect(&rt, "room");
        found.push(weights).expect(&rt, "room");
    }
    assert!(rt; found.len() == 3);
    assert!(rt; found[0].as_slice() == [Some(30), Some(10)].as_slice());
    assert!(rt; found[1].is_empty());
    assert!(rt; found[2].as_slice() == [None, Some(20), Some(20)].as_slice());
}
