//! Judges the histories of a run of the script on standard input by threads, and makes the same steps in a world, so many times each, for
//! a clock outside. Prints how many steps there are. Words: JUDGEMENTS REPLAYS.
#![tactic(auto)]

use std::alloc::Global;
use std::env;
use std::io::{self, Error, ErrorKind, Read};
use std::sync::Wait;
use std::thread::Threads;
use sup_certify::certify;
use sup_cluster::{PlannedRun, Quiet, run};
use sup_cluster_texts::read_plan;
use sup_jobs::LIMIT;
use sup_model::Step;
use sup_node_gate::MAX_BOUND;
use sup_placement::FlatWeigh;
use sup_plan::{Histories, Plan};
use sup_replica::Config;
use sup_world::{World, has_bytes};

fn invalid() -> Error {
    Error::from(ErrorKind::InvalidData)
}

// The steps of the run, which is judged so many times more.
fn judged(alloc: Global, plan: &Plan, histories: &Histories, times: u32) -> io::Result<Vec<Step>> {
    for _ in 0..times {
        certify(alloc, plan, histories, FlatWeigh).map_err(|_| invalid())?;
    }
    let run = certify(alloc, plan, histories, FlatWeigh).map_err(|_| invalid())?;
    Ok(run.steps)
}

fn replay(alloc: Global, plan: &Plan, steps: &[Step]) -> io::Result<()> {
    let mut world = World::new(alloc, &plan.nodes, plan.config, FlatWeigh).map_err(|_| invalid())?;
    for step in steps {
        if !has_bytes(step) {
            let _answer = world.step(step);
        }
    }
    Ok(())
}

fn play<R: Threads + Wait + Sync>(
    rt: &R,
    alloc: Global,
    script: &[u8],
    counts: (u32, u32),
) -> io::Result<usize> {
    let (judgements, replays) = counts;
    if script.len() > LIMIT {
        return Err(invalid());
    }
    let plan = read_plan(alloc, Config::default(), script).map_err(|_| invalid())?;
    let planned = PlannedRun::new(&plan, MAX_BOUND, &Quiet, &Quiet).map_err(|_| invalid())?;
    let histories = run(rt, alloc, planned, &FlatWeigh).map_err(|_| invalid())?;
    let steps = judged(alloc, &plan, histories.histories(), judgements)?;
    for _ in 0..replays {
        replay(alloc, &plan, &steps)?;
    }
    Ok(steps.len())
}

fn main(rt: HostRuntime) -> io::Result<()> {
    let words: Vec<String> = env::args(&rt)?.skip(1).collect(rt.alloc())?;
    let counts = counts_of(&words).ok_or(invalid())?;
    let mut script = Vec::new(rt.alloc());
    rt.stdin().read_to_end(&mut script)?;
    let steps = play(&rt, rt.alloc(), &script, counts)?;
    println!(rt; "{steps}")?;
    Ok(())
}

fn counts_of(words: &[String]) -> Option<(u32, u32)> {
    match words {
        [judgements, replays] => Some((judgements.parse().ok()?, replays.parse().ok()?)),
        _ => None,
    }
}
