//! Runs whose histories may have few entries.
ghost use Rattle.std.specs.Prelude.{◌≡◌, ◌≢◌, true, Err, IfOk};
ghost use Rattle.sup_node_gate.specs.Gates.{IsBound};
ghost use Rattle.sup_placement.specs.Weights.{flat_weight};
ghost use Rattle.sup_plan.specs.Plans.{IsPlan};
ghost use Rattle.sup_posts.specs.declared.fault.RunFault.TheVariants.{BadPlan};
ghost use Rattle.sup_cluster.specs.Runs.{IsRunOf};

use crate::given::{is_certified, join, linked, plan, push, start, told, wait_for};
use std::process::Abort;
use std::sync::Wait;
use std::sync::atomic::{AtomicBool, Ordering};
use std::thread::Threads;
use sup_cluster::{Checkpoint, PlannedRun, Quiet, Requests, run};
use sup_links::Verdict;
use sup_placement::FlatWeigh;
use sup_plan::{Command, Histories, Plan};
use sup_posts::RunFault;
use sup_specs::NodeName;

// Runs a plan where each history may have so many entries.
fn run_within<R: Threads + Wait + Sync + AllocGlobal, C: Checkpoint + Sync>(
    rt: &R,
    plan: &Plan,
    bound: u64,
    checkpoint: &C,
) -> Result<Histories, RunFault>
    requires { IsBound bound }
    ensures bad { ¬ (IsPlan plan.now) → result ≡ Err BadPlan }
    ensures good { IsPlan plan.now → result ≢ Err BadPlan }
    ensures run { IfOk result (λ histories. IsRunOf flat_weight (λ node effect answer. answer ≡ true) plan.now histories) }
{
    let planned = PlannedRun::new(plan, bound, &Quiet, checkpoint)?;
    let ran = run(rt, rt.alloc(), planned, &FlatWeigh)?;
    Ok(ran.into_histories())
}

// Node a has two commands, and b none.
fn two_commands(rt: &(impl Abort + AllocGlobal)) -> Plan {
    let plan = told(rt, plan(rt, &["a", "b"]), "a", join(rt));
    told(rt, plan, "a", start(rt, "x"))
}

#[test]
fn a_history_of_one_entry_has_no_room_for_two_commands(rt: HostRuntime) {
    let plan = two_commands(&rt);
    let ended = run_within(&rt, &plan, 1, &Quiet);
    assert!(rt; matches!(ended, Err(RunFault::HistoryFull)));
}

#[test]
fn a_history_may_have_as_many_entries_as_its_bound(rt: HostRuntime) {
    let plan = two_commands(&rt);
    let Ok(histories) = run_within(&rt, &plan, 2, &Quiet) else {
        panic!(rt; "no histories")
    };
    assert!(rt; histories.as_slice()[0].entries.len() == 2);
    assert!(rt; is_certified(&rt, &plan, &histories));
}

// B's history has room for its own commands and fifteen deliveries. Behind the one that finds it full twenty messages more come from a: more
// than wait in a link.
const BOUND: u64 = 40;

const STARTS: u64 = 25;

const PUSHES: u64 = 36;

// Nothing comes to a, so that its history has room for all its commands: a push is not acknowledged, and what b put would be lost.
fn many_messages(rt: &(impl Abort + AllocGlobal)) -> Plan {
    let lost = [Verdict::Lose; 16];
    let mut plan = linked(rt, plan(rt, &["a", "b"]), "b", "a", &lost);
    plan = told(rt, plan, "a", start(rt, "x"));
    for _ in 0..PUSHES {
        plan = told(rt, plan, "a", push(rt, "b"));
    }
    for _ in 0..STARTS {
        plan = told(rt, plan, "b", start(rt, "y"));
    }
    plan
}

// Whether b's last command was answered, and a's.
#[derive(Drop)]
struct Lamps {
    started: AtomicBool,
    pushed: AtomicBool,
}

impl Checkpoint for Lamps {
    ghost was_before = { λ lamps node command place. Unit {0} };

    ghost was_answered = { λ lamps node place effects. Unit {0} };

    fn before(&self, node: &NodeName, place: u64, _command: &Command) {
        if node.as_str() == "a" && place == 2 {
            wait_for(&self.started);
        }
    }

    fn answered(&self, node: &NodeName, place: u64, _asks: &Requests) {
        match node.as_str() {
            "b" if place == STARTS => self.started.store(true, Ordering::SeqCst),
            "a" if place == PUSHES + 1 => self.pushed.store(true, Ordering::SeqCst),
            _ => {}
        }
    }
}

#[test]
fn a_driver_makes_all_its_commands_though_another_nodes_history_is_full(rt: HostRuntime) {
    let lamps = Lamps {
        started: AtomicBool::new(false),
        pushed: AtomicBool::new(false),
    };
    let plan = many_messages(&rt);
    let ended = run_within(&rt, &plan, BOUND, &lamps);
    assert!(rt; matches!(ended, Err(RunFault::HistoryFull)));
    // A receiver that had dropped its end would have closed the link.
    assert!(rt; lamps.pushed.load(Ordering::SeqCst));
}
