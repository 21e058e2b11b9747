//! The command `cluster`.

ghost use Rattle.std.specs.Prelude.{◌≡◌, ◌≤◌, ◌+◌, length, string_bytes, Ok, Err, IfErr, IfOk, IfSome};
ghost use Rattle.sup_jobs.specs.Ends.{TakesAtMost};
ghost use Rattle.sup_plan.specs.Plans.{IsPlan};
ghost use Rattle.sup_clustering.specs.CertifiedPlans.{IsRefused, PrintsCluster};
ghost use Rattle.sup_clustering.specs.ClusterRuns.{RunsCluster, ClustersTo, PrintsShort, TakesFor, all_start};

use crate::certified::plan_text;
use crate::told::Told;
use std::alloc::Global;
use std::io::{Read, Write};
use std::sync::Wait;
use std::thread::Threads;
use sup_cluster::{PlannedRun, Quiet};
use sup_cluster_texts::{ClusterFault, finish, read_plan};
use sup_jobs::{Ended, Fault, LIMIT, put_all, read_input};
use sup_node_gate::MAX_BOUND;
use sup_placement::Weigh;
use sup_plan::Plan;
use sup_replica::Config;

/// Runs the script that the reader has by threads, each of its nodes with this setting: writes what its nodes know once they have exchanged
/// all, and answers how that ended, once a fault is told. Nothing is written of a script with a bad line, of a longer one than may be
/// read, or of a run that isn't certified; that it isn't is told only where no order of all entries is a run of the world.
pub fn run_cluster<
    T: Threads + Wait + Sync,
    G: Weigh + Copy + Drop + Send + Sync,
    R: Read,
    W: Write,
    E: Write,
>(
    rt: &T,
    alloc: Global,
    weigher: &G,
    config: Config,
    reader: &mut R,
    writer: &mut W,
    errors: &mut E,
) -> Ended
    ensures clusters { RunsCluster G.weight_of config (R.remaining reader.old) (R.remaining reader.new)
        (W.contents writer.old) (W.contents writer.new) (E.contents errors.old)
        (E.contents errors.new) result }
    // The error writer can't fail at a good end, of which nothing is told.
    ensures quiet { result.status ≡ 0 → result.told ≡ Ok tt }
    ensures taken { TakesAtMost (LIMIT + 1) (R.remaining reader.old) (R.remaining reader.new) }
{
    let end = run_input(rt, alloc, weigher, config, reader, writer);
    finish(errors, end)
}

// Reads a script, and runs it.
fn run_input<T: Threads + Wait + Sync, G: Weigh + Copy + Drop + Send + Sync, R: Read, W: Write>(
    rt: &T,
    alloc: Global,
    weigher: &G,
    config: Config,
    reader: &mut R,
    writer: &mut W,
) -> Result<(), ClusterFault>
    ensures ends { IfSome (R.remaining reader.old) (λ bytes.
        ClustersTo G.weight_of config bytes (W.contents writer.old) (W.contents writer.new) result) }
    ensures taken { TakesFor result (R.remaining reader.old) (R.remaining reader.new) }
{
    let input = match read_input(alloc, reader) {
        Ok(input) => input,
        Err(fault) => return Err(ClusterFault::Job(Fault::from(fault))),
    };
    run_bytes(rt, alloc, weigher, config, input.as_slice(), writer)
}

// The whole script is checked before its threads are made, and the whole text stands before anything is written.
fn run_bytes<T: Threads + Wait + Sync, G: Weigh + Copy + Drop + Send + Sync, W: Write>(
    rt: &T,
    alloc: Global,
    weigher: &G,
    config: Config,
    input: &[u8],
    writer: &mut W,
) -> Result<(), ClusterFault>
    requires { length input.now ≤ LIMIT }
    ensures ends { ClustersTo G.weight_of config input.now (W.contents writer.old) (W.contents writer.new) result }
    // The device fails only once there is something to write.
    ensures device { result ≡ Err (ClusterFault.Job Fault.Device)
        → PrintsShort G.weight_of config input.now (W.contents writer.old) (W.contents writer.new) }
{
    let plan = match read_plan(alloc, config, input) {
        Ok(plan) => plan,
        Err(fault) => return Err(ClusterFault::Job(fault)),
    };
    let text = match certified_text(rt, alloc, weigher, &plan) {
        Ok(text) => text,
        Err(fault) => return Err(fault),
    };
    match put_all(writer, text.as_bytes()) {
        Ok(()) => Ok(()),
        Err(_) => Err(ClusterFault::Job(Fault::Device)),
    }
}

// What is told of a run of the plan of which nobody is told. No contract can say that just one is made: so nothing else stands here.
fn certified_text<T: Threads + Wait + Sync, G: Weigh + Copy + Drop + Send + Sync>(
    rt: &T,
    alloc: Global,
    weigher: &G,
    plan: &Plan,
) -> Result<String, ClusterFault>
    requires { IsPlan plan.now }
    ensures prints { IfOk result (λ s. PrintsCluster G.weight_of all_start MAX_BOUND plan.now (string_bytes s)) }
    ensures refused { IfErr result (IsRefused G.weight_of all_start MAX_BOUND plan.now) }
{
    // A plan that is read can be run.
    let Ok(planned) = PlannedRun::new(plan, MAX_BOUND, &Quiet, &Quiet) else {
        unreachable!()
    };
    match plan_text(rt, alloc, weigher, planned) {
        Ok(Told { text, histories: _ }) => Ok(text),
        Err(untold) => Err(untold.fault()),
    }
}
