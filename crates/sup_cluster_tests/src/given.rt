//! What the tests are given.
ghost use Rattle.std.specs.Prelude.{◌≡◌, ◌≢◌, Err, IfOk};
ghost use Rattle.sup_placement.specs.Weights.{flat_weight};
ghost use Rattle.sup_plan.specs.Plans.{IsPlan};
ghost use Rattle.sup_posts.specs.declared.fault.RunFault.TheVariants.{BadPlan};
ghost use Rattle.sup_cluster.specs.Runs.{IsRunOf};

use std::process::Abort;
use std::sync::Wait;
use std::sync::atomic::{AtomicBool, Ordering};
use std::thread::{Threads, yield_now};
use sup_cluster::{Checkpoint, PlannedRun, Runner, run};
use sup_links::{LinkScript, Verdict};
use sup_node_gate::MAX_BOUND;
use sup_placement::FlatWeigh;
use sup_plan::{Command, Histories, Plan, Route};
use sup_posts::RunFault;
use sup_replica::{Act, Config, Event, MessageText, Refusal, Reply};
use sup_specs::{ChildId, ChildSpec, Kind, NodeName, Restart, Shutdown, Text};

// How often a thread that waits looks again, at most.
const TURNS: u64 = 100_000_000;

/// Waits until the lamp is lit, but no longer than its turns.
pub(crate) fn wait_for(lamp: &AtomicBool) {
    for _ in 0..TURNS {
        if lamp.load(Ordering::SeqCst) {
            return;
        }
        yield_now();
    }
}

pub(crate) fn node(rt: &impl Abort, name: &str) -> NodeName {
    NodeName::parse(name).expect(rt, "a node's name")
}

/// A plan of these nodes, with no commands and no scripts.
pub(crate) fn plan(rt: &(impl Abort + AllocGlobal), nodes: &[&str]) -> Plan {
    let mut names = Vec::new(rt.alloc());
    for name in nodes {
        names.push(node(rt, name)).expect(rt, "room");
    }
    Plan {
        config: Config::default(),
        nodes: names,
        commands: Vec::new(rt.alloc()),
        scripts: Vec::new(rt.alloc()),
    }
}

/// The plan with a command more, at moment 0.
pub(crate) fn told(rt: &impl Abort, mut plan: Plan, name: &str, act: Act) -> Plan {
    let command = Command {
        node: node(rt, name),
        act,
        now: 0,
    };
    plan.commands.push(command).expect(rt, "room");
    plan
}

/// The plan with a script more.
pub(crate) fn linked(
    rt: &(impl Abort + AllocGlobal),
    mut plan: Plan,
    from: &str,
    to: &str,
    verdicts: &[Verdict],
) -> Plan {
    let route = Route {
        from: node(rt, from),
        to: node(rt, to),
        script: LinkScript(verdicts.to_vec(rt.alloc()).expect(rt, "room")),
    };
    plan.scripts.push(route).expect(rt, "room");
    plan
}

pub(crate) fn join(rt: &(impl Abort + AllocGlobal)) -> Act {
    Act::Event(Event::Join(empty(rt)))
}

fn empty(rt: &(impl Abort + AllocGlobal)) -> Text {
    Text::parse(rt.alloc(), "").expect(rt, "an empty text")
}

/// The start of a permanent worker that has 5000 milliseconds to end.
pub(crate) fn start(rt: &(impl Abort + AllocGlobal), id: &str) -> Act {
    let id = ChildId::parse(rt.alloc(), id).expect(rt, "a child's id");
    let spec = ChildSpec {
        kind: Kind::parse(rt.alloc(), "worker").expect(rt, "a kind"),
        arg: empty(rt),
        restart: Restart::Permanent,
        shutdown: Shutdown::Millis(5000),
    };
    Act::Event(Event::Start(id, spec))
}

pub(crate) fn drain(rt: &impl Abort, member: &str) -> Act {
    Act::Event(Event::Drain(node(rt, member)))
}

pub(crate) fn ship(rt: &impl Abort, to: &str) -> Act {
    Act::Event(Event::Ship(node(rt, to)))
}

pub(crate) fn push(rt: &impl Abort, to: &str) -> Act {
    Act::Event(Event::Push(node(rt, to)))
}

pub(crate) fn deliver(rt: &impl AllocGlobal) -> Act {
    Act::Event(Event::Deliver(MessageText::new(Vec::new(rt.alloc()))))
}

/// Replies that are counted.
#[derive(Clone, Copy)]
pub(crate) enum Counted {
    Restarted,
    GaveUp,
    Absorbed,
    Known,
    Acked,
    Stopped,
}

fn is_it(reply: &Reply, counted: Counted) -> bool {
    match counted {
        Counted::Restarted => matches!(reply, Reply::Restarted),
        Counted::GaveUp => matches!(reply, Reply::GaveUp(_)),
        Counted::Absorbed => matches!(reply, Reply::Absorbed),
        Counted::Known => matches!(reply, Reply::Known),
        Counted::Acked => matches!(reply, Reply::Acked),
        Counted::Stopped => matches!(reply, Reply::Stopped),
    }
}

/// How often this reply stands in the history of the node at a place.
pub(crate) fn count(histories: &Histories, at: usize, counted: Counted) -> usize {
    let Some(history) = histories.as_slice().get(at) else {
        return 0;
    };
    history
        .entries
        .iter()
        .filter(|entry| match &entry.answer {
            Ok(done) => is_it(&done.reply, counted),
            Err(_) => false,
        })
        .count()
}

/// How many of a node's entries are refused since it is stopped.
pub(crate) fn refused_down(histories: &Histories, at: usize) -> usize {
    let Some(history) = histories.as_slice().get(at) else {
        return 0;
    };
    history
        .entries
        .iter()
        .filter(|entry| matches!(entry.answer, Err(Refusal::Down)))
        .count()
}

/// How many of a node's entries are deliveries.
pub(crate) fn deliveries(histories: &Histories, at: usize) -> usize {
    let Some(history) = histories.as_slice().get(at) else {
        return 0;
    };
    history
        .entries
        .iter()
        .filter(|entry| matches!(entry.act, Act::Event(Event::Deliver(_))))
        .count()
}

/// Runs a plan, with members that weigh the same: what happened at each node.
pub(crate) fn run_flat<
    R: Threads + Wait + Sync + AllocGlobal,
    N: Runner + Sync,
    C: Checkpoint + Sync,
>(rt: &R, plan: &Plan, runner: &N, checkpoint: &C) -> Result<Histories, RunFault>
    ensures bad { ¬ (IsPlan plan.now) → result ≡ Err BadPlan }
    ensures good { IsPlan plan.now → result ≢ Err BadPlan }
    ensures run { IfOk result (λ histories. IsRunOf flat_weight (N.did runner.now) plan.now histories) }
{
    let planned = PlannedRun::new(plan, MAX_BOUND, runner, checkpoint)?;
    let ran = run(rt, rt.alloc(), planned, &FlatWeigh)?;
    Ok(ran.into_histories())
}

/// Whether the histories are judged to be a run.
pub(crate) fn is_certified(rt: &impl AllocGlobal, plan: &Plan, histories: &Histories) -> bool {
    sup_certify::certify(rt.alloc(), plan, histories, FlatWeigh).is_ok()
}
