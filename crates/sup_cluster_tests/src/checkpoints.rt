//! What a checkpoint is told.
use crate::given::{join, plan, run_flat, start, told};
use std::process::Abort;
use std::sync::atomic::{AtomicBool, Ordering};
use sup_cluster::{Checkpoint, Quiet, Requests};
use sup_local_sup::Effect;
use sup_plan::{Command, Plan};
use sup_replica::{Act, Event};
use sup_specs::NodeName;

/// Notes whether it was told of anything, and of what no plan of these tests has there: each node first joins, and then starts a child, for
/// which its answer asks.
#[derive(Drop)]
struct Ledger {
    is_told: AtomicBool,
    is_mistaken: AtomicBool,
}

fn new_ledger() -> Ledger {
    Ledger {
        is_told: AtomicBool::new(false),
        is_mistaken: AtomicBool::new(false),
    }
}

impl Checkpoint for Ledger {
    ghost was_before = { λ ledger node command place. Unit {0} };

    ghost was_answered = { λ ledger node place effects. Unit {0} };

    fn before(&self, node: &NodeName, place: u64, command: &Command) {
        self.is_told.store(true, Ordering::SeqCst);
        let is_planned = match &command.act {
            Act::Event(Event::Join(_)) => place == 1,
            Act::Event(Event::Start(_, _)) => place == 2,
            _ => false,
        };
        if !is_planned || command.node != *node {
            self.is_mistaken.store(true, Ordering::SeqCst);
        }
    }

    fn answered(&self, _node: &NodeName, place: u64, asks: &Requests) {
        self.is_told.store(true, Ordering::SeqCst);
        // Nothing came from the other node yet, so that each starts its own child.
        let is_of_place = match asks.effect(0) {
            None => place == 1,
            Some(Effect::Start { id, .. }) => place == 2 && id.as_str() == "x",
            Some(Effect::Stop { .. }) => false,
        };
        if !is_of_place || asks.effect(1).is_some() {
            self.is_mistaken.store(true, Ordering::SeqCst);
        }
    }
}

// The plan in which this node joins and starts a child, too.
fn joining(rt: &(impl Abort + AllocGlobal), plan: Plan, name: &str) -> Plan {
    let plan = told(rt, plan, name, join(rt));
    told(rt, plan, name, start(rt, "x"))
}

#[test]
fn a_checkpoint_is_told_of_the_plans_commands(rt: HostRuntime) {
    let ledger = new_ledger();
    let plan = joining(&rt, plan(&rt, &["a", "b"]), "a");
    let plan = joining(&rt, plan, "b");
    let ended = run_flat(&rt, &plan, &Quiet, &ledger);
    assert!(rt; ended.is_ok());
    assert!(rt; ledger.is_told.load(Ordering::SeqCst));
    assert!(rt; !ledger.is_mistaken.load(Ordering::SeqCst));
}
