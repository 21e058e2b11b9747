//! Drivers that wait for one another, which get on since they run at once.
use crate::given::{
    Counted, count, is_certified, join, plan, run_flat, ship, start, told, wait_for,
};
use std::process::Abort;
use std::sync::atomic::{AtomicBool, Ordering};
use sup_cluster::{Checkpoint, Request, Requests, Runner};
use sup_local_sup::Effect;
use sup_plan::{Command, Plan};
use sup_specs::NodeName;

// Whether b's first command was answered, and whether the runner was told to start a child at b.
#[derive(Drop)]
struct Lamps {
    joined: AtomicBool,
    started: AtomicBool,
}

impl Checkpoint for Lamps {
    ghost was_before = { λ lamps node command place. Unit {0} };

    ghost was_answered = { λ lamps node place effects. Unit {0} };

    fn before(&self, node: &NodeName, place: u64, _command: &Command) {
        match (node.as_str(), place) {
            ("a", 1) => wait_for(&self.joined),
            ("b", 2) => wait_for(&self.started),
            _ => {}
        }
    }

    fn answered(&self, node: &NodeName, place: u64, _asks: &Requests) {
        if node.as_str() == "b" && place == 1 {
            self.joined.store(true, Ordering::SeqCst);
        }
    }
}

impl Runner for Lamps {
    ghost did = { λ lamps node effect answer. Unit {0} };

    fn act(&self, request: Request) -> bool {
        if request.node().as_str() == "b" && matches!(request.effect(), Effect::Start { .. }) {
            self.started.store(true, Ordering::SeqCst);
        }
        true
    }
}

fn shipped(rt: &(impl Abort + AllocGlobal)) -> Plan {
    let plan = told(rt, plan(rt, &["a", "b"]), "a", start(rt, "web"));
    let plan = told(rt, plan, "a", ship(rt, "b"));
    let plan = told(rt, plan, "b", join(rt));
    told(rt, plan, "b", start(rt, "z"))
}

#[test]
fn an_acknowledgement_comes_back_while_drivers_wait(rt: HostRuntime) {
    let plan = shipped(&rt);
    let lamps = Lamps {
        joined: AtomicBool::new(false),
        started: AtomicBool::new(false),
    };
    let Ok(histories) = run_flat(&rt, &plan, &lamps, &lamps) else {
        panic!(rt; "no histories")
    };
    assert!(rt; lamps.joined.load(Ordering::SeqCst) && lamps.started.load(Ordering::SeqCst));
    assert!(rt; count(&histories, 0, Counted::Acked) == 1);
    assert!(rt; is_certified(&rt, &plan, &histories));
}
