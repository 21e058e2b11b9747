//! Nodes that stop and restart while threads run.
use crate::given::{
    Counted, count, deliveries, is_certified, join, plan, refused_down, run_flat, ship, start, told,
};
use std::process::Abort;
use std::sync::atomic::{AtomicBool, Ordering};
use sup_cluster::{Quiet, Request, Runner};
use sup_local_sup::Effect;
use sup_plan::{History, Plan};
use sup_replica::{Act, Event, Reply};

// Node a adds a child, stops and comes back, while b ships to it.
fn stopped_and_restarted(rt: &(impl Abort + AllocGlobal)) -> Plan {
    let plan = told(rt, plan(rt, &["a", "b"]), "a", start(rt, "x"));
    let plan = told(rt, plan, "a", Act::Stop);
    let plan = told(rt, plan, "a", Act::Restart);
    let plan = told(rt, plan, "b", start(rt, "y"));
    told(rt, plan, "b", ship(rt, "a"))
}

// Whether this is the answer of a's command at a place, from 0.
fn is_reply(place: usize, reply: &Reply) -> bool {
    match place {
        0 => matches!(reply, Reply::Added(_)),
        1 => matches!(reply, Reply::Stopped),
        _ => matches!(reply, Reply::Boot(2)),
    }
}

// Whether a's three commands stand there, each with its answer.
fn has_stopped(history: &History) -> bool {
    let mut place: usize = 0;
    for entry in &history.entries {
        if matches!(entry.act, Act::Event(Event::Deliver(_))) {
            continue;
        }
        let Ok(done) = &entry.answer else {
            return false;
        };
        if !is_reply(place, &done.reply) {
            return false;
        }
        place = place.saturating_add(1);
    }
    place == 3
}

#[test]
fn a_hundred_runs_with_a_node_that_stops_and_restarts_are_certified(rt: HostRuntime) {
    let plan = stopped_and_restarted(&rt);
    for _ in 0..100 {
        let Ok(histories) = run_flat(&rt, &plan, &Quiet, &Quiet) else {
            panic!(rt; "no histories")
        };
        assert!(rt; has_stopped(&histories.as_slice()[0]));
        // What comes while the node is down is lost.
        assert!(rt; deliveries(&histories, 0) == 1);
        let came = (
            count(&histories, 0, Counted::Absorbed),
            refused_down(&histories, 0),
        );
        assert!(rt; came == (1, 0) || came == (0, 1));
        assert!(rt; is_certified(&rt, &plan, &histories));
    }
}

#[test]
fn a_plan_may_end_with_a_node_down(rt: HostRuntime) {
    let plan = told(&rt, plan(&rt, &["a", "b"]), "a", start(&rt, "x"));
    let plan = told(&rt, plan, "a", Act::Stop);
    let plan = told(&rt, plan, "a", start(&rt, "y"));
    let plan = told(&rt, plan, "b", start(&rt, "z"));
    let Ok(histories) = run_flat(&rt, &plan, &Quiet, &Quiet) else {
        panic!(rt; "no histories")
    };
    assert!(rt; histories.as_slice()[0].entries.len() == 3);
    assert!(rt; count(&histories, 0, Counted::Stopped) == 1);
    assert!(rt; refused_down(&histories, 0) == 1);
    assert!(rt; is_certified(&rt, &plan, &histories));
}

// A member with a child, that stops and comes back.
fn restarted_member(rt: &(impl Abort + AllocGlobal)) -> Plan {
    let plan = told(rt, plan(rt, &["a", "b"]), "a", join(rt));
    let plan = told(rt, plan, "a", start(rt, "web"));
    let plan = told(rt, plan, "a", Act::Stop);
    told(rt, plan, "a", Act::Restart)
}

// Whether the child was started in the first boot and in the second, and whether anything was stopped.
#[derive(Drop)]
struct Lamps {
    first: AtomicBool,
    second: AtomicBool,
    stopped: AtomicBool,
}

impl Runner for Lamps {
    ghost did = { λ lamps node effect answer. Unit {0} };

    fn act(&self, request: Request) -> bool {
        let lamp = match request.effect() {
            Effect::Start { inc, .. } if inc.boot == 1 => &self.first,
            Effect::Start { .. } => &self.second,
            Effect::Stop { .. } => &self.stopped,
        };
        lamp.store(true, Ordering::SeqCst);
        true
    }
}

#[test]
fn a_restart_starts_children_and_a_stop_tells_nothing(rt: HostRuntime) {
    let plan = restarted_member(&rt);
    let lamps = Lamps {
        first: AtomicBool::new(false),
        second: AtomicBool::new(false),
        stopped: AtomicBool::new(false),
    };
    let Ok(histories) = run_flat(&rt, &plan, &lamps, &Quiet) else {
        panic!(rt; "no histories")
    };
    assert!(rt; lamps.first.load(Ordering::SeqCst) && lamps.second.load(Ordering::SeqCst));
    assert!(rt; !lamps.stopped.load(Ordering::SeqCst));
    assert!(rt; histories.as_slice()[0].entries.len() == 4);
    assert!(rt; is_certified(&rt, &plan, &histories));
}

// Starts nothing in a boot that isn't the first.
struct StartsOnce;

impl Runner for StartsOnce {
    ghost did = { λ runner node effect answer. Unit {0} };

    fn act(&self, request: Request) -> bool {
        match request.effect() {
            Effect::Start { inc, .. } => inc.boot == 1,
            Effect::Stop { .. } => true,
        }
    }
}

#[test]
fn a_child_that_does_not_start_in_the_new_boot_ends_the_membership(rt: HostRuntime) {
    let plan = restarted_member(&rt);
    let Ok(histories) = run_flat(&rt, &plan, &StartsOnce, &Quiet) else {
        panic!(rt; "no histories")
    };
    assert!(rt; histories.as_slice()[0].entries.len() == 6);
    assert!(rt; count(&histories, 0, Counted::Restarted) == 1);
    assert!(rt; count(&histories, 0, Counted::GaveUp) == 1);
    assert!(rt; is_certified(&rt, &plan, &histories));
}
