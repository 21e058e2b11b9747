//! Five nodes that drain, stop and restart, over links that lose and double.
use crate::given::{drain, is_certified, join, linked, plan, run_flat, ship, start, told};
use std::process::Abort;
use sup_cluster::Quiet;
use sup_links::Verdict;
use sup_plan::Plan;
use sup_replica::Act;

// The node joins and starts a child, stops and comes back, and is drained then. It ships to the next one behind each of these three, over
// a link that loses the first message and doubles the second.
fn with_member(
    rt: &(impl Abort + AllocGlobal),
    plan: Plan,
    name: &str,
    child: &str,
    next: &str,
) -> Plan {
    let plan = linked(rt, plan, name, next, &[Verdict::Lose, Verdict::Twice]);
    let plan = told(rt, plan, name, join(rt));
    let plan = told(rt, plan, name, start(rt, child));
    let plan = told(rt, plan, name, ship(rt, next));
    let plan = told(rt, plan, name, Act::Stop);
    let plan = told(rt, plan, name, Act::Restart);
    let plan = told(rt, plan, name, ship(rt, next));
    let plan = told(rt, plan, name, drain(rt, name));
    told(rt, plan, name, ship(rt, next))
}

fn ring(rt: &(impl Abort + AllocGlobal)) -> Plan {
    let plan = plan(rt, &["a", "b", "c", "d", "e"]);
    let plan = with_member(rt, plan, "a", "one", "b");
    let plan = with_member(rt, plan, "b", "two", "c");
    let plan = with_member(rt, plan, "c", "three", "d");
    let plan = with_member(rt, plan, "d", "four", "e");
    with_member(rt, plan, "e", "five", "a")
}

#[test]
fn a_hundred_runs_of_five_nodes_that_drain_stop_and_restart_are_certified(rt: HostRuntime) {
    let plan = ring(&rt);
    for _ in 0..100 {
        let Ok(histories) = run_flat(&rt, &plan, &Quiet, &Quiet) else {
            panic!(rt; "no histories")
        };
        assert!(rt; is_certified(&rt, &plan, &histories));
    }
}
