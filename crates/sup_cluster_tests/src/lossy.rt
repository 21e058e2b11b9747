//! Links that lose and double.
use crate::given::{
    Counted, count, deliveries, is_certified, join, linked, plan, run_flat, ship, start, told,
};
use std::process::Abort;
use sup_cluster::Quiet;
use sup_links::Verdict;
use sup_plan::Plan;

// The first message from a to b is lost, the first from b to a comes twice.
fn lost_and_doubled(rt: &(impl Abort + AllocGlobal)) -> Plan {
    let plan = linked(rt, plan(rt, &["a", "b"]), "a", "b", &[Verdict::Lose]);
    let plan = linked(rt, plan, "b", "a", &[Verdict::Twice]);
    let plan = told(rt, plan, "a", join(rt));
    let plan = told(rt, plan, "a", ship(rt, "b"));
    let plan = told(rt, plan, "b", start(rt, "db"));
    told(rt, plan, "b", ship(rt, "a"))
}

#[test]
fn ten_runs_with_lost_and_doubled_letters_are_certified(rt: HostRuntime) {
    let plan = lost_and_doubled(&rt);
    for _ in 0..10 {
        let Ok(histories) = run_flat(&rt, &plan, &Quiet, &Quiet) else {
            panic!(rt; "no histories")
        };
        // Of the two copies one is absorbed and the other known. The first message that a puts is lost: its ship, or an acknowledgement of
        // b's. Then the ship comes to b, which may acknowledge it in time.
        assert!(rt; count(&histories, 0, Counted::Absorbed) == 1);
        assert!(rt; count(&histories, 0, Counted::Known) == 1);
        let acked = count(&histories, 0, Counted::Acked);
        assert!(rt; deliveries(&histories, 0) == acked.saturating_add(2));
        assert!(rt; is_certified(&rt, &plan, &histories));
    }
}
