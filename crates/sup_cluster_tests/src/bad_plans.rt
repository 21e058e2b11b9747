//! Plans that can't be run.
use crate::given::{deliver, join, linked, plan, ship, told};
use sup_cluster::{PlannedRun, Quiet};
use sup_links::Verdict;
use sup_node_gate::MAX_BOUND;
use sup_plan::Plan;
use sup_posts::RunFault;

fn is_bad(plan: &Plan) -> bool {
    matches!(
        PlannedRun::new(plan, MAX_BOUND, &Quiet, &Quiet),
        Err(RunFault::BadPlan),
    )
}

#[test]
fn a_plan_has_two_to_five_nodes(rt: HostRuntime) {
    assert!(rt; is_bad(&plan(&rt, &[])));
    assert!(rt; is_bad(&plan(&rt, &["a"])));
    assert!(rt; is_bad(&plan(&rt, &["a", "b", "c", "d", "e", "f"])));
    assert!(rt; !is_bad(&plan(&rt, &["a", "b", "c", "d", "e"])));
}

#[test]
fn a_plan_names_no_node_twice(rt: HostRuntime) {
    assert!(rt; is_bad(&plan(&rt, &["a", "b", "a"])));
}

#[test]
fn a_plan_tells_its_own_nodes_and_brings_no_bytes(rt: HostRuntime) {
    let two = || plan(&rt, &["a", "b"]);
    assert!(rt; is_bad(&told(&rt, two(), "c", join(&rt))));
    assert!(rt; is_bad(&told(&rt, two(), "a", deliver(&rt))));
    assert!(rt; is_bad(&told(&rt, two(), "a", ship(&rt, "a"))));
    assert!(rt; is_bad(&told(&rt, two(), "a", ship(&rt, "c"))));
}

#[test]
fn a_script_is_of_a_link_between_two_of_the_nodes_and_has_no_second(rt: HostRuntime) {
    let two = || plan(&rt, &["a", "b"]);
    assert!(rt; is_bad(&linked(&rt, two(), "a", "a", &[Verdict::Lose])));
    assert!(rt; is_bad(&linked(&rt, two(), "c", "a", &[Verdict::Lose])));
    assert!(rt; is_bad(&linked(&rt, two(), "a", "c", &[Verdict::Lose])));
    let once = linked(&rt, two(), "a", "b", &[Verdict::Lose]);
    assert!(rt; is_bad(&linked(&rt, once, "a", "b", &[])));
}
