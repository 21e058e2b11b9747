//! Which plans can be run.
use crate::given::{deliver, drain, join, leave, linked, plan, push, ship, told};
use sup_links::Verdict;
use sup_plan::is_plan;
use sup_replica::Act;

const FIVE: [&str; 5] = ["a", "b", "c", "d", "e"];

const SIX: [&str; 6] = ["a", "b", "c", "d", "e", "f"];

#[test]
fn two_to_five_nodes_can_be_run(rt: HostRuntime) {
    assert!(rt; is_plan(&plan(&rt, &["a", "b"])));
    assert!(rt; is_plan(&plan(&rt, &FIVE)));
    assert!(rt; !is_plan(&plan(&rt, &[])));
    assert!(rt; !is_plan(&plan(&rt, &["a"])));
    assert!(rt; !is_plan(&plan(&rt, &SIX)));
}

#[test]
fn nodes_have_names_of_their_own(rt: HostRuntime) {
    assert!(rt; !is_plan(&plan(&rt, &["a", "a"])));
    assert!(rt; !is_plan(&plan(&rt, &["a", "b", "c", "b"])));
    assert!(rt; is_plan(&plan(&rt, &["a", "aa"])));
}

#[test]
fn commands_are_told_to_nodes_of_the_plan(rt: HostRuntime) {
    assert!(rt; is_plan(&told(&rt, plan(&rt, &["a", "b"]), "b", join(&rt), 0)));
    assert!(rt; !is_plan(&told(&rt, plan(&rt, &["a", "b"]), "c", join(&rt), 0)));
}

#[test]
fn a_member_that_leaves_may_be_no_node_of_the_plan(rt: HostRuntime) {
    assert!(rt; is_plan(&told(&rt, plan(&rt, &["a", "b"]), "a", leave(&rt, "z"), 0)));
}

#[test]
fn a_member_that_is_drained_may_be_no_node_of_the_plan(rt: HostRuntime) {
    assert!(rt; is_plan(&told(&rt, plan(&rt, &["a", "b"]), "a", drain(&rt, "z"), 0)));
}

#[test]
fn ships_and_pushes_go_to_other_nodes_of_the_plan(rt: HostRuntime) {
    assert!(rt; is_plan(&told(&rt, plan(&rt, &["a", "b"]), "a", ship(&rt, "b"), 0)));
    assert!(rt; is_plan(&told(&rt, plan(&rt, &["a", "b"]), "b", push(&rt, "a"), 0)));
    assert!(rt; !is_plan(&told(&rt, plan(&rt, &["a", "b"]), "a", ship(&rt, "c"), 0)));
    assert!(rt; !is_plan(&told(&rt, plan(&rt, &["a", "b"]), "a", push(&rt, "c"), 0)));
    assert!(rt; !is_plan(&told(&rt, plan(&rt, &["a", "b"]), "a", ship(&rt, "a"), 0)));
    assert!(rt; !is_plan(&told(&rt, plan(&rt, &["a", "b"]), "b", push(&rt, "b"), 0)));
}

#[test]
fn no_command_delivers(rt: HostRuntime) {
    assert!(rt; !is_plan(&told(&rt, plan(&rt, &["a", "b"]), "a", deliver(&rt), 0)));
}

#[test]
fn nodes_of_the_plan_are_stopped_and_restarted(rt: HostRuntime) {
    let stopped = told(&rt, plan(&rt, &["a", "b"]), "a", Act::Stop, 0);
    assert!(rt; is_plan(&stopped));
    assert!(rt; is_plan(&told(&rt, stopped, "a", Act::Restart, 7)));
    assert!(rt; is_plan(&told(&rt, plan(&rt, &["a", "b"]), "b", Act::Restart, 0)));
    assert!(rt; !is_plan(&told(&rt, plan(&rt, &["a", "b"]), "c", Act::Stop, 0)));
    assert!(rt; !is_plan(&told(&rt, plan(&rt, &["a", "b"]), "c", Act::Restart, 0)));
}

#[test]
fn a_bad_command_is_found_behind_good_ones(rt: HostRuntime) {
    let good = told(&rt, plan(&rt, &["a", "b"]), "a", join(&rt), 0);
    let bad = told(&rt, good, "b", ship(&rt, "b"), 0);
    assert!(rt; !is_plan(&bad));
}

#[test]
fn scripts_are_of_links_between_two_nodes_of_the_plan(rt: HostRuntime) {
    let lost = [Verdict::Lose];
    assert!(rt; is_plan(&linked(&rt, plan(&rt, &["a", "b"]), "a", "b", &lost)));
    assert!(rt; !is_plan(&linked(&rt, plan(&rt, &["a", "b"]), "a", "c", &lost)));
    assert!(rt; !is_plan(&linked(&rt, plan(&rt, &["a", "b"]), "c", "a", &lost)));
    assert!(rt; !is_plan(&linked(&rt, plan(&rt, &["a", "b"]), "a", "a", &lost)));
}

#[test]
fn a_link_has_one_script_for_each_way(rt: HostRuntime) {
    let lost = [Verdict::Lose];
    let there = linked(&rt, plan(&rt, &["a", "b"]), "a", "b", &lost);
    let both = linked(&rt, there, "b", "a", &lost);
    assert!(rt; is_plan(&both));
    let twice = linked(&rt, both, "a", "b", &[]);
    assert!(rt; !is_plan(&twice));
}
