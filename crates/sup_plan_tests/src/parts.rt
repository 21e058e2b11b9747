//! Parts of a plan.
use crate::given::{join, leave, linked, name, plan, ship, told};
use std::process::Abort;
use sup_links::{LinkScript, Verdict};
use sup_plan::{Command, Plan};
use sup_specs::NodeName;

// Memory may be refused once in a run, so each call that takes some is tried twice.
fn commands_of(rt: &(impl Abort + AllocGlobal), plan: &Plan, node: &NodeName) -> Vec<Command> {
    match plan.commands_of(rt.alloc(), node) {
        Ok(commands) => commands,
        Err(_) => plan.commands_of(rt.alloc(), node).expect(rt, "room"),
    }
}

fn script_between(
    rt: &(impl Abort + AllocGlobal),
    plan: &Plan,
    from: &str,
    to: &str,
) -> LinkScript {
    match plan.script_between(rt.alloc(), &name(rt, from), &name(rt, to)) {
        Ok(script) => script,
        Err(_) => plan
            .script_between(rt.alloc(), &name(rt, from), &name(rt, to))
            .expect(rt, "room"),
    }
}

#[test]
fn each_node_has_its_own_commands_in_their_order(rt: HostRuntime) {
    let told_first = told(&rt, plan(&rt, &["a", "b"]), "a", join(&rt), 7);
    let told_next = told(&rt, told_first, "b", leave(&rt, "a"), 8);
    let told_last = told(&rt, told_next, "a", ship(&rt, "b"), 9);
    let commands = commands_of(&rt, &told_last, &name(&rt, "a"));
    assert_eq!(rt; commands.len(), 2);
    assert_eq!(rt; commands[0].now, 7);
    assert_eq!(rt; commands[1].now, 9);
    assert_eq!(rt; commands_of(&rt, &told_last, &name(&rt, "b")).len(), 1);
}

#[test]
fn a_link_without_a_script_lets_all_through(rt: HostRuntime) {
    let lost = [Verdict::Lose, Verdict::Twice];
    let plan = linked(&rt, plan(&rt, &["a", "b"]), "a", "b", &lost);
    assert!(rt; script_between(&rt, &plan, "a", "b").0.as_slice() == lost.as_slice());
    assert!(rt; script_between(&rt, &plan, "b", "a").0.is_empty());
}
