//! Scripts that are read.
use std::process::Abort;
use sup_cluster_lines::{PlanScript, read_plan_script};
use sup_links::Verdict;
use sup_plan::Command;
use sup_replica::{Act, Event};
use sup_specs::NodeName;

fn read(rt: &(impl Abort + AllocGlobal), script: &str) -> PlanScript {
    match read_plan_script(rt.alloc(), script.as_bytes()) {
        Ok(script) => script,
        Err(_) => panic!(rt; "it is no script"),
    }
}

fn name(rt: &impl Abort, text: &str) -> NodeName {
    NodeName::parse(text).expect(rt, "a name")
}

const SCRIPT: &str =
    "nodes a b\nlink a b lose\nlink b a twice hold:1 hold:1000 pass\njoin a label=x\nship a b @7\n\nstart b db\npush b a";

#[test]
fn nodes_and_links_are_read_as_they_stand(rt: HostRuntime) {
    let script = read(&rt, SCRIPT);
    assert!(rt; script.nodes.as_slice() == [name(&rt, "a"), name(&rt, "b")].as_slice());
    assert!(rt; script.links.len() == 2);
    let first = &script.links[0];
    assert!(rt; first.from == name(&rt, "a") && first.to == name(&rt, "b"));
    assert!(rt; first.script.0.as_slice() == [Verdict::Lose].as_slice());
    let second = &script.links[1];
    assert!(rt; second.from == name(&rt, "b") && second.to == name(&rt, "a"));
    let verdicts = [
        Verdict::Twice,
        Verdict::Hold(1),
        Verdict::Hold(1000),
        Verdict::Pass,
    ];
    assert!(rt; second.script.0.as_slice() == verdicts.as_slice());
}

// The node and the moment of a command, and whether it is a join, a ship, a start or a push.
fn told(command: &Command) -> (NodeName, u64, u8) {
    let kind = match &command.act {
        Act::Event(Event::Join(_)) => 1,
        Act::Event(Event::Ship(_)) => 2,
        Act::Event(Event::Start(_, _)) => 3,
        Act::Event(Event::Push(_)) => 4,
        _ => 0,
    };
    (command.node, command.now, kind)
}

#[test]
fn commands_are_read_in_their_order_with_their_moments(rt: HostRuntime) {
    let script = read(&rt, SCRIPT);
    let (a, b) = (name(&rt, "a"), name(&rt, "b"));
    assert!(rt; script.commands.len() == 4);
    assert!(rt; told(&script.commands[0]) == (a, 0, 1));
    assert!(rt; told(&script.commands[1]) == (a, 7, 2));
    assert!(rt; told(&script.commands[2]) == (b, 0, 3));
    assert!(rt; told(&script.commands[3]) == (b, 0, 4));
}

// Which member is drained.
fn drained(rt: &impl Abort, command: &Command) -> NodeName {
    match &command.act {
        Act::Event(Event::Drain(member)) => *member,
        _ => panic!(rt; "no drain"),
    }
}

#[test]
fn a_drain_is_a_command_like_the_others(rt: HostRuntime) {
    let script = read(&rt, "nodes a b\ndrain a b\ndrain b z @3\n");
    assert!(rt; script.commands.len() == 2);
    assert!(rt; drained(&rt, &script.commands[0]) == name(&rt, "b"));
    assert!(rt; drained(&rt, &script.commands[1]) == name(&rt, "z"));
    assert!(rt; script.commands[1].node == name(&rt, "b"));
    assert!(rt; script.commands[1].now == 3);
}

#[test]
fn nodes_stop_and_restart_at_moments(rt: HostRuntime) {
    let script = read(&rt, "nodes a b\nstop a\nrestart a @9\n");
    assert!(rt; script.commands.len() == 2);
    assert!(rt; matches!(script.commands[0].act, Act::Stop));
    assert!(rt; matches!(script.commands[1].act, Act::Restart));
    assert!(rt; script.commands[1].node == name(&rt, "a"));
    assert!(rt; script.commands[1].now == 9);
}

#[test]
fn an_exit_is_a_command_like_the_others(rt: HostRuntime) {
    let script = read(&rt, "nodes a b\nexit a x 1.1 crash\n");
    assert!(rt; script.commands.len() == 1);
    assert!(rt; script.links.is_empty());
}
