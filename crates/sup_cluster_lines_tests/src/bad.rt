//! Lines that say nothing, or stand out of their places.
use std::alloc::Global;
use std::process::Abort;
use sup_cluster_lines::read_plan_script;
use sup_lines::ScriptFault;

const LINKS: &[&str] = &[
    "link a b",
    "link a",
    "link a a pass",
    "link a c pass",
    "link c a pass",
    "link A b pass",
    "link a b pass ",
    "link a b Pass",
    "link a b drop",
    "link a b hold",
    "link a b hold:",
    "link a b hold:0",
    "link a b hold:01",
    "link a b hold:1001",
    "link a b pass hold:x",
    "link a b pass @1",
];

const COMMANDS: &[&str] = &[
    "deliver a 1",
    "raw a x",
    "stop c",
    "restart c",
    "restart a !fail",
    "settle",
    "show a",
    "where a x",
    "nodes a b",
    "join a !fail",
    "join a @1 !fail",
    "start c x",
    "join c",
    "ship a c",
    "ship a a",
    "push b c",
    "push b b",
    "join",
    "join  a",
    "join a\r",
    "leave a B",
];

// The script that ends in this line, behind a line of nodes and a comment, is bad there.
fn is_bad(rt: &(impl Abort + AllocGlobal), line: &str) -> bool {
    let script = format!(in rt.alloc(); "nodes a b\n# links\n{line}\n").expect(rt, "room");
    read_plan_script(rt.alloc(), script.as_bytes()).err() == Some(ScriptFault::BadLine(3))
}

fn fault(alloc: Global, script: &str) -> Option<ScriptFault> {
    read_plan_script(alloc, script.as_bytes()).err()
}

#[test]
fn links_of_no_form_are_bad(rt: HostRuntime) {
    for line in LINKS {
        assert!(rt; is_bad(&rt, line));
    }
}

#[test]
fn what_no_driver_makes_is_bad(rt: HostRuntime) {
    for line in COMMANDS {
        assert!(rt; is_bad(&rt, line));
    }
}

#[test]
fn a_run_has_two_to_five_distinct_nodes(rt: HostRuntime) {
    assert!(rt; fault(rt.alloc(), "nodes a\n") == Some(ScriptFault::BadLine(1)));
    assert!(rt; fault(rt.alloc(), "nodes a b c d e f\n") == Some(ScriptFault::BadLine(1)));
    assert!(rt; fault(rt.alloc(), "\nnodes a a\n") == Some(ScriptFault::BadLine(2)));
    assert!(rt; fault(rt.alloc(), "nodes a b c d e\n").is_none());
    assert!(rt; fault(rt.alloc(), "nodes a b").is_none());
}

#[test]
fn skipped_lines_alone_are_bad_line_0(rt: HostRuntime) {
    assert!(rt; fault(rt.alloc(), "") == Some(ScriptFault::BadLine(0)));
    assert!(rt; fault(rt.alloc(), "\n# nodes a b\n") == Some(ScriptFault::BadLine(0)));
}

#[test]
fn a_link_stands_once_for_its_pair_and_before_the_commands(rt: HostRuntime) {
    let twice = "nodes a b\nlink a b lose\nlink b a pass\nlink a b pass\n";
    assert!(rt; fault(rt.alloc(), twice) == Some(ScriptFault::BadLine(4)));
    let late = "nodes a b\nlink a b lose\njoin a\nlink b a pass\n";
    assert!(rt; fault(rt.alloc(), late) == Some(ScriptFault::BadLine(4)));
    let both = "nodes a b\nlink a b lose\nlink b a pass\njoin a\n";
    assert!(rt; fault(rt.alloc(), both).is_none());
}
