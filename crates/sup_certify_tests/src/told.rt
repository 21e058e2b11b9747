//! What is told of histories: the text of a certified run, or why there is none.
use crate::changed::with_another_answer;
use crate::given::{histories, node, nodes_alone, plan, plan_of};
use crate::histories::{circular, joined, lost_and_doubled};
use std::process::Abort;
use sup_cluster_texts::ClusterFault;
use sup_clustering::judged_text;
use sup_placement::FlatWeigh;
use sup_plan::{Histories, Plan};

const SIXTEEN: [&str; 16] = [
    "a", "b", "c", "d", "e", "f", "g", "h", "i", "j", "k", "l", "m", "n", "o", "p",
];

const LOST_AND_DOUBLED: &str = "\
certified
node a
member a (a,1) label=
child db (b,1) worker permanent 5000 arg= on a
node b
member a (a,1) label=
child db (b,1) worker permanent 5000 arg= on a
";

const ALL_SIXTEEN: &str = "\
certified
node a
node b
node c
node d
node e
node f
node g
node h
node i
node j
node k
node l
node m
node n
node o
node p
";

fn expect_text(rt: &(impl Abort + AllocGlobal), plan: &Plan, histories: &Histories, wanted: &str) {
    match judged_text(rt.alloc(), &FlatWeigh, plan, histories) {
        Ok(text) => assert!(rt; text.as_str() == wanted),
        Err(_) => panic!(rt; "no run"),
    }
}

fn expect_fault(
    rt: &(impl Abort + AllocGlobal),
    plan: &Plan,
    histories: &Histories,
    wanted: ClusterFault,
) {
    let told = judged_text(rt.alloc(), &FlatWeigh, plan, histories).err();
    assert!(rt; told == Some(wanted));
}

#[test]
fn histories_with_lost_and_doubled_letters_print_what_their_nodes_know_once_settled(
    rt: HostRuntime,
) {
    let (a, b) = lost_and_doubled(&rt);
    let both = histories(&rt, ("a", a), ("b", b));
    expect_text(&rt, &plan(&rt, "a", "b"), &both, LOST_AND_DOUBLED);
}

#[test]
fn one_to_sixteen_nodes_at_which_nothing_happened_are_printed(rt: HostRuntime) {
    let one = plan_of(&rt, &["a"]);
    expect_text(&rt, &one, &nodes_alone(&rt, &["a"]), "certified\nnode a\n");
    let all = plan_of(&rt, &SIXTEEN);
    expect_text(&rt, &all, &nodes_alone(&rt, &SIXTEEN), ALL_SIXTEEN);
}

#[test]
fn no_node_and_seventeen_are_stuck(rt: HostRuntime) {
    let none = plan_of(&rt, &[]);
    expect_fault(&rt, &none, &nodes_alone(&rt, &[]), ClusterFault::Stuck);
    let names = [
        "a", "b", "c", "d", "e", "f", "g", "h", "i", "j", "k", "l", "m", "n", "o", "p", "q",
    ];
    let all = plan_of(&rt, &names);
    expect_fault(&rt, &all, &nodes_alone(&rt, &names), ClusterFault::Stuck);
}

#[test]
fn histories_of_other_nodes_and_ones_that_wait_for_each_other_are_stuck(rt: HostRuntime) {
    let both = histories(&rt, ("a", joined(&rt, "a")), ("c", joined(&rt, "c")));
    expect_fault(&rt, &plan(&rt, "a", "b"), &both, ClusterFault::Stuck);
    let (a, b) = circular(&rt);
    let both = histories(&rt, ("a", a), ("b", b));
    expect_fault(&rt, &plan(&rt, "a", "b"), &both, ClusterFault::Stuck);
}

#[test]
fn an_answer_that_differs_is_told_with_its_node_and_place(rt: HostRuntime) {
    let (a, b) = lost_and_doubled(&rt);
    let both = histories(&rt, ("a", with_another_answer(&rt, a, 0)), ("b", b));
    let first = ClusterFault::Differs {
        node: node(&rt, "a"),
        place: 1,
    };
    expect_fault(&rt, &plan(&rt, "a", "b"), &both, first);
    let (a, b) = lost_and_doubled(&rt);
    let both = histories(&rt, ("a", a), ("b", with_another_answer(&rt, b, 3)));
    let last = ClusterFault::Differs {
        node: node(&rt, "b"),
        place: 4,
    };
    expect_fault(&rt, &plan(&rt, "a", "b"), &both, last);
}
