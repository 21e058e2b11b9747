//! Each caller once.
use crate::given::{acts, child, join, node, start};
use std::process::Abort;
use sup_keeper::MemKeeper;
use sup_placement::FlatWeigh;
use sup_plan::{Command, Plan};
use sup_replica::Config;
use sup_station::Station;
use sup_uses::{exchange, keep, run_counted, share};

#[test]
fn a_keeper_of_the_callers_has_the_last_image_and_the_one_before(rt: HostRuntime) {
    let acts = acts(&rt, "web");
    let Ok(station) = keep(rt.alloc(), node(&rt, "a"), acts.as_slice(), &FlatWeigh) else {
        panic!(rt; "refused")
    };
    let keeper = station.keeper();
    assert!(rt; keeper.last.len() > keeper.before.len());
    assert!(rt; !keeper.before.is_empty());
}

fn station(rt: &(impl Abort + AllocGlobal), name: &str) -> Station<MemKeeper, FlatWeigh> {
    let keeper = MemKeeper::new(rt.alloc());
    match Station::new(rt.alloc(), node(rt, name), Config::default(), keeper) {
        Ok(station) => station,
        Err(_) => panic!(rt; "no room"),
    }
}

#[test]
fn two_stations_that_exchange_letters_come_to_know_all(rt: HostRuntime) {
    let mut left = station(&rt, "a");
    let mut right = station(&rt, "b");
    assert!(rt; left.step(join(&rt), 0, &FlatWeigh).is_ok());
    assert!(rt; right.step(start(&rt, "web"), 0, &FlatWeigh).is_ok());
    let a = node(&rt, "a");
    let b = node(&rt, "b");
    let known = exchange(&mut left, a, &mut right, b, 8, &FlatWeigh);
    assert!(rt; matches!(known, Ok(true)));
    let web = child(&rt, "web");
    for station in [&left, &right] {
        let Some(node) = station.node() else {
            panic!(rt; "the node is stopped")
        };
        assert!(rt; node.tables().child(&web).is_some());
        assert!(rt; node.tables().member(&a).is_some());
    }
}

#[test]
fn the_acts_of_two_threads_stand_in_one_history(rt: HostRuntime) {
    let left = acts(&rt, "web");
    let right = acts(&rt, "db");
    let Some((station, history)) = share(
        &rt,
        rt.alloc(),
        station(&rt, "a"),
        left.as_slice(),
        right.as_slice(),
    ) else {
        panic!(rt; "no history")
    };
    assert!(rt; history.len() == 4);
    assert!(rt; station.node().is_some());
}

#[test]
fn a_runner_of_the_callers_is_told_of_each_start(rt: HostRuntime) {
    let a = node(&rt, "a");
    let first = Command {
        node: a,
        act: join(&rt),
        now: 0,
    };
    let second = Command {
        node: a,
        act: start(&rt, "web"),
        now: 0,
    };
    let plan = Plan {
        config: Config::default(),
        nodes: vec![in rt.alloc(); a, node(&rt, "b")].expect(&rt, "room"),
        commands: vec![in rt.alloc(); first, second].expect(&rt, "room"),
        scripts: Vec::new(rt.alloc()),
    };
    let Ok((histories, starts)) = run_counted(&rt, rt.alloc(), &plan) else {
        panic!(rt; "no histories")
    };
    assert!(rt; starts == 1);
    assert!(rt; histories.as_slice().len() == 2);
}
