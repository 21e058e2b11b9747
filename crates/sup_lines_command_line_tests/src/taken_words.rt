//! Words that ask for something.

use std::alloc::Global;
use std::process::Abort;
use sup_command_line::{Request, Weighing, read_words};
use sup_replica::Config;

fn check_asks(rt: &impl Abort, alloc: Global, words: &[&str], wanted: Request) {
    let request = read_words(alloc, words);
    assert!(rt; request.is_ok_and(|request| request == wanted));
}

fn check_simulates(
    rt: &impl Abort,
    alloc: Global,
    words: &[&str],
    weighing: Weighing,
    numbers: (u16, u32, u16),
) {
    match Config::new(numbers.0, numbers.1, numbers.2) {
        Some(config) => check_asks(rt, alloc, words, Request::Simulate { weighing, config }),
        None => assert!(rt; false),
    }
}

#[test]
fn a_node_is_set_as_erlang_has_it_where_nothing_is_said(rt: HostRuntime) {
    let (weighing, config) = (Weighing::Sha256, Config::default());
    check_asks(
        &rt,
        rt.alloc(),
        &["simulate"],
        Request::Simulate { weighing, config },
    );
}

#[test]
fn each_option_sets_its_own_value(rt: HostRuntime) {
    let cases: [(&[&str], Weighing, (u16, u32, u16)); 16] = [
        (
            &["simulate", "--intensity", "007"],
            Weighing::Sha256,
            (7, 5, 64),
        ),
        (
            &["simulate", "--period", "+8"],
            Weighing::Sha256,
            (1, 8, 64),
        ),
        (&["simulate", "--buffer=+09"], Weighing::Sha256, (1, 5, 9)),
        (&["simulate"], Weighing::Sha256, (1, 5, 64)),
        (&["simulate", "--weigh", "flat"], Weighing::Flat, (1, 5, 64)),
        (
            &["simulate", "--weigh=sha256"],
            Weighing::Sha256,
            (1, 5, 64),
        ),
        (
            &["simulate", "--intensity", "7"],
            Weighing::Sha256,
            (7, 5, 64),
        ),
        (&["simulate", "--period", "7"], Weighing::Sha256, (1, 7, 64)),
        (&["simulate", "--buffer=7"], Weighing::Sha256, (1, 5, 7)),
        (
            &["simulate", "--intensity", "0"],
            Weighing::Sha256,
            (0, 5, 64),
        ),
        (
            &["simulate", "--intensity", "1000"],
            Weighing::Sha256,
            (1000, 5, 64),
        ),
        (&["simulate", "--period", "1"], Weighing::Sha256, (1, 1, 64)),
        (
            &["simulate", "--period", "1000000"],
            Weighing::Sha256,
            (1, 1_000_000, 64),
        ),
        (&["simulate", "--buffer", "1"], Weighing::Sha256, (1, 5, 1)),
        (
            &["simulate", "--buffer", "1024"],
            Weighing::Sha256,
            (1, 5, 1024),
        ),
        (
            &[
                "simulate",
                "--buffer",
                "4",
                "--weigh",
                "flat",
                "--period",
                "3",
                "--intensity",
                "2",
            ],
            Weighing::Flat,
            (2, 3, 4),
        ),
    ];
    for (words, weighing, numbers) in cases {
        check_simulates(&rt, rt.alloc(), words, weighing, numbers);
    }
}

fn check_runs(
    rt: &impl Abort,
    alloc: Global,
    words: &[&str],
    weighing: Weighing,
    numbers: (u16, u32, u16),
) {
    match Config::new(numbers.0, numbers.1, numbers.2) {
        Some(config) => check_asks(rt, alloc, words, Request::Cluster { weighing, config }),
        None => assert!(rt; false),
    }
}

#[test]
fn a_cluster_is_set_as_a_simulation_is(rt: HostRuntime) {
    let cases: [(&[&str], Weighing, (u16, u32, u16)); 5] = [
        (&["cluster"], Weighing::Sha256, (1, 5, 64)),
        (&["cluster", "--weigh=flat"], Weighing::Flat, (1, 5, 64)),
        (
            &["cluster", "--intensity", "0"],
            Weighing::Sha256,
            (0, 5, 64),
        ),
        (
            &["cluster", "--period", "1000000"],
            Weighing::Sha256,
            (1, 1_000_000, 64),
        ),
        (
            &["cluster", "--buffer", "4", "--weigh", "flat"],
            Weighing::Flat,
            (1, 5, 4),
        ),
    ];
    for (words, weighing, numbers) in cases {
        check_runs(&rt, rt.alloc(), words, weighing, numbers);
    }
}

#[test]
fn place_has_both_weighers(rt: HostRuntime) {
    let cases: [(&[&str], Weighing); 4] = [
        (&["place"], Weighing::Sha256),
        (&["place", "--weigh", "sha256"], Weighing::Sha256),
        (&["place", "--weigh", "flat"], Weighing::Flat),
        (&["place", "--weigh=flat"], Weighing::Flat),
    ];
    for (words, weighing) in cases {
        check_asks(&rt, rt.alloc(), words, Request::Place { weighing });
    }
}

#[test]
fn inspect_has_both_weighers(rt: HostRuntime) {
    let cases: [(&[&str], Weighing); 4] = [
        (&["inspect"], Weighing::Sha256),
        (&["inspect", "--weigh", "sha256"], Weighing::Sha256),
        (&["inspect", "--weigh", "flat"], Weighing::Flat),
        (&["inspect", "--weigh=flat"], Weighing::Flat),
    ];
    for (words, weighing) in cases {
        check_asks(&rt, rt.alloc(), words, Request::Inspect { weighing });
    }
}
