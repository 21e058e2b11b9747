//! Runs that wait for nobody.
use crate::runs::{OUTPUT, SCRIPT};
use std::process::Abort;
use sup_command_line::Weighing;
use sup_jobs::Ended;
use sup_program::run::{Options, Ran, run_plain};
use sup_replica::Config;

// Expects how a run with these words ends, and what it writes.
fn expect_plain(
    rt: &(impl Abort + AllocGlobal),
    words: &[&str],
    input: &[u8],
    status: u8,
    output: &[u8],
) {
    let mut reader = input;
    let mut written = Vec::new(rt.alloc());
    let mut told = Vec::new(rt.alloc());
    let ended = run_plain(rt.alloc(), words, &mut reader, &mut written, &mut told);
    assert!(rt;
        ended
            == Ran::Done(Ended {
                status,
                told: Ok(())
            })
    );
    assert!(rt; written.as_slice() == output);
    assert!(rt; told.is_empty() == (status == 0));
}

// Expects that these words ask for a cluster with these options, and that nothing is read or
// written.
fn expect_cluster(
    rt: &(impl Abort + AllocGlobal),
    words: &[&str],
    weighing: Weighing,
    numbers: (u16, u32, u16),
) {
    let mut reader = SCRIPT;
    let mut written = Vec::new(rt.alloc());
    let mut told = Vec::new(rt.alloc());
    let ended = run_plain(rt.alloc(), words, &mut reader, &mut written, &mut told);
    match Config::new(numbers.0, numbers.1, numbers.2) {
        Some(config) => assert!(rt;
            ended
                == Ran::Cluster(Options {
                    weigh: weighing,
                    config
                })
        ),
        None => assert!(rt; false),
    }
    assert!(rt; reader.len() == SCRIPT.len() && written.is_empty() && told.is_empty());
}

#[test]
fn a_run_ends_with_its_status(rt: HostRuntime) {
    expect_plain(&rt, &["simulate"], SCRIPT, 0, OUTPUT);
    expect_plain(&rt, &["place"], b"members a\nx\n", 0, b"x a\n");
    expect_plain(&rt, &["simulate"], b"show a\n", 1, b"");
    expect_plain(&rt, &["place"], b"nodes a\n", 1, b"");
    expect_plain(&rt, &["simulate", "x"], SCRIPT, 2, b"");
    expect_plain(&rt, &[], SCRIPT, 2, b"");
}

#[test]
fn a_cluster_is_left_to_threads(rt: HostRuntime) {
    expect_cluster(&rt, &["cluster"], Weighing::Sha256, (1, 5, 64));
    let words = [
        "cluster",
        "--weigh=flat",
        "--buffer=4",
        "--period=3",
        "--intensity=2",
    ];
    expect_cluster(&rt, &words, Weighing::Flat, (2, 3, 4));
    expect_plain(&rt, &["cluster", "x"], SCRIPT, 2, b"");
    expect_plain(&rt, &["cluster", "--buffer", "0"], SCRIPT, 2, b"");
}
