//! Runs in which memory is refused. `bench/refused_stories.sh` runs these tests with each growth
//! refused in turn: they take no memory of their own.
use crate::runs::{OUTPUT, SCRIPT};
use std::process::Abort;
use std::sync::Wait;
use std::thread::Threads;
use sup_supctl::run::run;

const STEP: &[u8] = b"nodes a\nstart a x\nshow a\n";

const STEP_OUTPUT: &[u8] = b"\
ok (a,1)
node a boot 1
child x (a,1) worker permanent 5000 arg= unplaced
";

const REFUSED_OUTPUT: &[u8] = b"refused 19 OutOfMemory\nnode a boot 1\n";

const SETTLED: &[u8] = b"\
nodes a b
start b x
settle
settle
settle
show a
";

const SETTLED_END: &[u8] = b"\
node a boot 1
child x (b,1) worker permanent 5000 arg= unplaced
";

const PLACED: &[u8] = b"members b a\nweb\n";

/// What a run has written into these bytes, and its status.
#[derive(Clone, Copy)]
struct LeanRun {
    status: u8,
    written: usize,
    told: usize,
}

// Runs over devices that take no memory.
fn run_lean(
    rt: &(impl Threads + Wait + Sync + AllocGlobal),
    words: &[&str],
    input: &[u8],
    printed: &mut [u8],
    errors: &mut [u8],
) -> LeanRun {
    let room = printed.len();
    let errors_room = errors.len();
    let mut reader = input;
    let mut writer = printed;
    let mut error_writer = errors;
    let ended = run(
        rt,
        rt.alloc(),
        words,
        &mut reader,
        &mut writer,
        &mut error_writer,
    );
    LeanRun {
        status: ended.status,
        written: room.saturating_sub(writer.len()),
        told: errors_room.saturating_sub(error_writer.len()),
    }
}

// A run that ends for want of memory says so, and has written a front of what it should; one that
// doesn't has written all.
fn expect_front(rt: &impl Abort, ended: LeanRun, printed: &[u8], errors: &[u8], wanted: &[u8]) {
    if ended.status == 0 {
        assert!(rt; ended.told == 0 && ended.written == wanted.len());
    } else {
        assert!(rt; ended.status == 3 && ended.told == 14);
        assert!(rt; errors.starts_with(b"out of memory\n"));
        assert!(rt; ended.written <= wanted.len());
    }
    let mut pairs = printed.iter().zip(wanted).take(ended.written);
    assert!(rt; pairs.all(|(byte, wanted)| byte == wanted));
}

#[test]
fn a_refused_allocation_ends_the_run_or_changes_nothing(rt: HostRuntime) {
    let mut printed = [0u8; 128];
    let mut errors = [0u8; 32];
    let ended = run_lean(&rt, &["simulate"], SCRIPT, &mut printed, &mut errors);
    expect_front(&rt, ended, &printed, &errors, OUTPUT);
}

#[test]
fn a_refused_allocation_ends_a_placement_or_changes_nothing(rt: HostRuntime) {
    let mut printed = [0u8; 128];
    let mut errors = [0u8; 32];
    let words = ["place", "--weigh", "flat"];
    let ended = run_lean(&rt, &words, PLACED, &mut printed, &mut errors);
    expect_front(&rt, ended, &printed, &errors, b"web a\n");
    // The whole text stands before anything is written.
    assert!(rt; ended.status == 0 || ended.written == 0);
}

// A step that is refused for memory prints that, and the run goes on as if it weren't there.
#[test]
fn a_refused_allocation_ends_the_run_or_refuses_a_step(rt: HostRuntime) {
    let mut printed = [0u8; 128];
    let mut errors = [0u8; 32];
    let ended = run_lean(&rt, &["simulate"], STEP, &mut printed, &mut errors);
    if printed.starts_with(b"refused") {
        expect_front(&rt, ended, &printed, &errors, REFUSED_OUTPUT);
    } else {
        expect_front(&rt, ended, &printed, &errors, STEP_OUTPUT);
    }
}

// A settling that is refused for memory prints that, and another one does what it lacks: in the end
// all is known.
#[test]
fn a_refused_allocation_ends_the_run_or_a_settling(rt: HostRuntime) {
    let mut printed = [0u8; 256];
    let mut errors = [0u8; 32];
    let ended = run_lean(&rt, &["simulate"], SETTLED, &mut printed, &mut errors);
    if ended.status == 0 {
        assert!(rt; ended.told == 0);
        let start_refused = printed.starts_with(b"refused");
        let front = printed.get(..ended.written).unwrap_or(b"");
        assert!(rt; start_refused != front.ends_with(SETTLED_END));
    } else {
        assert!(rt; ended.status == 3 && ended.told == 14);
        assert!(rt; errors.starts_with(b"out of memory\n"));
    }
}
