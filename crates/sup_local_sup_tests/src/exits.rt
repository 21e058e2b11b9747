//! What exits call for.
use crate::given::{child, permanent};
use crate::seen::expect_finished;
use crate::stage::Stage;
use std::process::Abort;
use sup_local_sup::{Verdict, laws};
use sup_specs::{ExitReason, Label, Restart};

// Whether a verdict begins a run again. If not, it ends the entry under the dot with counter 1.
fn begins_again(rt: &impl Abort, verdict: &Verdict) -> bool {
    match verdict {
        Verdict::Restarted(_) => true,
        verdict => {
            expect_finished(rt, verdict, 1);
            false
        }
    }
}

// Expects the second run of the job to be kept, or nothing.
fn expect_job(rt: &impl Abort, s: &Stage, is_kept: bool) {
    if is_kept {
        s.has(rt, &[("job", 1, 2)])
    } else {
        s.has(rt, &[])
    }
}

// Whether a child of this kind of restart is started again after an exit for this reason.
fn is_started_again(
    rt: &(impl Abort + AllocGlobal),
    restart: Restart,
    reason: &ExitReason,
) -> bool {
    let mut s = Stage::new(rt, 1, 5);
    s.takes_one(rt, child(rt, "job", 1, restart), &[("start", "job", 1, 1)]);
    let again = begins_again(rt, &s.exit(rt, ("job", 1), reason, 7));
    expect_job(rt, &s, again);
    again
}

// Expects a permanent child to be started again, a temporary one not to be, and a transient one as is said.
fn expect_started_again(rt: &(impl Abort + AllocGlobal), reason: &ExitReason, transient: bool) {
    assert!(rt; is_started_again(rt, Restart::Permanent, reason));
    assert!(rt; !is_started_again(rt, Restart::Temporary, reason));
    assert!(rt; is_started_again(rt, Restart::Transient, reason) == transient);
}

#[test]
fn a_permanent_child_is_always_started_again_a_temporary_never_and_a_transient_after_a_failure(
    rt: HostRuntime,
) {
    let word = Label::parse(rt.alloc(), "done").expect(&rt, "a word");
    expect_started_again(&rt, &ExitReason::Normal, false);
    expect_started_again(&rt, &ExitReason::Shutdown, false);
    expect_started_again(&rt, &ExitReason::ShutdownWith(word), false);
    expect_started_again(&rt, &ExitReason::Failed, true);
    expect_started_again(&rt, &ExitReason::Crash, true);
}

#[test]
fn an_exit_of_a_run_that_is_not_kept_is_stale_and_changes_nothing(rt: HostRuntime) {
    let mut s = Stage::of_three(&rt);
    s.restarts(&rt, ("x", 1), 7, 4);
    for (name, boot, k) in [
        ("x", 1, 1),
        ("x", 1, 2),
        ("x", 2, 4),
        ("w", 1, 4),
        ("y", 1, 4),
    ] {
        s.is_stale(&rt, name, boot, k);
        s.has(&rt, &[("x", 1, 4), ("y", 1, 2), ("z", 1, 3)]);
    }
}

// A supervisor that keeps three children, of which y is temporary.
fn with_temporary(rt: &(impl Abort + AllocGlobal)) -> Stage {
    let mut s = Stage::new(rt, 1, 5);
    let y = child(rt, "y", 2, Restart::Temporary);
    let started = [
        ("start", "x", 1, 1),
        ("start", "y", 1, 2),
        ("start", "z", 1, 3),
    ];
    s.takes_three(
        rt,
        permanent(rt, "x", 1),
        y,
        permanent(rt, "z", 3),
        &started,
    );
    s
}

#[test]
fn a_child_that_is_done_is_kept_no_longer_and_gets_no_stop(rt: HostRuntime) {
    let mut s = with_temporary(&rt);
    s.finishes(&rt, ("y", 2), 7, 2);
    s.has(&rt, &[("x", 1, 1), ("z", 1, 3)]);
    s.keeps_one(&rt, ("z", 3), &[("stop", "x", 1, 1)]);
}

#[test]
fn the_laws_can_be_called(_rt: HostRuntime) {
    laws::kept_is_what_is_wanted();
    laws::the_newest_moments_decide();
}
