//! Restarts, their moments, and when there are too many.
use crate::stage::Stage;
use std::process::Abort;

#[test]
fn an_earlier_moment_counts_as_the_last_and_the_second_restart_within_the_period_gives_up(
    rt: HostRuntime,
) {
    let mut s = Stage::new(&rt, 1, 5);
    let started = [("start", "x", 1, 1), ("start", "y", 1, 2)];
    s.keeps_two(&rt, ("x", 1), ("y", 2), &started);
    s.restarts(&rt, ("x", 1), 3, 3);
    s.has(&rt, &[("x", 1, 3), ("y", 1, 2)]);
    s.gives_up(&rt, ("y", 2), 2, &[("stop", "x", 1, 3)]);
    s.has(&rt, &[]);
}

#[test]
fn with_intensity_0_the_first_due_restart_gives_up(rt: HostRuntime) {
    let mut s = Stage::new(&rt, 0, 5);
    let started = [("start", "x", 1, 1), ("start", "y", 1, 2)];
    s.keeps_two(&rt, ("x", 1), ("y", 2), &started);
    s.gives_up(&rt, ("x", 1), 3, &[("stop", "y", 1, 2)]);
    s.has(&rt, &[]);
}

// A supervisor that keeps one child, after its restart at the moment 10.
fn once_restarted(rt: &(impl Abort + AllocGlobal)) -> Stage {
    let mut s = Stage::new(rt, 1, 5);
    s.keeps_one(rt, ("web", 2), &[("start", "web", 1, 1)]);
    s.restarts(rt, ("web", 1), 10, 2);
    s
}

#[test]
fn a_restart_as_old_as_the_period_counts_and_an_older_one_does_not(rt: HostRuntime) {
    once_restarted(&rt).gives_up(&rt, ("web", 2), 15, &[]);
    once_restarted(&rt).restarts(&rt, ("web", 2), 16, 3);
}

// Of the restarts at 0, 4, 8 and 12 no three are within 7 seconds; of those at 8, 12 and 13 three are.
#[test]
fn restarts_that_are_far_apart_never_give_up(rt: HostRuntime) {
    let mut s = Stage::new(&rt, 2, 7);
    s.keeps_one(&rt, ("web", 1), &[("start", "web", 1, 1)]);
    for (k, next, now) in [(1, 2, 0), (2, 3, 4), (3, 4, 8), (4, 5, 12)] {
        s.restarts(&rt, ("web", k), now, next);
    }
    s.gives_up(&rt, ("web", 5), 13, &[]);
}

#[test]
fn after_a_give_up_all_moments_are_forgotten_and_the_incarnations_go_on(rt: HostRuntime) {
    let mut s = once_restarted(&rt);
    s.gives_up(&rt, ("web", 2), 10, &[]);
    s.keeps_one(&rt, ("web", 2), &[("start", "web", 1, 3)]);
    s.restarts(&rt, ("web", 3), 2, 4);
    s.has(&rt, &[("web", 1, 4)]);
}
