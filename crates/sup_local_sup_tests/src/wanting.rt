//! What is kept of what is wanted.
use crate::stage::Stage;
use std::process::Abort;

#[test]
fn what_is_dropped_is_stopped_in_reverse_order_and_then_what_is_new_is_started_by_id(
    rt: HostRuntime,
) {
    let mut s = Stage::of_three(&rt);
    let changed = [
        ("stop", "z", 1, 3),
        ("stop", "x", 1, 1),
        ("start", "a", 1, 4),
        ("start", "m", 1, 5),
    ];
    s.keeps_three(&rt, ("a", 4), ("m", 5), ("y", 2), &changed);
    s.has(&rt, &[("y", 1, 2), ("a", 1, 4), ("m", 1, 5)]);
    let stopped = [
        ("stop", "m", 1, 5),
        ("stop", "a", 1, 4),
        ("stop", "y", 1, 2),
    ];
    s.keeps_none(&rt, &stopped);
    s.has(&rt, &[]);
}

#[test]
fn a_child_that_is_wanted_under_another_dot_is_stopped_and_goes_to_the_end(rt: HostRuntime) {
    let mut s = Stage::of_three(&rt);
    let changed = [("stop", "x", 1, 1), ("start", "x", 1, 4)];
    s.keeps_three(&rt, ("x", 9), ("y", 2), ("z", 3), &changed);
    s.has(&rt, &[("y", 1, 2), ("z", 1, 3), ("x", 1, 4)]);
}

#[test]
fn a_restarted_child_keeps_its_place(rt: HostRuntime) {
    let mut s = Stage::of_three(&rt);
    s.restarts(&rt, ("y", 2), 7, 4);
    s.has(&rt, &[("x", 1, 1), ("y", 1, 4), ("z", 1, 3)]);
    s.keeps_two(&rt, ("x", 1), ("z", 3), &[("stop", "y", 1, 4)]);
}

#[test]
fn what_is_wanted_as_before_changes_nothing(rt: HostRuntime) {
    let mut s = Stage::of_three(&rt);
    s.keeps_three(&rt, ("x", 1), ("y", 2), ("z", 3), &[]);
    s.has(&rt, &[("x", 1, 1), ("y", 1, 2), ("z", 1, 3)]);
}

#[test]
fn a_plan_changes_nothing_until_it_is_carried_out(rt: HostRuntime) {
    let mut s = Stage::of_three(&rt);
    let plan = s.plans_to_give_up(&rt, "y").expect(&rt, "a plan");
    s.plans_restart(&rt, "z", &[("start", "z", 1, 4)]);
    s.has(&rt, &[("x", 1, 1), ("y", 1, 2), ("z", 1, 3)]);
    s.carries_out(&rt, plan, &[("stop", "z", 1, 3), ("stop", "x", 1, 1)]);
    s.has(&rt, &[]);
}

#[test]
fn a_copy_goes_on_by_itself(rt: HostRuntime) {
    let s = Stage::of_three(&rt);
    let mut copy = s.copy(&rt);
    let stopped = [("stop", "z", 1, 3), ("stop", "x", 1, 1)];
    copy.keeps_one(&rt, ("y", 2), &stopped);
    copy.restarts(&rt, ("y", 2), 7, 4);
    copy.has(&rt, &[("y", 1, 4)]);
    s.has(&rt, &[("x", 1, 1), ("y", 1, 2), ("z", 1, 3)]);
}
