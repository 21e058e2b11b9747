//! What is kept where the wants of a child or two change.
use crate::stage::Stage;

#[test]
fn a_child_under_another_dot_goes_to_the_end_and_all_others_stay(rt: HostRuntime) {
    let mut s = Stage::of_three(&rt);
    s.puts(&rt, ("x", 9), &[("stop", "x", 1, 1), ("start", "x", 1, 4)]);
    s.has(&rt, &[("y", 1, 2), ("z", 1, 3), ("x", 1, 4)]);
}

#[test]
fn a_new_child_is_started_behind_the_others_whatever_its_id(rt: HostRuntime) {
    let mut s = Stage::of_three(&rt);
    s.puts(&rt, ("a", 9), &[("start", "a", 1, 4)]);
    s.has(&rt, &[("x", 1, 1), ("y", 1, 2), ("z", 1, 3), ("a", 1, 4)]);
}

#[test]
fn a_change_to_what_is_so_already_changes_nothing(rt: HostRuntime) {
    let mut s = Stage::of_three(&rt);
    s.puts(&rt, ("y", 2), &[]);
    s.drops(&rt, "a", &[]);
    s.has(&rt, &[("x", 1, 1), ("y", 1, 2), ("z", 1, 3)]);
}

#[test]
fn several_that_are_dropped_are_stopped_in_reverse_order(rt: HostRuntime) {
    let mut s = Stage::of_three(&rt);
    s.restarts(&rt, ("x", 1), 7, 4);
    s.drops_two(&rt, ("x", "z"), &[("stop", "z", 1, 3), ("stop", "x", 1, 4)]);
    s.has(&rt, &[("y", 1, 2)]);
    s.drops(&rt, "y", &[("stop", "y", 1, 2)]);
    s.has(&rt, &[]);
}

#[test]
fn one_is_stopped_and_then_another_is_started(rt: HostRuntime) {
    let mut s = Stage::of_three(&rt);
    let changed = [("stop", "x", 1, 1), ("start", "zz", 1, 4)];
    s.drops_and_puts(&rt, "x", ("zz", 9), &changed);
    s.has(&rt, &[("y", 1, 2), ("z", 1, 3), ("zz", 1, 4)]);
}

#[test]
fn a_child_whose_run_has_ended_leaves_with_no_stop(rt: HostRuntime) {
    let mut s = Stage::of_three(&rt);
    let before = [("x", 1, 1), ("y", 1, 2), ("z", 1, 3)];
    s.ends(&rt, "y", &before, &[]);
    s.has(&rt, &[("x", 1, 1), ("z", 1, 3)]);
}

#[test]
fn a_child_whose_run_has_ended_and_that_is_wanted_begins_anew_at_the_end(rt: HostRuntime) {
    let mut s = Stage::of_three(&rt);
    let before = [("x", 1, 1), ("y", 1, 2), ("z", 1, 3)];
    s.begins_anew(&rt, ("y", 9), &before, &[("start", "y", 1, 4)]);
    let after = [("x", 1, 1), ("z", 1, 3), ("y", 1, 4)];
    s.has(&rt, &after);
    s.begins_anew(&rt, ("y", 9), &after, &[("start", "y", 1, 5)]);
    s.has(&rt, &[("x", 1, 1), ("z", 1, 3), ("y", 1, 5)]);
}

#[test]
fn what_is_wanted_of_all_meets_what_changes_have_kept(rt: HostRuntime) {
    let mut s = Stage::of_three(&rt);
    s.puts(&rt, ("a", 9), &[("start", "a", 1, 4)]);
    s.drops(&rt, "y", &[("stop", "y", 1, 2)]);
    s.keeps_three(&rt, ("a", 9), ("x", 1), ("z", 3), &[]);
    s.keeps_two(&rt, ("a", 9), ("z", 3), &[("stop", "x", 1, 1)]);
    s.has(&rt, &[("z", 1, 3), ("a", 1, 4)]);
}
