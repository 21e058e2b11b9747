//! A story of ten calls that goes on where a growth was refused: the call answers so and changes nothing, and made once
//! more it does what it should have done.
use crate::given::{child, inc, keep_two, try_child, try_id};
use crate::seen::{Kept, Seen, expect_effects, expect_gave_up, expect_kept, expect_restarted};
use std::process::Abort;
use sup_local_sup::{Effects, SupFault, Supervisor, Verdict, Wanted};
use sup_specs::{ChildId, ExitReason, Restart};

pub(crate) fn sure_id(rt: &(impl Abort + AllocGlobal), name: &str) -> ChildId {
    match try_id(rt, name) {
        Ok(id) => id,
        Err(_) => try_id(rt, name).expect(rt, "an id"),
    }
}

pub(crate) fn sure_child(rt: &(impl Abort + AllocGlobal), name: &str, counter: u64) -> Wanted {
    match try_child(rt, name, counter, Restart::Permanent) {
        Ok(wanted) => wanted,
        Err(_) => child(rt, name, counter, Restart::Permanent),
    }
}

// A supervisor, where a refused growth isn't the end.
pub(crate) fn sure_supervisor(rt: &(impl Abort + AllocGlobal)) -> Supervisor {
    match Supervisor::new(rt.alloc(), 1, 2, 5) {
        Ok(supervisor) => supervisor,
        Err(_) => Supervisor::new(rt.alloc(), 1, 2, 5).expect(rt, "a supervisor"),
    }
}

fn sure_copy(rt: &impl Abort, supervisor: &Supervisor) -> Supervisor {
    match supervisor.try_clone() {
        Ok(copy) => copy,
        Err(_) => supervisor.try_clone().expect(rt, "a copy"),
    }
}

pub(crate) fn expect_refused(
    rt: &impl Abort,
    fault: SupFault,
    supervisor: &Supervisor,
    kept: &[Kept<'_>],
) {
    assert!(rt; fault == SupFault::OutOfMemory);
    expect_kept(rt, supervisor, kept);
}

fn try_two(
    rt: &(impl Abort + AllocGlobal),
    supervisor: &mut Supervisor,
    names: (&str, &str),
) -> Result<Effects, SupFault> {
    let first = sure_child(rt, names.0, 1);
    let second = sure_child(rt, names.1, 2);
    keep_two(rt, supervisor, first, second)
}

// Keeps these two, from a kept list that a refusal leaves.
fn sure_two(
    rt: &(impl Abort + AllocGlobal),
    supervisor: &mut Supervisor,
    names: (&str, &str),
    before: &[Kept<'_>],
) -> Effects {
    match try_two(rt, supervisor, names) {
        Ok(effects) => effects,
        Err(fault) => {
            expect_refused(rt, fault, supervisor, before);
            try_two(rt, supervisor, names).expect(rt, "effects")
        }
    }
}

fn sure_crash(
    rt: &(impl Abort + AllocGlobal),
    supervisor: &mut Supervisor,
    run: (&str, u64),
    now: u64,
    before: &[Kept<'_>],
) -> Verdict {
    let id = sure_id(rt, run.0);
    match supervisor.exited(&id, inc(1, run.1), &ExitReason::Crash, now) {
        Ok(verdict) => verdict,
        Err(fault) => {
            expect_refused(rt, fault, supervisor, before);
            let again = supervisor.exited(&id, inc(1, run.1), &ExitReason::Crash, now);
            again.expect(rt, "a verdict")
        }
    }
}

// Keeps these two, and expects what this starts and stops.
fn keeps(
    rt: &(impl Abort + AllocGlobal),
    supervisor: &mut Supervisor,
    names: (&str, &str),
    before: &[Kept<'_>],
    wanted: &[Seen<'_>],
) {
    expect_effects(rt, &sure_two(rt, supervisor, names, before), wanted)
}

// Expects a crash at this moment to begin the run of this number.
pub(crate) fn restarts(
    rt: &(impl Abort + AllocGlobal),
    supervisor: &mut Supervisor,
    run: (&str, u64),
    now: u64,
    before: &[Kept<'_>],
    next: u64,
) {
    let verdict = sure_crash(rt, supervisor, run, now, before);
    expect_restarted(rt, &verdict, ("start", run.0, 1, next))
}

// Keeps x and y, and restarts x.
fn first_of_two(rt: &(impl Abort + AllocGlobal)) -> Supervisor {
    let mut s = sure_supervisor(rt);
    let started = [("start", "x", 1, 1), ("start", "y", 1, 2)];
    keeps(rt, &mut s, ("x", "y"), &[], &started);
    restarts(rt, &mut s, ("x", 1), 10, &[("x", 1, 1), ("y", 1, 2)], 3);
    s
}

// Keeps y, under another dot, and z, and restarts z.
fn keep_others(rt: &(impl Abort + AllocGlobal), s: &mut Supervisor) {
    let changed = [
        ("stop", "y", 1, 2),
        ("stop", "x", 1, 3),
        ("start", "y", 1, 4),
        ("start", "z", 1, 5),
    ];
    keeps(rt, s, ("y", "z"), &[("x", 1, 3), ("y", 1, 2)], &changed);
    restarts(rt, s, ("z", 5), 11, &[("y", 1, 4), ("z", 1, 5)], 6);
}

fn give_up(rt: &(impl Abort + AllocGlobal), s: &mut Supervisor) {
    let verdict = sure_crash(rt, s, ("y", 4), 9, &[("y", 1, 4), ("z", 1, 6)]);
    expect_gave_up(rt, &verdict, &[("stop", "z", 1, 6)])
}

// Keeps two again, and restarts the second.
fn begin_again(rt: &(impl Abort + AllocGlobal), s: &mut Supervisor) {
    let started = [("start", "a", 1, 7), ("start", "b", 1, 8)];
    keeps(rt, s, ("a", "b"), &[], &started);
    restarts(rt, s, ("b", 8), 3, &[("a", 1, 7), ("b", 1, 8)], 9);
}

// Goes on with a copy of the first supervisor, and gives a copy of what comes of it.
fn goes_on(rt: &(impl Abort + AllocGlobal), first: &Supervisor) -> Supervisor {
    let mut s = sure_copy(rt, first);
    keep_others(rt, &mut s);
    give_up(rt, &mut s);
    begin_again(rt, &mut s);
    sure_copy(rt, &s)
}

// Three restarts within 5 seconds are too many.
#[test]
fn a_refused_growth_changes_nothing_and_the_call_can_be_made_again(rt: HostRuntime) {
    let first = first_of_two(&rt);
    expect_kept(&rt, &goes_on(&rt, &first), &[("a", 1, 7), ("b", 1, 9)]);
    expect_kept(&rt, &first, &[("x", 1, 3), ("y", 1, 2)]);
}
