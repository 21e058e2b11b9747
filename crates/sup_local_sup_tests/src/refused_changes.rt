//! A story of changes that goes on where a growth was refused. A call that is refused changes nothing, and made once more
//! does what it should have done. Where it is the map that may not grow, after all was planned, the call is not refused:
//! what stands behind the map then is restarted, replaced and dropped as if it stood in it.
use crate::changes::{drop_one, drop_two, put_one};
use crate::refused::{expect_refused, restarts, sure_child, sure_id, sure_supervisor};
use crate::seen::{Kept, Seen, expect_effects, expect_kept};
use std::process::Abort;
use sup_local_sup::{Effects, SupFault, Supervisor};

// A change of what is wanted.
#[derive(Drop)]
enum Deed<'a> {
    // The child, and the counter of its dot.
    Puts(&'a str, u64),
    Drops(&'a str),
    DropsBoth(&'a str, &'a str),
}

fn tried(
    rt: &(impl Abort + AllocGlobal),
    s: &mut Supervisor,
    deed: &Deed<'_>,
) -> Result<Effects, SupFault> {
    match deed {
        Deed::Puts(name, counter) => put_one(rt, s, sure_child(rt, name, *counter)),
        Deed::Drops(name) => drop_one(s, sure_id(rt, name)),
        Deed::DropsBoth(first, second) => {
            drop_two(rt, s, sure_id(rt, first), sure_id(rt, second))
        }
    }
}

// Expects this of a change, from a kept list that a refusal leaves.
fn does(
    rt: &(impl Abort + AllocGlobal),
    s: &mut Supervisor,
    deed: &Deed<'_>,
    before: &[Kept<'_>],
    wanted: &[Seen<'_>],
) {
    match tried(rt, s, deed) {
        Ok(effects) => expect_effects(rt, &effects, wanted),
        Err(fault) => {
            expect_refused(rt, fault, s, before);
            let effects = tried(rt, s, deed).expect(rt, "effects");
            expect_effects(rt, &effects, wanted)
        }
    }
}

// Expects a child to be started as the run of this number, behind those before.
fn starts(
    rt: &(impl Abort + AllocGlobal),
    s: &mut Supervisor,
    name: &str,
    before: &[Kept<'_>],
    k: u64,
) {
    does(
        rt,
        s,
        &Deed::Puts(name, 1),
        before,
        &[("start", name, 1, k)],
    )
}

// Expects the run of a child to be stopped, and the next one to be started under another dot.
fn replaces(
    rt: &(impl Abort + AllocGlobal),
    s: &mut Supervisor,
    name: &str,
    before: &[Kept<'_>],
    runs: (u64, u64),
) {
    let replaced = [("stop", name, 1, runs.0), ("start", name, 1, runs.1)];
    does(rt, s, &Deed::Puts(name, runs.1), before, &replaced)
}

// Expects the run of a child to be stopped.
fn drops(
    rt: &(impl Abort + AllocGlobal),
    s: &mut Supervisor,
    name: &str,
    before: &[Kept<'_>],
    k: u64,
) {
    does(rt, s, &Deed::Drops(name), before, &[("stop", name, 1, k)])
}

// Keeps a: starts, restarts, replaces, drops and starts it.
fn one(rt: &(impl Abort + AllocGlobal)) -> Supervisor {
    let mut s = sure_supervisor(rt);
    starts(rt, &mut s, "a", &[], 1);
    restarts(rt, &mut s, ("a", 1), 10, &[("a", 1, 1)], 2);
    replaces(rt, &mut s, "a", &[("a", 1, 2)], (2, 3));
    drops(rt, &mut s, "a", &[("a", 1, 3)], 3);
    starts(rt, &mut s, "a", &[], 4);
    s
}

// Keeps b to d too, and replaces d, which was started again.
fn up_to_d(rt: &(impl Abort + AllocGlobal), s: &mut Supervisor) {
    starts(rt, s, "b", &[("a", 1, 4)], 5);
    starts(rt, s, "c", &[("a", 1, 4), ("b", 1, 5)], 6);
    starts(rt, s, "d", &[("a", 1, 4), ("b", 1, 5), ("c", 1, 6)], 7);
    let four = [("a", 1, 4), ("b", 1, 5), ("c", 1, 6), ("d", 1, 7)];
    restarts(rt, s, ("d", 7), 20, &four, 8);
    let four = [("a", 1, 4), ("b", 1, 5), ("c", 1, 6), ("d", 1, 8)];
    replaces(rt, s, "d", &four, (8, 9));
}

// Keeps e too, starts it again and drops it together with b.
fn without_b(rt: &(impl Abort + AllocGlobal), s: &mut Supervisor) {
    let four = [("a", 1, 4), ("b", 1, 5), ("c", 1, 6), ("d", 1, 9)];
    starts(rt, s, "e", &four, 10);
    let five = [
        ("a", 1, 4),
        ("b", 1, 5),
        ("c", 1, 6),
        ("d", 1, 9),
        ("e", 1, 10),
    ];
    restarts(rt, s, ("e", 10), 30, &five, 11);
    let five = [
        ("a", 1, 4),
        ("b", 1, 5),
        ("c", 1, 6),
        ("d", 1, 9),
        ("e", 1, 11),
    ];
    let stopped = [("stop", "e", 1, 11), ("stop", "b", 1, 5)];
    does(rt, s, &Deed::DropsBoth("b", "e"), &five, &stopped);
}

// Keeps f to h too: the map of a list of some children grows.
fn up_to_h(rt: &(impl Abort + AllocGlobal), s: &mut Supervisor) {
    let three = [("a", 1, 4), ("c", 1, 6), ("d", 1, 9)];
    starts(rt, s, "f", &three, 12);
    let four = [("a", 1, 4), ("c", 1, 6), ("d", 1, 9), ("f", 1, 12)];
    starts(rt, s, "g", &four, 13);
    let five = [
        ("a", 1, 4),
        ("c", 1, 6),
        ("d", 1, 9),
        ("f", 1, 12),
        ("g", 1, 13),
    ];
    starts(rt, s, "h", &five, 14);
}

// Moves c, which stands in the midst, to the end, and drops a.
fn c_at_the_end(rt: &(impl Abort + AllocGlobal), s: &mut Supervisor) {
    let six = [
        ("a", 1, 4),
        ("c", 1, 6),
        ("d", 1, 9),
        ("f", 1, 12),
        ("g", 1, 13),
        ("h", 1, 14),
    ];
    replaces(rt, s, "c", &six, (6, 15));
    let six = [
        ("a", 1, 4),
        ("d", 1, 9),
        ("f", 1, 12),
        ("g", 1, 13),
        ("h", 1, 14),
        ("c", 1, 15),
    ];
    drops(rt, s, "a", &six, 4);
}

#[test]
fn a_refused_growth_changes_nothing_or_all_that_was_planned(rt: HostRuntime) {
    let mut s = one(&rt);
    up_to_d(&rt, &mut s);
    without_b(&rt, &mut s);
    up_to_h(&rt, &mut s);
    c_at_the_end(&rt, &mut s);
    let kept = [
        ("d", 1, 9),
        ("f", 1, 12),
        ("g", 1, 13),
        ("h", 1, 14),
        ("c", 1, 15),
    ];
    expect_kept(&rt, &s, &kept);
}
