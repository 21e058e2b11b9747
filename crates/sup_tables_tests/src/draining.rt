//! Members that drain: what a drain names and leaves, and which members children may be placed on.
use crate::acts::{absorb, drain, empty, finish, join, leave, merged};
use crate::given::{dots, node};
use crate::reading::tables;
use crate::seen::{expect_lent, expect_rows, expect_same, expect_shown};
use std::process::Abort;
use sup_causal::Dot;
use sup_specs::MAX;
use sup_tables::{PutFault, Tables};

fn expect_dots(rt: &(impl Abort + AllocGlobal), named: Vec<Dot>, wanted: &[(&str, u64)]) {
    assert!(rt; named == dots(rt, wanted));
}

// Expects these to be the members that children may be placed on.
fn expect_eligible(rt: &impl Abort, tables: &Tables, wanted: &[&str]) {
    let found = tables.eligible().expect(rt, "names");
    assert!(rt; found.len() == wanted.len());
    assert!(rt;
        found
            .iter()
            .zip(wanted)
            .all(|(name, wanted)| name.as_str() == *wanted)
    );
}

#[test]
fn a_drained_member_keeps_the_label_of_its_winner_and_no_other_entry(rt: HostRuntime) {
    let mut a = empty(&rt);
    join(&rt, &mut a, "a", "first");
    join(&rt, &mut a, "a", "again");
    join(&rt, &mut a, "b", "");
    expect_eligible(&rt, &a, &["a", "b"]);
    expect_dots(&rt, drain(&rt, &mut a, "b", "a"), &[("a", 1), ("a", 2)]);
    let shown = [
        ("draining", "a", "b", 2, "first"),
        ("member", "b", "b", 1, ""),
    ];
    expect_shown(&rt, &a, &shown);
    expect_rows(&rt, &a, &shown);
    expect_lent(&rt, &a, &shown);
    expect_eligible(&rt, &a, &["b"]);
    expect_dots(&rt, drain(&rt, &mut a, "b", "b"), &[("b", 1)]);
    expect_eligible(&rt, &a, &[]);
}

#[test]
fn a_drained_member_that_leaves_comes_back_open(rt: HostRuntime) {
    let mut a = empty(&rt);
    join(&rt, &mut a, "a", "l");
    expect_dots(&rt, drain(&rt, &mut a, "b", "a"), &[("a", 1)]);
    expect_dots(&rt, leave(&rt, &mut a, "a"), &[("b", 1)]);
    expect_eligible(&rt, &a, &[]);
    join(&rt, &mut a, "a", "l");
    expect_shown(&rt, &a, &[("member", "a", "a", 2, "l")]);
    expect_eligible(&rt, &a, &["a"]);
}

#[test]
fn a_drain_of_no_member_adds_and_names_nothing(rt: HostRuntime) {
    let mut a = empty(&rt);
    join(&rt, &mut a, "a", "l");
    let drained = a.drain_member(node(&rt, "a"), &node(&rt, "b"));
    let (delta, dot, named) = drained.expect(&rt, "tables");
    assert!(rt; dot.is_none() && named.is_empty());
    expect_same(&rt, &delta, &empty(&rt));
}

// Whether a drain of the member by a is refused because a's dots are spent.
fn is_spent(rt: &impl Abort, tables: &Tables, member: &str) -> bool {
    let drained = tables.drain_member(node(rt, "a"), &node(rt, member));
    matches!(drained, Err(PutFault::DotsSpent))
}

#[test]
fn nothing_is_drained_past_the_greatest_counter(rt: HostRuntime) {
    let mut a = empty(&rt);
    join(&rt, &mut a, "b", "l");
    assert!(rt; !is_spent(&rt, &a, "b") && !is_spent(&rt, &a, "c"));
    finish(&rt, &mut a, "a", MAX);
    assert!(rt; is_spent(&rt, &a, "b") && is_spent(&rt, &a, "c"));
}

#[test]
fn the_winners_status_counts(rt: HostRuntime) {
    let open = tables(&rt, &[("a", 2)], &[("member", "m", "a", 2, "l")]);
    let earlier = tables(&rt, &[("b", 1)], &[("draining", "m", "b", 1, "l")]);
    let later = tables(&rt, &[("b", 3)], &[("draining", "m", "b", 3, "l")]);
    expect_eligible(&rt, &open, &["m"]);
    expect_eligible(&rt, &merged(&rt, &open, &earlier), &[]);
    expect_eligible(&rt, &merged(&rt, &open, &later), &["m"]);
}

// Neither names the other's entry: the one with the lesser dot wins.
#[test]
fn two_drains_of_one_member_leave_both_entries(rt: HostRuntime) {
    let mut a = empty(&rt);
    join(&rt, &mut a, "a", "l");
    let mut b = merged(&rt, &a, &empty(&rt));
    expect_dots(&rt, drain(&rt, &mut a, "a", "a"), &[("a", 1)]);
    expect_dots(&rt, drain(&rt, &mut b, "b", "a"), &[("a", 1)]);
    absorb(&rt, &mut a, &b);
    let both = [("draining", "a", "b", 1, "l"), ("loser", "a", "a", 2, "l")];
    expect_shown(&rt, &a, &both);
}
