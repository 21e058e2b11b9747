//! Stories of nodes that join, start, register and remove, at values that were worked out by hand.
use crate::acts::{
    absorb, copy, delete, empty, finish, join, leave, merged, register, replace, start, unregister,
};
use crate::given::{child_id, dots, node, spec};
use crate::seen::{expect_more, expect_rows, expect_same, expect_shown, knows};
use std::process::Abort;
use sup_causal::Dot;
use sup_specs::MAX;
use sup_tables::{PutFault, Tables, laws};

// What c knows of a start of db by a and by itself, neither of which knew of the other.
fn two_starts(rt: &(impl Abort + AllocGlobal)) -> Tables {
    let mut c = empty(rt);
    let mut a = empty(rt);
    start(rt, &mut c, "c", "db", "slow");
    start(rt, &mut a, "a", "db", "quick");
    absorb(rt, &mut c, &a);
    c
}

// Expects these to be the dots that an operation names, in this order.
fn expect_dots(rt: &(impl Abort + AllocGlobal), named: Vec<Dot>, wanted: &[(&str, u64)]) {
    assert!(rt; named == dots(rt, wanted));
}

#[test]
fn of_equal_counters_the_least_node_wins_and_a_replacement_names_both(rt: HostRuntime) {
    let mut c = two_starts(&rt);
    let both = [
        ("child", "db", "a", 1, "quick"),
        ("loser", "db", "c", 1, "slow"),
    ];
    expect_shown(&rt, &c, &both);
    expect_dots(
        &rt,
        replace(&rt, &mut c, "c", "db", "new"),
        &[("a", 1), ("c", 1)],
    );
    expect_shown(&rt, &c, &[("child", "db", "c", 2, "new")]);
}

#[test]
fn the_least_counter_wins_before_the_least_node(rt: HostRuntime) {
    let mut a = empty(&rt);
    let mut b = empty(&rt);
    join(&rt, &mut a, "a", "l");
    start(&rt, &mut a, "a", "db", "quick");
    start(&rt, &mut b, "b", "db", "slow");
    let shown = [
        ("member", "a", "a", 1, "l"),
        ("child", "db", "b", 1, "slow"),
        ("loser", "db", "a", 2, "quick"),
    ];
    expect_shown(&rt, &merged(&rt, &a, &b), &shown);
}

#[test]
fn a_deleted_child_takes_its_registrations_along(rt: HostRuntime) {
    let mut c = two_starts(&rt);
    register(&rt, &mut c, "c", "www", "db");
    register(&rt, &mut c, "c", "api", "other");
    register(&rt, &mut c, "c", "api", "db");
    let gone = [("a", 1), ("c", 1), ("c", 2), ("c", 4)];
    expect_dots(&rt, delete(&rt, &mut c, "db"), &gone);
    expect_shown(&rt, &c, &[("name", "api", "c", 3, "other")]);
}

#[test]
fn a_finished_child_leaves_the_loser_to_win_and_nothing_brings_it_back(rt: HostRuntime) {
    let mut c = two_starts(&rt);
    let before = copy(&rt, &c);
    expect_same(&rt, &before, &c);
    finish(&rt, &mut c, "a", 1);
    expect_more(&rt, &c, &before);
    absorb(&rt, &mut c, &before);
    expect_shown(&rt, &c, &[("child", "db", "c", 1, "slow")]);
}

#[test]
fn an_unregistered_name_takes_winner_and_loser(rt: HostRuntime) {
    let mut a = empty(&rt);
    let mut b = empty(&rt);
    register(&rt, &mut a, "a", "n", "db");
    register(&rt, &mut b, "b", "n", "web");
    absorb(&rt, &mut a, &b);
    let both = [("name", "n", "a", 1, "db"), ("loser", "n", "b", 1, "web")];
    expect_shown(&rt, &a, &both);
    expect_dots(&rt, unregister(&rt, &mut a, "n"), &[("a", 1), ("b", 1)]);
    expect_shown(&rt, &a, &[]);
    expect_dots(&rt, unregister(&rt, &mut a, "n"), &[]);
}

#[test]
fn a_member_that_left_comes_back_under_a_new_dot(rt: HostRuntime) {
    let mut a = empty(&rt);
    join(&rt, &mut a, "a", "");
    join(&rt, &mut a, "a", "again");
    let both = [("member", "a", "a", 1, ""), ("loser", "a", "a", 2, "again")];
    expect_shown(&rt, &a, &both);
    expect_dots(&rt, leave(&rt, &mut a, "a"), &[("a", 1), ("a", 2)]);
    join(&rt, &mut a, "a", "back");
    expect_shown(&rt, &a, &[("member", "a", "a", 3, "back")]);
}

#[test]
fn lists_and_rows_go_by_table_and_then_by_key(rt: HostRuntime) {
    let mut b = empty(&rt);
    register(&rt, &mut b, "b", "www", "db");
    start(&rt, &mut b, "b", "db", "k");
    start(&rt, &mut b, "b", "cache", "k");
    join(&rt, &mut b, "b", "l");
    let shown = [
        ("member", "b", "b", 4, "l"),
        ("child", "cache", "b", 3, "k"),
        ("child", "db", "b", 2, "k"),
        ("name", "www", "b", 1, "db"),
    ];
    expect_shown(&rt, &b, &shown);
    expect_rows(&rt, &b, &shown);
}

// Whether a start by a is refused because its dots are spent.
fn is_spent(rt: &(impl Abort + AllocGlobal), tables: &Tables) -> bool {
    let put = tables.put_child(node(rt, "a"), child_id(rt, "db"), spec(rt, "k"));
    matches!(put, Err(PutFault::DotsSpent))
}

#[test]
fn nothing_is_added_past_the_greatest_counter(rt: HostRuntime) {
    let mut a = empty(&rt);
    assert!(rt; !is_spent(&rt, &a));
    finish(&rt, &mut a, "a", MAX);
    assert!(rt; is_spent(&rt, &a) && knows(&rt, &a, "a", MAX));
}

#[test]
fn laws_take_no_values() {
    laws::order_and_repeats_are_free();
    laws::covering_is_a_preorder();
    laws::the_test_of_covering_is_exact();
    laws::unnamed_adds_stay();
    laws::next_follows_the_greatest();
}
