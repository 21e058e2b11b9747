//! Stories of two nodes, at values that were worked out by hand.
use crate::peers::{
    acknowledge, exchange, expect_same, expect_sent, expect_up_to_date, knows, new_peer, node,
    restart, shipment, start,
};
use std::process::Abort;
use sup_anti_entropy::NoteFault;
use sup_specs::MAX;
use sup_tables::Tables;

#[test]
fn a_new_buffer_has_nothing_to_send(rt: HostRuntime) {
    let a = new_peer(&rt, "a", 64);
    let b = new_peer(&rt, "b", 64);
    assert!(rt; a.buffer.count() == 0 && a.buffer.held() == 0);
    assert!(rt; a.buffer.acknowledged(&b.name) == 0);
    expect_up_to_date(&rt, &a, &b);
}

#[test]
fn what_is_acknowledged_is_not_sent_again(rt: HostRuntime) {
    let mut a = new_peer(&rt, "a", 64);
    let mut b = new_peer(&rt, "b", 64);
    start(&rt, &mut a, "x");
    start(&rt, &mut a, "y");
    let part = expect_sent(&rt, &a, &b, 2, false);
    expect_same(&rt, &part, &a.tables);
    exchange(&rt, &mut a, &mut b);
    expect_same(&rt, &b.tables, &a.tables);
    expect_up_to_date(&rt, &a, &b);
    start(&rt, &mut a, "z");
    let part = expect_sent(&rt, &a, &b, 3, false);
    assert!(rt; knows(&rt, &part, "a", 3) && !knows(&rt, &part, "a", 2));
    assert!(rt; part.row_count() == 1);
}

#[test]
fn an_overwritten_interval_is_sent_whole(rt: HostRuntime) {
    let mut a = new_peer(&rt, "a", 1);
    let mut b = new_peer(&rt, "b", 1);
    start(&rt, &mut a, "x");
    expect_sent(&rt, &a, &b, 1, false);
    exchange(&rt, &mut a, &mut b);
    start(&rt, &mut a, "y");
    start(&rt, &mut a, "z");
    assert!(rt; a.buffer.held() == 1 && a.buffer.count() == 3);
    let whole = expect_sent(&rt, &a, &b, 3, true);
    expect_same(&rt, &whole, &a.tables);
    exchange(&rt, &mut a, &mut b);
    expect_same(&rt, &b.tables, &a.tables);
}

#[test]
fn the_newest_deltas_are_the_ones_held(rt: HostRuntime) {
    let mut a = new_peer(&rt, "a", 2);
    let b = new_peer(&rt, "b", 2);
    start(&rt, &mut a, "x");
    start(&rt, &mut a, "y");
    start(&rt, &mut a, "z");
    acknowledge(&rt, &mut a, &b, 1);
    let part = expect_sent(&rt, &a, &b, 3, false);
    assert!(rt; knows(&rt, &part, "a", 2) && knows(&rt, &part, "a", 3));
    assert!(rt; !knows(&rt, &part, "a", 1));
}

#[test]
fn a_restart_forgets_acknowledgements_and_goes_on_counting(rt: HostRuntime) {
    let mut a = new_peer(&rt, "a", 64);
    let mut b = new_peer(&rt, "b", 64);
    start(&rt, &mut a, "x");
    exchange(&rt, &mut a, &mut b);
    restart(&rt, &mut a, 1);
    assert!(rt; a.buffer.acknowledged(&b.name) == 0 && a.buffer.held() == 0);
    expect_sent(&rt, &a, &b, 1, true);
    // The acknowledgement comes once more, late.
    acknowledge(&rt, &mut a, &b, 1);
    expect_up_to_date(&rt, &a, &b);
    start(&rt, &mut a, "y");
    let part = expect_sent(&rt, &a, &b, 2, false);
    assert!(rt; knows(&rt, &part, "a", 2) && !knows(&rt, &part, "a", 1));
}

#[test]
fn an_acknowledged_number_only_rises_and_is_kept_by_peer(rt: HostRuntime) {
    let mut a = new_peer(&rt, "a", 64);
    let b = new_peer(&rt, "b", 64);
    let c = new_peer(&rt, "c", 64);
    start(&rt, &mut a, "x");
    start(&rt, &mut a, "y");
    acknowledge(&rt, &mut a, &b, 2);
    acknowledge(&rt, &mut a, &b, 1);
    acknowledge(&rt, &mut a, &c, 1);
    assert!(rt; a.buffer.acknowledged(&b.name) == 2 && a.buffer.acknowledged(&c.name) == 1);
    assert!(rt; a.buffer.acknowledged(&node(&rt, "d")) == 0);
    expect_up_to_date(&rt, &a, &b);
    expect_sent(&rt, &a, &c, 2, false);
}

#[test]
fn a_spent_count_notes_nothing(rt: HostRuntime) {
    let mut a = new_peer(&rt, "a", 64);
    let b = new_peer(&rt, "b", 64);
    restart(&rt, &mut a, MAX - 1);
    start(&rt, &mut a, "x");
    assert!(rt; a.buffer.count() == MAX && a.buffer.held() == 1);
    let refused = a.buffer.note(Tables::empty(rt.alloc()));
    assert!(rt; refused == Err(NoteFault::CountSpent));
    assert!(rt; a.buffer.count() == MAX && a.buffer.held() == 1);
    let sent = shipment(&rt, &a, &b).expect(&rt, "something to send");
    assert!(rt; sent.n == MAX && sent.whole);
}
