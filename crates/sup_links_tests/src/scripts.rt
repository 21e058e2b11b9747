//! What scripts do to the messages m1 to m5.
use crate::given::{expect_image, expect_taken, expect_through, linked, put, put_all, text};
use std::process::Abort;
use std::sync::Wait;
use sup_links::{Closed, PutFault, Verdict};

const FIVE: [&str; 5] = ["m1", "m2", "m3", "m4", "m5"];

const SCRIPT: [Verdict; 3] = [Verdict::Lose, Verdict::Twice, Verdict::Hold(1)];

const IMAGE: [&str; 5] = ["m2", "m2", "m4", "m3", "m5"];

// The image, and a link with that script.
fn expect_both(rt: &(impl Abort + AllocGlobal + Wait), verdicts: &[Verdict], through: &[&str]) {
    expect_image(rt, verdicts, &FIVE, through);
    expect_through(rt, verdicts, &FIVE, through);
}

#[test]
fn lost_doubled_and_held_messages_come_by_the_script(rt: HostRuntime) {
    expect_both(&rt, &SCRIPT, &IMAGE);
}

#[test]
fn with_no_script_all_come(rt: HostRuntime) {
    expect_both(&rt, &[], &FIVE);
}

#[test]
fn of_no_messages_none_come(rt: HostRuntime) {
    expect_image(&rt, &SCRIPT, &[], &[]);
    expect_through(&rt, &SCRIPT, &[], &[]);
}

#[test]
fn a_message_held_by_none_goes_at_its_own_place(rt: HostRuntime) {
    expect_both(&rt, &[Verdict::Hold(0)], &FIVE);
}

#[test]
fn a_message_goes_behind_the_copies_of_the_one_it_waits_for(rt: HostRuntime) {
    expect_both(
        &rt,
        &[Verdict::Hold(1), Verdict::Twice],
        &["m2", "m2", "m1", "m3", "m4", "m5"],
    );
}

#[test]
fn a_message_held_past_the_end_is_lost(rt: HostRuntime) {
    expect_both(&rt, &[Verdict::Hold(5)], &["m2", "m3", "m4", "m5"]);
}

#[test]
fn a_message_held_for_the_last_comes_last(rt: HostRuntime) {
    expect_both(&rt, &[Verdict::Hold(4)], &["m2", "m3", "m4", "m5", "m1"]);
}

#[test]
fn messages_of_one_place_go_in_the_order_of_their_puts(rt: HostRuntime) {
    let verdicts = [Verdict::Hold(2), Verdict::Hold(1), Verdict::Hold(0)];
    expect_both(&rt, &verdicts, &["m1", "m2", "m3", "m4", "m5"]);
}

#[test]
fn an_entry_that_is_dropped_closes_behind_what_was_sent(rt: HostRuntime) {
    let (mut entry, mut exit) = linked(&rt, &SCRIPT);
    put_all(&rt, &mut entry, &FIVE);
    drop(entry);
    expect_taken(&rt, &mut exit, &IMAGE);
    assert!(rt; exit.take(&rt) == Err(Closed));
    assert!(rt; exit.take(&rt) == Err(Closed));
}

#[test]
fn an_exit_that_is_dropped_closes_the_puts(rt: HostRuntime) {
    let (mut entry, exit) = linked(&rt, &[]);
    drop(exit);
    assert!(rt; entry.put(&rt, text(&rt, "m1")) == Err(PutFault::Closed));
    assert!(rt; entry.put(&rt, text(&rt, "m2")) == Err(PutFault::Closed));
}

// Nothing of it goes, so the link does not find out before the next that does.
#[test]
fn a_lost_message_is_taken_in_by_a_closed_link(rt: HostRuntime) {
    let (mut entry, exit) = linked(&rt, &[Verdict::Lose]);
    drop(exit);
    put(&rt, &mut entry, "m1");
    assert!(rt; entry.put(&rt, text(&rt, "m2")) == Err(PutFault::Closed));
}

#[test]
fn what_is_left_of_a_link_is_still_a_beginning(rt: HostRuntime) {
    let (mut entry, mut exit) = linked(&rt, &SCRIPT);
    put_all(&rt, &mut entry, &FIVE);
    expect_taken(&rt, &mut exit, &["m2", "m2"]);
    let sent = entry.end(&rt);
    exit.meet(sent);
    expect_taken(&rt, &mut exit, &["m4", "m3", "m5"]);
    assert!(rt; exit.take(&rt) == Ok(None));
}
