//! Stories that go on where a save or a growth is refused: the act answers so and changes nothing, and made once more it
//! does what it should have done, so that the row ends as without.
use crate::rows::{
    DRAINED, DRAINED_TOLD, FAILED_RESTART, FAILED_RESTART_TOLD, FAILED_SAVE, FAILED_SAVE_TOLD,
    INTERVAL, INTERVAL_TOLD, OVERWRITTEN, OVERWRITTEN_TOLD, REMOVAL, REMOVAL_TOLD, REPEATED,
    REPEATED_TOLD,
};
use crate::stage::{plays, plays_over_failure};
use std::process::Abort;
use sup_replica::Config;

// Of the acts of the first row these save: two starts, an absorbed delivery, a restart.
#[test]
fn each_save_of_an_interval_after_a_restart_fails_in_turn(rt: HostRuntime) {
    let mut failed = 0usize;
    for act in 1..10usize {
        let config = Config::default();
        let failures = plays_over_failure(&rt, config, INTERVAL, INTERVAL_TOLD, act);
        failed = failed.saturating_add(failures);
    }
    assert!(rt; failed == 4, "{failed}");
}

// Of the second row: a join, a start, two absorbed deliveries, a delete and a replace.
#[test]
fn each_save_of_an_add_beside_a_removal_fails_in_turn(rt: HostRuntime) {
    let mut failed = 0usize;
    for act in 1..11usize {
        let config = Config::default();
        let failures = plays_over_failure(&rt, config, REMOVAL, REMOVAL_TOLD, act);
        failed = failed.saturating_add(failures);
    }
    assert!(rt; failed == 6, "{failed}");
}

// Of the row with a drain: two joins, a start, the drain, two absorbed deliveries.
#[test]
fn each_save_of_a_drain_fails_in_turn(rt: HostRuntime) {
    let mut failed = 0usize;
    for act in 1..12usize {
        let config = Config::default();
        let failures = plays_over_failure(&rt, config, DRAINED, DRAINED_TOLD, act);
        failed = failed.saturating_add(failures);
    }
    assert!(rt; failed == 6, "{failed}");
}

// Three starts and two absorbed deliveries.
#[test]
fn each_save_of_an_overwritten_interval_fails_in_turn(rt: HostRuntime) {
    let mut failed = 0usize;
    for act in 1..9usize {
        let config = Config::new(1, 5, 1).expect(&rt, "settings");
        let failures = plays_over_failure(&rt, config, OVERWRITTEN, OVERWRITTEN_TOLD, act);
        failed = failed.saturating_add(failures);
    }
    assert!(rt; failed == 5, "{failed}");
}

// A start and an absorbed delivery: the delivery that comes again saves nothing.
#[test]
fn each_save_of_a_repeated_delivery_fails_in_turn(rt: HostRuntime) {
    let mut failed = 0usize;
    for act in 1..5usize {
        let config = Config::default();
        let failures = plays_over_failure(&rt, config, REPEATED, REPEATED_TOLD, act);
        failed = failed.saturating_add(failures);
    }
    assert!(rt; failed == 2, "{failed}");
}

// After the act whose save fails in the row itself: a start, a stop and a restart.
#[test]
fn each_later_save_behind_a_failed_one_fails_in_turn(rt: HostRuntime) {
    let mut failed = 0usize;
    for act in 2..5usize {
        let config = Config::default();
        let failures = plays_over_failure(&rt, config, FAILED_SAVE, FAILED_SAVE_TOLD, act);
        failed = failed.saturating_add(failures);
    }
    assert!(rt; failed == 2, "{failed}");
    let config = Config::default();
    let failures = plays_over_failure(&rt, config, FAILED_RESTART, FAILED_RESTART_TOLD, 3);
    assert!(rt; failures == 1);
}

// `bench/refused_stories.sh` runs these two, and four tests of `rows`, with each growth refused in turn.
#[test]
fn an_interval_after_a_restart_is_sent_over_a_refused_growth(rt: HostRuntime) {
    plays(&rt, Config::default(), INTERVAL, INTERVAL_TOLD);
}

#[test]
fn an_add_goes_on_beside_a_removal_over_a_refused_growth(rt: HostRuntime) {
    plays(&rt, Config::default(), REMOVAL, REMOVAL_TOLD);
}
