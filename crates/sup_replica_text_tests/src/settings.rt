//! Settings and numbers.
use sup_replica::{Config, Refusal};

#[test]
fn a_config_is_as_erlang_has_it_where_nothing_is_said(rt: HostRuntime) {
    assert!(rt; Config::new(1, 5, 64) == Some(Config::default()));
}

#[test]
fn a_config_goes_up_to_its_limits(rt: HostRuntime) {
    assert!(rt; Config::new(0, 1, 1).is_some());
    assert!(rt; Config::new(1000, 1_000_000, 1024).is_some());
}

#[test]
fn no_config_goes_past_its_limits(rt: HostRuntime) {
    assert!(rt; Config::new(1001, 5, 64).is_none());
    assert!(rt; Config::new(1, 0, 64).is_none());
    assert!(rt; Config::new(1, 1_000_001, 64).is_none());
    assert!(rt; Config::new(1, 5, 0).is_none());
    assert!(rt; Config::new(1, 5, 1025).is_none());
}

#[test]
fn refusals_have_the_numbers_that_scripts_print(rt: HostRuntime) {
    assert!(rt; Refusal::Down.number() == 1);
    assert!(rt; Refusal::UpToDate.number() == 12);
    assert!(rt; Refusal::OutOfMemory.number() == 19);
    assert!(rt; Refusal::NothingToPush.number() == 22);
    assert!(rt; Refusal::AlreadyDraining.number() == 23);
}
