//! What keepers keep, and what a save or a load that fails leaves.
use crate::given::name;
use crate::unreadable::Unreadable;
use std::process::Abort;
use sup_keeper::{KeepFault, Keeper, MemKeeper};
use sup_placement::FlatWeigh;
use sup_replica::{Act, Config, Refusal};
use sup_station::Station;

#[test]
fn a_failed_save_leaves_the_old_bytes(rt: HostRuntime) {
    let mut keeper = MemKeeper::new(rt.alloc());
    assert!(rt; keeper.stored().is_empty());
    assert!(rt; keeper.save(b"first") == Ok(()));
    keeper.fail_next(true);
    assert!(rt; keeper.save(b"second") == Err(KeepFault::Failed));
    assert!(rt; keeper.failures() == 1);
    assert!(rt; keeper.stored() == b"first".as_slice());
    assert!(rt; keeper.save(b"third") == Ok(()));
    let kept = keeper.load().expect(&rt, "room");
    assert!(rt; kept.as_slice() == b"third".as_slice());
}

#[test]
fn a_node_whose_image_cant_be_loaded_stays_stopped(rt: HostRuntime) {
    let keeper = Unreadable::new();
    let mut station: Station<Unreadable, FlatWeigh> = Station::stopped(
        rt.alloc(),
        name(&rt, "a"),
        Config::default(),
        keeper,
    );
    let refused = station.step(Act::Restart, 0, &FlatWeigh).err();
    assert!(rt; refused == Some(Refusal::KeepFailed));
    assert!(rt; station.node().is_none());
    assert!(rt; station.keeper().failures() == 1);
}

#[test]
fn a_station_whose_first_save_fails_hands_its_keeper_back(rt: HostRuntime) {
    let mut keeper = MemKeeper::new(rt.alloc());
    assert!(rt; keeper.save(b"old").is_ok());
    keeper.fail_next(true);
    let of = name(&rt, "a");
    let made: Result<Station<MemKeeper, FlatWeigh>, _> = Station::new(
        rt.alloc(),
        of,
        Config::default(),
        keeper,
    );
    let Err(refused) = made else {
        panic!(rt; "it was saved")
    };
    assert!(rt; refused.reason == Refusal::KeepFailed);
    assert!(rt; refused.keeper.stored() == b"old".as_slice());
    assert!(rt; refused.keeper.failures() == 1);
}
