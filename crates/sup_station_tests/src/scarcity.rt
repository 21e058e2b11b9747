//! Stations whose keeper lacks memory at one call: the call is refused so and changes nothing, and made once more it does what
//! it should have done. The calls of a keeper are the save of the opening image, that of a start, the load of a restart and
//! its save.
use crate::fuses::{OPENING, RESTARTED, STARTED, start};
use crate::given::name;
use std::process::Abort;
use sup_keeper::{Keeper, MemKeeper};
use sup_placement::FlatWeigh;
use sup_replica::{Act, Config, Refusal};
use sup_scarce::Scarce;
use sup_station::Station;

type Scant = Station<Scarce, FlatWeigh>;

// A keeper whose call `k + 1` lacks memory.
fn scarce(rt: &impl AllocGlobal, k: u64) -> Scarce {
    Scarce::new(MemKeeper::new(rt.alloc()), k)
}

// A new node's station over this keeper, which doesn't lack memory at the first save.
fn opened(rt: &(impl Abort + AllocGlobal), keeper: Scarce) -> Scant {
    match Station::new(rt.alloc(), name(rt, "a"), Config::default(), keeper) {
        Ok(station) => station,
        Err(_) => panic!(rt; "it was refused"),
    }
}

// The act is made, and this is kept then.
fn makes(rt: &impl Abort, station: &mut Scant, act: Act, kept: &str) {
    assert!(rt; station.step(act, 0, &FlatWeigh).is_ok());
    assert!(rt; station.keeper().stored() == kept.as_bytes());
}

// The act is refused since its keeper lacks memory, and this is still kept.
fn lacks(rt: &impl Abort, station: &mut Scant, act: Act, kept: &str) {
    let refused = station.step(act, 0, &FlatWeigh).err();
    assert!(rt; refused == Some(Refusal::OutOfMemory));
    assert!(rt; station.keeper().stored() == kept.as_bytes());
}

// The node runs in this boot, or none does; and whether its keeper has lacked memory. It has never failed.
fn expect_at(rt: &impl Abort, station: &Scant, boot: Option<u64>, refused: bool) {
    assert!(rt; station.node().map(|node| node.boot()) == boot);
    assert!(rt; station.keeper().has_refused() == refused);
    assert!(rt; station.keeper().failures() == 0);
}

// The start, the stop and the restart, none of which is refused.
fn goes_on(rt: &(impl Abort + AllocGlobal), station: &mut Scant, refused: bool) {
    makes(rt, station, start(rt), STARTED);
    makes(rt, station, Act::Stop, STARTED);
    makes(rt, station, Act::Restart, RESTARTED);
    expect_at(rt, station, Some(2), refused);
}

// The start and the stop; the restart is refused, and then made.
fn goes_on_over_a_refused_restart(rt: &(impl Abort + AllocGlobal), station: &mut Scant) {
    makes(rt, station, start(rt), STARTED);
    makes(rt, station, Act::Stop, STARTED);
    lacks(rt, station, Act::Restart, STARTED);
    expect_at(rt, station, None, true);
    makes(rt, station, Act::Restart, RESTARTED);
    expect_at(rt, station, Some(2), true);
}

#[test]
fn a_keeper_that_lacked_memory_for_the_opening_image_opens_another_station(rt: HostRuntime) {
    let of = name(&rt, "a");
    let keeper = scarce(&rt, 0);
    let made: Result<Scant, _> = Station::new(rt.alloc(), of, Config::default(), keeper);
    let Err(refused) = made else {
        panic!(rt; "it was saved")
    };
    assert!(rt; refused.reason == Refusal::OutOfMemory);
    assert!(rt; refused.keeper.stored().is_empty());
    let mut station = opened(&rt, refused.keeper);
    goes_on(&rt, &mut station, true);
}

#[test]
fn a_start_whose_save_lacks_memory_leaves_the_opening_image_and_its_dot_free(rt: HostRuntime) {
    let mut station = opened(&rt, scarce(&rt, 1));
    lacks(&rt, &mut station, start(&rt), OPENING);
    expect_at(&rt, &station, Some(1), true);
    goes_on(&rt, &mut station, true);
}

#[test]
fn a_restart_whose_load_lacks_memory_is_made_once_more(rt: HostRuntime) {
    let mut station = opened(&rt, scarce(&rt, 2));
    goes_on_over_a_refused_restart(&rt, &mut station);
}

#[test]
fn a_restart_whose_save_lacks_memory_is_made_once_more(rt: HostRuntime) {
    let mut station = opened(&rt, scarce(&rt, 3));
    goes_on_over_a_refused_restart(&rt, &mut station);
}

#[test]
fn a_keeper_that_is_to_lack_memory_later_doesnt_lack_it_yet(rt: HostRuntime) {
    let mut station = opened(&rt, scarce(&rt, 4));
    goes_on(&rt, &mut station, false);
}
