//! New worlds: which names make one, and what it has.
use crate::given::{name, names};
use std::process::Abort;
use sup_placement::FlatWeigh;
use sup_replica::Config;
use sup_world::{World, WorldFault};

const SIXTEEN: [&str; 16] = [
    "a", "b", "c", "d", "e", "f", "g", "h", "i", "j", "k", "l", "m", "n", "o", "p",
];

const SEVENTEEN: [&str; 17] = [
    "a", "b", "c", "d", "e", "f", "g", "h", "i", "j", "k", "l", "m", "n", "o", "p", "q",
];

const LAST_TWICE: [&str; 16] = [
    "a", "b", "c", "d", "e", "f", "g", "h", "i", "j", "k", "l", "m", "n", "o", "a",
];

fn fault(rt: &(impl Abort + AllocGlobal), words: &[&str]) -> Option<WorldFault> {
    let names = names(rt, words);
    let made = World::new(rt.alloc(), names.as_slice(), Config::default(), FlatWeigh);
    made.err()
}

#[test]
fn a_world_has_1_to_16_nodes(rt: HostRuntime) {
    assert!(rt; fault(&rt, &[]) == Some(WorldFault::BadNames));
    assert!(rt; fault(&rt, &["a"]).is_none());
    assert!(rt; fault(&rt, &SIXTEEN).is_none());
    assert!(rt; fault(&rt, &SEVENTEEN) == Some(WorldFault::BadNames));
}

#[test]
fn the_nodes_of_a_world_differ(rt: HostRuntime) {
    assert!(rt; fault(&rt, &["a", "b"]).is_none());
    assert!(rt; fault(&rt, &["a", "a"]) == Some(WorldFault::BadNames));
    assert!(rt; fault(&rt, &["a", "b", "a"]) == Some(WorldFault::BadNames));
    assert!(rt; fault(&rt, &["b", "a", "a"]) == Some(WorldFault::BadNames));
    assert!(rt; fault(&rt, &LAST_TWICE) == Some(WorldFault::BadNames));
}

#[test]
fn new_nodes_run_in_their_first_boot_and_sent_nothing(rt: HostRuntime) {
    let names = names(&rt, &SIXTEEN);
    let world = World::new(rt.alloc(), names.as_slice(), Config::default(), FlatWeigh).expect(
        &rt, "a world",
    );
    for name in &names {
        let node = world.station(name).and_then(|station| station.node());
        assert!(rt; node.is_some_and(|node| node.boot() == 1 && node.count() == 0));
        assert!(rt; world.message(name, 1).is_none());
    }
    assert!(rt; world.station(&name(&rt, "q")).is_none());
}
