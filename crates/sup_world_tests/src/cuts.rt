//! Messages that come without their last bytes, one to all: each is refused as none, and nothing changes.
use crate::given::name;
use crate::made::made;
use crate::seen::seen;
use crate::stage::world_after;
use crate::travels::{INTERVAL, INTERVAL_TOLD};
use std::process::Abort;
use sup_model::Step;
use sup_placement::FlatWeigh;
use sup_replica::Refusal;
use sup_world::World;

const REMOVAL: &str =
    "nodes a b\njoin a\nstart a web\nship a b\ndeliver a 1\ndelete b web\nreplace a web arg=x\nship b a\ndeliver b 2\npush a b\ndeliver a 3\n";

const REMOVAL_TOLD: &str =
    "ok (a,1)\nok (a,2)\n  a start web 1.1\nok sent\n  sent a 1 to b delta 2 part\nok absorbed\n  sent b 1 to a ack 2\nok removed (a,2)\nok (a,3) removed (a,2)\n  a stop web 1.1\n  a start web 1.2\nok sent\n  sent b 2 to a delta 2 part\nok known\n  sent a 2 to b ack 2\nok sent\n  sent a 3 to b push\nok absorbed\n";

// Why this message is refused without its last bytes.
fn refusal(
    rt: &impl Abort,
    world: &mut World<FlatWeigh>,
    from: &str,
    k: u64,
    drop: u64,
) -> Option<Refusal> {
    let step = Step::Deliver {
        from: name(rt, from),
        k,
        at: None,
        drop,
        now: 0,
        saves: true,
    };
    made(rt, world, &step).err()
}

// Expects that this message, which is there, is none without its last bytes, one to all.
fn expect_no_cut(rt: &impl Abort, world: &mut World<FlatWeigh>, from: &str, k: u64) {
    let count = world.message(&name(rt, from), k).map(|bytes| bytes.len());
    let all = count.unwrap_or(0);
    assert!(rt; all > 40);
    for drop in 0..all {
        let dropped = (drop as u64).saturating_add(1);
        let refused = refusal(rt, world, from, k, dropped);
        assert!(rt; refused == Some(Refusal::BadMessage), "{dropped}");
    }
}

#[test]
fn no_cut_of_a_message_of_an_interval_is_one(rt: HostRuntime) {
    let mut world = world_after(&rt, INTERVAL, INTERVAL_TOLD);
    let names = [name(&rt, "a"), name(&rt, "b")];
    let before = seen(&rt, &world, &names);
    expect_no_cut(&rt, &mut world, "a", 1);
    expect_no_cut(&rt, &mut world, "a", 2);
    expect_no_cut(&rt, &mut world, "b", 1);
    assert!(rt; seen(&rt, &world, &names).as_str() == before.as_str());
}

#[test]
fn no_cut_of_a_message_of_an_add_beside_a_removal_is_one(rt: HostRuntime) {
    let mut world = world_after(&rt, REMOVAL, REMOVAL_TOLD);
    let names = [name(&rt, "a"), name(&rt, "b")];
    let before = seen(&rt, &world, &names);
    expect_no_cut(&rt, &mut world, "a", 1);
    expect_no_cut(&rt, &mut world, "a", 2);
    expect_no_cut(&rt, &mut world, "a", 3);
    expect_no_cut(&rt, &mut world, "b", 1);
    expect_no_cut(&rt, &mut world, "b", 2);
    assert!(rt; seen(&rt, &world, &names).as_str() == before.as_str());
}

// What came short has left nothing.
#[test]
fn a_message_that_came_short_comes_whole_too(rt: HostRuntime) {
    let script = "nodes a b\nstart a x\nship a b\n";
    let told = "ok (a,1)\nok sent\n  sent a 1 to b delta 1 part\n";
    let mut world = world_after(&rt, script, told);
    expect_no_cut(&rt, &mut world, "a", 1);
    assert!(rt; refusal(&rt, &mut world, "a", 1, 0).is_none());
}
