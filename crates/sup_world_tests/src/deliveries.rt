//! Deliveries of a message without its last bytes, however many they are said to be.
use crate::given::name;
use crate::made::made;
use crate::stage::world_after;
use std::process::Abort;
use sup_model::Step;
use sup_placement::FlatWeigh;
use sup_replica::Refusal;
use sup_world::World;

const SHIPPED: &str = "nodes a b c\nstart a x\nship a b\n";

const SHIPPED_TOLD: &str = "ok (a,1)\nok sent\n  sent a 1 to b delta 1 part\n";

// Why the first message of node a is refused without its last bytes.
fn cut(rt: &impl Abort, world: &mut World<FlatWeigh>, drop: u64) -> Option<Refusal> {
    let step = Step::Deliver {
        from: name(rt, "a"),
        k: 1,
        at: None,
        drop,
        now: 0,
        saves: true,
    };
    made(rt, world, &step).err()
}

#[test]
fn a_message_that_lacks_bytes_is_none(rt: HostRuntime) {
    let mut world = world_after(&rt, SHIPPED, SHIPPED_TOLD);
    for drop in [1, 2, 100, 1000, 9_007_199_254_740_991, u64::MAX] {
        let refusal = cut(&rt, &mut world, drop);
        assert!(rt; refusal == Some(Refusal::BadMessage), "{drop}");
    }
}

#[test]
fn a_message_may_lack_all_its_bytes(rt: HostRuntime) {
    let mut world = world_after(&rt, SHIPPED, SHIPPED_TOLD);
    let count = world.message(&name(&rt, "a"), 1).map(|bytes| bytes.len());
    let all = count.unwrap_or(0) as u64;
    assert!(rt; all > 100);
    assert!(rt; cut(&rt, &mut world, all) == Some(Refusal::BadMessage));
    assert!(rt; cut(&rt, &mut world, all.saturating_sub(1)) == Some(Refusal::BadMessage));
    assert!(rt; cut(&rt, &mut world, 0).is_none());
}
