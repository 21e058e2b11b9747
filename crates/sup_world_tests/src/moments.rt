//! Moments of restarts.
use crate::given::name;
use crate::made::made;
use crate::stage::world_after;
use crate::told::answered;
use std::process::Abort;
use sup_local_sup::Incarnation;
use sup_model::Step;
use sup_placement::FlatWeigh;
use sup_replica::{Act, Event};
use sup_specs::{ChildId, ExitReason};
use sup_world::World;

// What is told where the k-th run of the child x crashes at this moment.
fn crash(
    rt: &(impl Abort + AllocGlobal),
    world: &mut World<FlatWeigh>,
    k: u64,
    now: u64,
) -> String {
    let exit = Event::Exit {
        id: ChildId::parse(rt.alloc(), "x").expect(rt, "an id"),
        inc: Incarnation { boot: 1, k },
        reason: ExitReason::Crash,
    };
    let step = Step::Node {
        at: name(rt, "a"),
        act: Act::Event(exit),
        now,
        saves: true,
    };
    answered(rt, &made(rt, world, &step))
}

// Later than a script can say.
#[test]
fn a_moment_is_any_number_of_64_bits(rt: HostRuntime) {
    let script = "nodes a\njoin a\nstart a x\n";
    let told = "ok (a,1)\nok (a,2)\n  a start x 1.1\n";
    let mut world = world_after(&rt, script, told);
    let text = crash(&rt, &mut world, 1, u64::MAX - 6);
    assert!(rt; text.as_str() == "ok restarted\n  a start x 1.2\n");
    let text = crash(&rt, &mut world, 2, u64::MAX);
    assert!(rt; text.as_str() == "ok restarted\n  a start x 1.3\n");
    let text = crash(&rt, &mut world, 3, 0);
    assert!(rt; text.as_str() == "ok gave up removed (a,1)\n");
}
