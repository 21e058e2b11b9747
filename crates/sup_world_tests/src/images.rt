//! What nodes keep and hold: their images, and how many deltas.
use crate::given::{name, world};
use crate::seen::{held, stored};
use crate::stage::world_after;
use sup_world::still;

const PUSHED: &str =
    "nodes a b\nstart a x\npush a b\nstart a y\npush a b\nstart a z\npush a b\ndeliver a 3\ndeliver a 1\n";

const PUSHED_TOLD: &str =
    "ok (a,1)\nok sent\n  sent a 1 to b push\nok (a,2)\nok sent\n  sent a 2 to b push\nok (a,3)\nok sent\n  sent a 3 to b push\nok absorbed\nok absorbed\n";

const GAP: &str =
    "{\"boot\":1,\"count\":2,\"ctx\":{\"cloud\":[[\"a\",3]],\"vector\":{\"a\":1}},\"kind\":\"image\",\"node\":\"b\",\"rows\":[[\"child\",\"x\",[\"a\",1],{\"arg\":\"\",\"kind\":\"worker\",\"restart\":\"permanent\",\"shutdown\":5000}],[\"child\",\"z\",[\"a\",3],{\"arg\":\"\",\"kind\":\"worker\",\"restart\":\"permanent\",\"shutdown\":5000}]],\"v\":2}";

const FILLED: &str =
    "{\"boot\":1,\"count\":3,\"ctx\":{\"cloud\":[],\"vector\":{\"a\":3}},\"kind\":\"image\",\"node\":\"b\",\"rows\":[[\"child\",\"x\",[\"a\",1],{\"arg\":\"\",\"kind\":\"worker\",\"restart\":\"permanent\",\"shutdown\":5000}],[\"child\",\"y\",[\"a\",2],{\"arg\":\"\",\"kind\":\"worker\",\"restart\":\"permanent\",\"shutdown\":5000}],[\"child\",\"z\",[\"a\",3],{\"arg\":\"\",\"kind\":\"worker\",\"restart\":\"permanent\",\"shutdown\":5000}]],\"v\":2}";

const REMOVED: &str =
    "{\"boot\":1,\"count\":1,\"ctx\":{\"cloud\":[],\"vector\":{\"a\":1}},\"kind\":\"image\",\"node\":\"b\",\"rows\":[],\"v\":2}";

const OPENING: &str =
    "{\"boot\":1,\"count\":0,\"ctx\":{\"cloud\":[],\"vector\":{}},\"kind\":\"image\",\"node\":\"a\",\"rows\":[],\"v\":2}";

const MEMBER: &str =
    "{\"boot\":1,\"count\":2,\"ctx\":{\"cloud\":[],\"vector\":{\"a\":2}},\"kind\":\"image\",\"node\":\"a\",\"rows\":[[\"member\",\"a\",[\"a\",1],{\"label\":\"\",\"status\":\"open\"}],[\"child\",\"web\",[\"a\",2],{\"arg\":\"\",\"kind\":\"worker\",\"restart\":\"permanent\",\"shutdown\":5000}]],\"v\":2}";

#[test]
fn pushes_out_of_order_leave_a_gap(rt: HostRuntime) {
    let world = world_after(&rt, PUSHED, PUSHED_TOLD);
    let b = name(&rt, "b");
    assert!(rt; stored(&rt, &world, &b) == GAP.as_bytes());
    assert!(rt; held(&rt, &world, &b) == Some(2));
}

#[test]
fn a_gap_is_filled(rt: HostRuntime) {
    let script =
        "nodes a b\nstart a x\npush a b\nstart a y\npush a b\nstart a z\npush a b\ndeliver a 3\ndeliver a 1\ndeliver a 2\n";
    let told =
        "ok (a,1)\nok sent\n  sent a 1 to b push\nok (a,2)\nok sent\n  sent a 2 to b push\nok (a,3)\nok sent\n  sent a 3 to b push\nok absorbed\nok absorbed\nok absorbed\n";
    let world = world_after(&rt, script, told);
    let b = name(&rt, "b");
    assert!(rt; stored(&rt, &world, &b) == FILLED.as_bytes());
    assert!(rt; held(&rt, &world, &b) == Some(3));
}

#[test]
fn a_removal_that_overtook_its_add_is_counted_once(rt: HostRuntime) {
    let script = "nodes a b\nstart a x\npush a b\ndelete a x\npush a b\ndeliver a 2\ndeliver a 1\n";
    let told =
        "ok (a,1)\nok sent\n  sent a 1 to b push\nok removed (a,1)\nok sent\n  sent a 2 to b push\nok absorbed\nok known\n";
    let world = world_after(&rt, script, told);
    let b = name(&rt, "b");
    assert!(rt; stored(&rt, &world, &b) == REMOVED.as_bytes());
    assert!(rt; held(&rt, &world, &b) == Some(1));
}

#[test]
fn a_member_with_its_child_is_kept(rt: HostRuntime) {
    let script = "nodes a\njoin a\nstart a web\n";
    let told = "ok (a,1)\nok (a,2)\n  a start web 1.1\n";
    let world = world_after(&rt, script, told);
    assert!(rt; stored(&rt, &world, &name(&rt, "a")) == MEMBER.as_bytes());
}

// Where memory is refused it is looked at once more.
#[test]
fn a_kept_image_is_looked_at_as_it_is(rt: HostRuntime) {
    let script = "nodes a\njoin a\nstart a web\nstop a\n";
    let told = "ok (a,1)\nok (a,2)\n  a start web 1.1\nok stopped\n";
    let world = world_after(&rt, script, told);
    let a = name(&rt, "a");
    let text = stored(&rt, &world, &a);
    let image = still(rt.alloc(), text)
        .or_else(|_| still(rt.alloc(), text))
        .expect(&rt, "an image");
    assert!(rt; *image.node() == a);
    assert!(rt; image.boot() == 1);
    assert!(rt; image.count() == 2);
    assert!(rt; image.tables().row_count() == 2);
}

#[test]
fn a_new_node_keeps_its_opening_image(rt: HostRuntime) {
    let world = world(&rt, &["a"]);
    let a = name(&rt, "a");
    assert!(rt; stored(&rt, &world, &a) == OPENING.as_bytes());
    assert!(rt; held(&rt, &world, &a) == Some(0));
}

// Its image stays as it was kept last.
#[test]
fn a_stopped_node_is_there_without_running(rt: HostRuntime) {
    let script = "nodes a\njoin a\nstart a web\nstop a\n";
    let told = "ok (a,1)\nok (a,2)\n  a start web 1.1\nok stopped\n";
    let world = world_after(&rt, script, told);
    let a = name(&rt, "a");
    assert!(rt;
        world
            .station(&a)
            .is_some_and(|station| station.node().is_none())
    );
    assert!(rt; stored(&rt, &world, &a) == MEMBER.as_bytes());
}

#[test]
fn a_node_of_another_name_isnt_there(rt: HostRuntime) {
    let world = world(&rt, &["a", "b"]);
    assert!(rt; world.station(&name(&rt, "b")).is_some());
    assert!(rt; world.station(&name(&rt, "zed")).is_none());
    assert!(rt; world.station(&name(&rt, "aa")).is_none());
}
