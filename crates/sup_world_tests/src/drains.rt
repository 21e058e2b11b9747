//! Members that are drained: rows.
use crate::given::name;
use crate::seen::stored;
use crate::stage::{plays, world_after};

const DRAINING: &str =
    "{\"boot\":1,\"count\":2,\"ctx\":{\"cloud\":[],\"vector\":{\"a\":2}},\"kind\":\"image\",\"node\":\"a\",\"rows\":[[\"member\",\"a\",[\"a\",2],{\"label\":\"rack\",\"status\":\"draining\"}]],\"v\":2}";

#[test]
fn a_drained_member_loses_its_child(rt: HostRuntime) {
    plays(
        &rt,
        "nodes a b\njoin a\nstart a web\nship a b\ndeliver a 1\njoin b\ndrain b a\npush b a\ndeliver b 2\nshow a\ndrain a a\ndrain a b\njoin a\nshow b\n",
        "ok (a,1)\nok (a,2)\n  a start web 1.1\nok sent\n  sent a 1 to b delta 2 part\nok absorbed\n  sent b 1 to a ack 2\nok (b,1)\nok (b,2) removed (a,1)\n  b start web 1.1\nok sent\n  sent b 2 to a push\nok absorbed\n  a stop web 1.1\nnode a boot 1\nmember a (b,2) draining label=\nchild web (a,2) worker permanent 5000 arg= unplaced\nrefused 23 AlreadyDraining\nrefused 7 NotMember\nrefused 6 AlreadyMember\nnode b boot 1\nmember a (b,2) draining label=\nmember b (b,1) label=\nchild web (a,2) worker permanent 5000 arg= on b\nkept web 1.1\n",
    );
}

#[test]
fn a_member_is_drained_by_two(rt: HostRuntime) {
    plays(
        &rt,
        "nodes a b\njoin a label=rack\nship a b\ndeliver a 1\ndrain a a !fail\ndrain a a\ndrain b a\npush b a\ndeliver b 2\nshow a\nleave a a\ndrain a a\n",
        "ok (a,1)\nok sent\n  sent a 1 to b delta 1 part\nok absorbed\n  sent b 1 to a ack 1\nrefused 16 KeepFailed\nok (a,2) removed (a,1)\nok (b,1) removed (a,1)\nok sent\n  sent b 2 to a push\nok absorbed\nnode a boot 1\nmember a (b,1) draining label=rack\nloser member a (a,2)\nok removed (b,1) (a,2)\nrefused 7 NotMember\n",
    );
}

// The member is there, draining, until it leaves once more.
#[test]
fn a_drain_outlives_a_leave_beside_it(rt: HostRuntime) {
    plays(
        &rt,
        "nodes a b\njoin a\nship a b\ndeliver a 1\ndrain b a\nleave a a\npush b a\ndeliver b 2\nshow a\njoin a\nleave a a\njoin a\nshow a\n",
        "ok (a,1)\nok sent\n  sent a 1 to b delta 1 part\nok absorbed\n  sent b 1 to a ack 1\nok (b,1) removed (a,1)\nok removed (a,1)\nok sent\n  sent b 2 to a push\nok absorbed\nnode a boot 1\nmember a (b,1) draining label=\nrefused 6 AlreadyMember\nok removed (b,1)\nok (a,2)\nnode a boot 1\nmember a (a,2) label=\n",
    );
}

#[test]
fn a_drained_member_is_kept_as_draining(rt: HostRuntime) {
    let script = "nodes a\njoin a label=rack\ndrain a a\n";
    let told = "ok (a,1)\nok (a,2) removed (a,1)\n";
    let world = world_after(&rt, script, told);
    assert!(rt; stored(&rt, &world, &name(&rt, "a")) == DRAINING.as_bytes());
}

// Its image says so.
#[test]
fn a_member_that_restarts_is_still_draining(rt: HostRuntime) {
    plays(
        &rt,
        "nodes a b\njoin a\nstart a web\ndrain a a\nstop a\nrestart a\nshow a\n",
        "ok (a,1)\nok (a,2)\n  a start web 1.1\nok (a,3) removed (a,1)\n  a stop web 1.1\nok stopped\nok boot 2\nnode a boot 2\nmember a (a,3) draining label=\nchild web (a,2) worker permanent 5000 arg= unplaced\n",
    );
}
