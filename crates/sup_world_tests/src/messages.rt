//! The texts of messages, by their sender and number.
use crate::given::name;
use crate::seen::expect_message;
use crate::stage::world_after;
use crate::travels::{INTERVAL, INTERVAL_TOLD};

const SENT: &str = "nodes a b\nstart a x\nship a b\ndeliver a 1\npush a b\nstop a\n";

const SENT_TOLD: &str =
    "ok (a,1)\nok sent\n  sent a 1 to b delta 1 part\nok absorbed\n  sent b 1 to a ack 1\nok sent\n  sent a 2 to b push\nok stopped\n";

const DELTA: &str =
    "{\"ctx\":{\"cloud\":[],\"vector\":{\"a\":1}},\"from\":\"a\",\"kind\":\"delta\",\"n\":1,\"rows\":[[\"child\",\"x\",[\"a\",1],{\"arg\":\"\",\"kind\":\"worker\",\"restart\":\"permanent\",\"shutdown\":5000}]],\"to\":\"b\",\"v\":2}";

const PUSH: &str =
    "{\"ctx\":{\"cloud\":[],\"vector\":{\"a\":1}},\"from\":\"a\",\"kind\":\"push\",\"rows\":[[\"child\",\"x\",[\"a\",1],{\"arg\":\"\",\"kind\":\"worker\",\"restart\":\"permanent\",\"shutdown\":5000}]],\"to\":\"b\",\"v\":2}";

const ACK: &str = "{\"from\":\"b\",\"kind\":\"ack\",\"n\":1,\"to\":\"a\",\"v\":2}";

const SECOND: &str =
    "{\"ctx\":{\"cloud\":[[\"a\",2]],\"vector\":{}},\"from\":\"a\",\"kind\":\"delta\",\"n\":2,\"rows\":[[\"child\",\"y\",[\"a\",2],{\"arg\":\"\",\"kind\":\"worker\",\"restart\":\"permanent\",\"shutdown\":5000}]],\"to\":\"b\",\"v\":2}";

#[test]
fn messages_are_numbered_by_their_sender(rt: HostRuntime) {
    let world = world_after(&rt, SENT, SENT_TOLD);
    expect_message(&rt, &world, &name(&rt, "a"), 1, Some(DELTA));
    expect_message(&rt, &world, &name(&rt, "a"), 2, Some(PUSH));
    expect_message(&rt, &world, &name(&rt, "b"), 1, Some(ACK));
}

#[test]
fn a_message_that_nobody_sent_has_no_text(rt: HostRuntime) {
    let world = world_after(&rt, SENT, SENT_TOLD);
    for k in [0, 3, 4, 9_007_199_254_740_991, u64::MAX] {
        expect_message(&rt, &world, &name(&rt, "a"), k, None);
    }
    for k in [0, 2] {
        expect_message(&rt, &world, &name(&rt, "b"), k, None);
    }
}

#[test]
fn a_node_that_isnt_there_sent_nothing(rt: HostRuntime) {
    let world = world_after(&rt, SENT, SENT_TOLD);
    for k in [0, 1, 2] {
        expect_message(&rt, &world, &name(&rt, "zed"), k, None);
    }
}

// What was sent before the restart keeps its number.
#[test]
fn the_text_of_an_interval_after_a_restart_is_the_stated_one(rt: HostRuntime) {
    let world = world_after(&rt, INTERVAL, INTERVAL_TOLD);
    expect_message(&rt, &world, &name(&rt, "a"), 2, Some(SECOND));
    expect_message(&rt, &world, &name(&rt, "a"), 3, None);
}
