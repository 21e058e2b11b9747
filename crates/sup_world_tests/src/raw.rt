//! Bytes that nobody sent.
use crate::given::{name, raw, world};
use crate::made::made;
use crate::seen::seen;
use crate::stage::{plays, world_after};
use std::process::Abort;
use sup_placement::FlatWeigh;
use sup_replica::Refusal;
use sup_world::World;

const ACK: &[u8] = b"{\"from\":\"b\",\"kind\":\"ack\",\"n\":1,\"to\":\"a\",\"v\":1}";

const SPACED: &[u8] = b" { \"v\" : 1, \"to\":\"a\",\"n\":1,\"kind\":\"ack\",\"from\":\"b\" }\n";

const OPENING: &[u8] =
    b"{\"boot\":1,\"count\":0,\"ctx\":{\"cloud\":[],\"vector\":{}},\"kind\":\"image\",\"node\":\"a\",\"rows\":[],\"v\":1}";

fn refusal(
    rt: &(impl Abort + AllocGlobal),
    world: &mut World<FlatWeigh>,
    at: &str,
    bytes: &[u8],
) -> Option<Refusal> {
    made(rt, world, &raw(rt, at, bytes)).err()
}

#[test]
fn bytes_that_are_no_message_are_refused_so(rt: HostRuntime) {
    let mut world = world(&rt, &["a", "b"]);
    for bytes in [
        b"".as_slice(),
        b"{}",
        b"\xff",
        b"\"\xc3\x28\"",
        b"\xef\xbb\xbf{}",
        OPENING,
    ] {
        let refused = refusal(&rt, &mut world, "a", bytes);
        assert!(rt; refused == Some(Refusal::BadMessage));
    }
}

#[test]
fn a_message_was_not_sent_whoever_it_is_for(rt: HostRuntime) {
    let mut world = world(&rt, &["a", "b"]);
    for at in ["a", "b"] {
        let refused = refusal(&rt, &mut world, at, ACK);
        assert!(rt; refused == Some(Refusal::NoSuchMessage));
        let refused = refusal(&rt, &mut world, at, SPACED);
        assert!(rt; refused == Some(Refusal::NoSuchMessage));
    }
}

#[test]
fn a_stopped_node_is_down_for_all_bytes(rt: HostRuntime) {
    let mut world = world_after(&rt, "nodes a b\nstop a\n", "ok stopped\n");
    for bytes in [b"{}".as_slice(), ACK] {
        assert!(rt; refusal(&rt, &mut world, "a", bytes) == Some(Refusal::Down));
        assert!(rt; refusal(&rt, &mut world, "b", bytes) != Some(Refusal::Down));
    }
}

#[test]
fn a_node_that_isnt_there_is_missed_for_all_bytes(rt: HostRuntime) {
    let mut world = world(&rt, &["a", "b"]);
    for bytes in [b"{}".as_slice(), ACK] {
        let refused = refusal(&rt, &mut world, "zed", bytes);
        assert!(rt; refused == Some(Refusal::UnknownNode));
    }
}

// The very text of a message that was sent.
#[test]
fn a_sent_text_is_none_that_came(rt: HostRuntime) {
    plays(
        &rt,
        "nodes a b\nstart a x\nship a b\nraw b {\"ctx\":{\"cloud\":[],\"vector\":{\"a\":1}},\"from\":\"a\",\"kind\":\"delta\",\"n\":1,\"rows\":[[\"child\",\"x\",[\"a\",1],{\"arg\":\"\",\"kind\":\"worker\",\"restart\":\"permanent\",\"shutdown\":5000}]],\"to\":\"b\",\"v\":2}\nshow b\n",
        "ok (a,1)\nok sent\n  sent a 1 to b delta 1 part\nrefused 13 NoSuchMessage\nnode b boot 1\n",
    );
}

#[test]
fn bytes_change_nothing(rt: HostRuntime) {
    let script = "nodes a b\nstart a x\nship a b\ndeliver a 1\n";
    let told =
        "ok (a,1)\nok sent\n  sent a 1 to b delta 1 part\nok absorbed\n  sent b 1 to a ack 1\n";
    let mut world = world_after(&rt, script, told);
    let names = [name(&rt, "a"), name(&rt, "b")];
    let before = seen(&rt, &world, &names);
    for bytes in [b"{}".as_slice(), ACK] {
        assert!(rt; refusal(&rt, &mut world, "a", bytes).is_some());
        assert!(rt; seen(&rt, &world, &names).as_str() == before.as_str());
    }
}
