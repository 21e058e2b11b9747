//! Bytes that are nearly a message: the messages of two rows, of version 1 and of version 2, cut short, of a version that
//! there is not, or with their rows or dots backwards. A node refuses them before it looks who they are for, and stays as it is.
use crate::given::{child, message, name, worker};
use crate::told::{line_of, put};
use std::process::Abort;
use sup_keeper::MemKeeper;
use sup_placement::FlatWeigh;
use sup_replica::{Act, Config, Event, Refusal};
use sup_station::Station;
use sup_test_texts::shown;

type Kept = Station<MemKeeper, FlatWeigh>;

/// The messages up to their version, as version 1 says them.
const FRONTS_OF_1: [&str; 8] = [
    "{\"from\":\"b\",\"kind\":\"ack\",\"n\":1,\"to\":\"a\",\"v\":",
    "{\"ctx\":{\"cloud\":[],\"vector\":{\"a\":1}},\"from\":\"a\",\"kind\":\"delta\",\"n\":1,\"rows\":[[\"child\",\"x\",[\"a\",1],{\"arg\":\"\",\"kind\":\"worker\",\"restart\":\"permanent\",\"shutdown\":5000}]],\"to\":\"b\",\"v\":",
    "{\"ctx\":{\"cloud\":[[\"a\",2]],\"vector\":{}},\"from\":\"a\",\"kind\":\"delta\",\"n\":2,\"rows\":[[\"child\",\"y\",[\"a\",2],{\"arg\":\"\",\"kind\":\"worker\",\"restart\":\"permanent\",\"shutdown\":5000}]],\"to\":\"b\",\"v\":",
    "{\"ctx\":{\"cloud\":[],\"vector\":{\"a\":2}},\"from\":\"a\",\"kind\":\"delta\",\"n\":2,\"rows\":[[\"member\",\"a\",[\"a\",1],{\"label\":\"\"}],[\"child\",\"web\",[\"a\",2],{\"arg\":\"\",\"kind\":\"worker\",\"restart\":\"permanent\",\"shutdown\":5000}]],\"to\":\"b\",\"v\":",
    "{\"from\":\"b\",\"kind\":\"ack\",\"n\":2,\"to\":\"a\",\"v\":",
    "{\"ctx\":{\"cloud\":[],\"vector\":{\"a\":2}},\"from\":\"b\",\"kind\":\"delta\",\"n\":2,\"rows\":[[\"member\",\"a\",[\"a\",1],{\"label\":\"\"}]],\"to\":\"a\",\"v\":",
    "{\"from\":\"a\",\"kind\":\"ack\",\"n\":2,\"to\":\"b\",\"v\":",
    "{\"ctx\":{\"cloud\":[[\"a\",2],[\"a\",3]],\"vector\":{}},\"from\":\"a\",\"kind\":\"push\",\"rows\":[[\"child\",\"web\",[\"a\",3],{\"arg\":\"x\",\"kind\":\"worker\",\"restart\":\"permanent\",\"shutdown\":5000}]],\"to\":\"b\",\"v\":",
];

/// Those of them that have a member, as version 2 says them.
const FRONTS_OF_2: [&str; 2] = [
    "{\"ctx\":{\"cloud\":[],\"vector\":{\"a\":2}},\"from\":\"a\",\"kind\":\"delta\",\"n\":2,\"rows\":[[\"member\",\"a\",[\"a\",1],{\"label\":\"\",\"status\":\"open\"}],[\"child\",\"web\",[\"a\",2],{\"arg\":\"\",\"kind\":\"worker\",\"restart\":\"permanent\",\"shutdown\":5000}]],\"to\":\"b\",\"v\":",
    "{\"ctx\":{\"cloud\":[],\"vector\":{\"a\":2}},\"from\":\"b\",\"kind\":\"delta\",\"n\":2,\"rows\":[[\"member\",\"a\",[\"a\",1],{\"label\":\"\",\"status\":\"open\"}]],\"to\":\"a\",\"v\":",
];

/// The two of them that have two rows or two dots beside the vector, with these backwards, in each version.
const BACKWARDS: [&str; 4] = [
    "{\"ctx\":{\"cloud\":[],\"vector\":{\"a\":2}},\"from\":\"a\",\"kind\":\"delta\",\"n\":2,\"rows\":[[\"child\",\"web\",[\"a\",2],{\"arg\":\"\",\"kind\":\"worker\",\"restart\":\"permanent\",\"shutdown\":5000}],[\"member\",\"a\",[\"a\",1],{\"label\":\"\"}]],\"to\":\"b\",\"v\":1}",
    "{\"ctx\":{\"cloud\":[],\"vector\":{\"a\":2}},\"from\":\"a\",\"kind\":\"delta\",\"n\":2,\"rows\":[[\"child\",\"web\",[\"a\",2],{\"arg\":\"\",\"kind\":\"worker\",\"restart\":\"permanent\",\"shutdown\":5000}],[\"member\",\"a\",[\"a\",1],{\"label\":\"\",\"status\":\"open\"}]],\"to\":\"b\",\"v\":2}",
    "{\"ctx\":{\"cloud\":[[\"a\",3],[\"a\",2]],\"vector\":{}},\"from\":\"a\",\"kind\":\"push\",\"rows\":[[\"child\",\"web\",[\"a\",3],{\"arg\":\"x\",\"kind\":\"worker\",\"restart\":\"permanent\",\"shutdown\":5000}]],\"to\":\"b\",\"v\":1}",
    "{\"ctx\":{\"cloud\":[[\"a\",3],[\"a\",2]],\"vector\":{}},\"from\":\"a\",\"kind\":\"push\",\"rows\":[[\"child\",\"web\",[\"a\",3],{\"arg\":\"x\",\"kind\":\"worker\",\"restart\":\"permanent\",\"shutdown\":5000}]],\"to\":\"b\",\"v\":2}",
];

// A station of this node, with a child.
fn begun(rt: &(impl Abort + AllocGlobal), of: &str) -> Kept {
    let keeper = MemKeeper::new(rt.alloc());
    let Ok(mut station) = Station::new(rt.alloc(), name(rt, of), Config::default(), keeper) else {
        panic!(rt; "it was refused")
    };
    let id = child(rt.alloc(), "z").expect(rt, "room");
    let spec = worker(rt.alloc(), "").expect(rt, "room");
    let start = Act::Event(Event::Start(id, spec));
    assert!(rt; station.step(start, 0, &FlatWeigh).is_ok());
    station
}

// What the node shows and keeps.
fn seen(rt: &(impl Abort + AllocGlobal), station: &Kept, of: &str) -> String {
    let mut text = shown(rt.alloc(), &name(rt, of), station.node()).expect(rt, "room");
    let image = line_of(rt, station.keeper().stored());
    put(rt, &mut text, image.as_str());
    text
}

// Why these bytes are refused.
fn refusal(rt: &(impl Abort + AllocGlobal), station: &mut Kept, bytes: &[u8]) -> Option<Refusal> {
    let text = message(rt.alloc(), bytes).expect(rt, "room");
    let delivery = Act::Event(Event::Deliver(text));
    station.step(delivery, 0, &FlatWeigh).err()
}

// A message's text, up to its version and with it.
fn text_in(rt: &(impl Abort + AllocGlobal), front: &str, version: u64) -> String {
    format!(in rt.alloc(); "{front}{version}}}").expect(rt, "room")
}

// The message is none in version 9.
fn expect_no_version_9(rt: &(impl Abort + AllocGlobal), station: &mut Kept, front: &str) {
    let text = text_in(rt, front, 9);
    let refused = refusal(rt, station, text.as_bytes());
    assert!(rt; refused == Some(Refusal::BadMessage), "{front}");
}

// The message without its last bytes, one to all, is none.
fn expect_no_cut(rt: &(impl Abort + AllocGlobal), station: &mut Kept, bytes: &[u8]) {
    for end in 0..bytes.len() {
        let refused = refusal(rt, station, &bytes[..end]);
        assert!(rt; refused == Some(Refusal::BadMessage), "{end}");
    }
}

// The same of a message of this version.
fn expect_no_cut_in(
    rt: &(impl Abort + AllocGlobal),
    station: &mut Kept,
    front: &str,
    version: u64,
) {
    let text = text_in(rt, front, version);
    expect_no_cut(rt, station, text.as_bytes());
}

// The message of this version is one, for another node.
fn expect_misdirected(
    rt: &(impl Abort + AllocGlobal),
    station: &mut Kept,
    front: &str,
    version: u64,
) {
    let text = text_in(rt, front, version);
    let refused = refusal(rt, station, text.as_bytes());
    assert!(rt; refused == Some(Refusal::WrongReceiver), "{front}");
}

fn no_version_9_at(rt: &(impl Abort + AllocGlobal), of: &str) {
    let mut station = begun(rt, of);
    let before = seen(rt, &station, of);
    for front in FRONTS_OF_1 {
        expect_no_version_9(rt, &mut station, front);
    }
    for front in FRONTS_OF_2 {
        expect_no_version_9(rt, &mut station, front);
    }
    assert!(rt; seen(rt, &station, of).as_str() == before.as_str());
}

#[test]
fn a_message_of_version_9_is_none(rt: HostRuntime) {
    no_version_9_at(&rt, "a");
    no_version_9_at(&rt, "b");
}

fn no_cut_at(rt: &(impl Abort + AllocGlobal), of: &str) {
    let mut station = begun(rt, of);
    let before = seen(rt, &station, of);
    for front in FRONTS_OF_1 {
        expect_no_cut_in(rt, &mut station, front, 1);
    }
    for front in FRONTS_OF_2 {
        expect_no_cut_in(rt, &mut station, front, 2);
    }
    assert!(rt; seen(rt, &station, of).as_str() == before.as_str());
}

#[test]
fn a_message_that_lacks_bytes_is_none(rt: HostRuntime) {
    no_cut_at(&rt, "a");
    no_cut_at(&rt, "b");
}

fn no_backwards_at(rt: &(impl Abort + AllocGlobal), of: &str) {
    let mut station = begun(rt, of);
    let before = seen(rt, &station, of);
    for text in BACKWARDS {
        let refused = refusal(rt, &mut station, text.as_bytes());
        assert!(rt; refused == Some(Refusal::BadMessage), "{text}");
    }
    assert!(rt; seen(rt, &station, of).as_str() == before.as_str());
}

#[test]
fn a_message_whose_rows_or_dots_stand_backwards_is_none(rt: HostRuntime) {
    no_backwards_at(&rt, "a");
    no_backwards_at(&rt, "b");
}

// In its own version each is a message: a third node misses no byte of it.
#[test]
fn the_messages_of_the_rows_are_messages(rt: HostRuntime) {
    let mut station = begun(&rt, "c");
    let before = seen(&rt, &station, "c");
    for front in FRONTS_OF_1 {
        expect_misdirected(&rt, &mut station, front, 1);
    }
    for front in FRONTS_OF_2 {
        expect_misdirected(&rt, &mut station, front, 2);
    }
    assert!(rt; seen(&rt, &station, "c").as_str() == before.as_str());
}
