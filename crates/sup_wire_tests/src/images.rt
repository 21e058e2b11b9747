//! Images.
use crate::given::{ACK, DELTA, IMAGE, OLD_IMAGE, OPENING};
use crate::made::{joined_kept, opening};
use std::process::Abort;
use sup_wire::{WireFault, decode_image, encode_image};

#[test]
fn the_image_of_a_new_node_has_one_text(rt: HostRuntime) {
    let text = encode_image(rt.alloc(), &opening(&rt)).expect(&rt, "room");
    assert!(rt; text.as_slice() == OPENING.as_bytes());
}

// A node that has joined and started a child.
#[test]
fn the_image_of_a_member_with_a_child_has_one_text(rt: HostRuntime) {
    let image = joined_kept(&rt).expect(&rt, "room");
    let text = encode_image(rt.alloc(), &image).expect(&rt, "room");
    assert!(rt; text.as_slice() == IMAGE.as_bytes());
}

fn expect_written(rt: &(impl Abort + AllocGlobal), text: &str, wanted: &str) {
    let image = decode_image(rt.alloc(), text.as_bytes()).expect(rt, text);
    let written = encode_image(rt.alloc(), &image).expect(rt, "room");
    assert!(rt; written.as_slice() == wanted.as_bytes(), "{text}");
}

const DRAINING: &str = "\
    {\"boot\":1,\"count\":2,\"ctx\":{\"cloud\":[],\"vector\":{\"a\":2}},\"kind\":\"image\",\
    \"node\":\"a\",\"rows\":[[\"member\",\"a\",[\"a\",2],{\"label\":\"\",\
    \"status\":\"draining\"}]],\"v\":2}";

const OLD_OPENING: &str = "\
    {\"boot\":1,\"count\":0,\"ctx\":{\"cloud\":[],\"vector\":{}},\"kind\":\"image\",\"node\":\"a\",\
    \"rows\":[],\"v\":1}";

// A member whose winner is open, and who has a loser.
const OLD_LOSER: &str = "\
    {\"boot\":1,\"count\":2,\"ctx\":{\"cloud\":[],\"vector\":{\"a\":2}},\"kind\":\"image\",\
    \"node\":\"a\",\"rows\":[[\"member\",\"a\",[\"a\",1],{\"label\":\"\"}],[\"member\",\"a\",\
    [\"a\",2],{\"label\":\"x\"}]],\"v\":1}";

const LOSER: &str = "\
    {\"boot\":1,\"count\":2,\"ctx\":{\"cloud\":[],\"vector\":{\"a\":2}},\"kind\":\"image\",\
    \"node\":\"a\",\"rows\":[[\"member\",\"a\",[\"a\",1],{\"label\":\"\",\"status\":\"open\"}],\
    [\"member\",\"a\",[\"a\",2],{\"label\":\"x\",\"status\":\"open\"}]],\"v\":2}";

#[test]
fn each_image_is_written_as_it_was_read(rt: HostRuntime) {
    expect_written(&rt, OPENING, OPENING);
    expect_written(&rt, IMAGE, IMAGE);
    expect_written(&rt, DRAINING, DRAINING);
}

// What is read of version 1 is written in version 2, where each of its members is open.
#[test]
fn both_versions_of_one_open_image_are_read_alike(rt: HostRuntime) {
    expect_written(&rt, OLD_OPENING, OPENING);
    expect_written(&rt, OLD_IMAGE, IMAGE);
    expect_written(&rt, OLD_LOSER, LOSER);
}

fn expect_fault(rt: &(impl Abort + AllocGlobal), text: &str, wanted: WireFault) {
    assert!(rt;
        decode_image(rt.alloc(), text.as_bytes()).err() == Some(wanted),
        "{text}"
    );
}

const NO_IMAGES: [&str; 4] = [
    ACK,
    DELTA,
    "\
    {\"boot\":0,\"count\":0,\"ctx\":{\"cloud\":[],\"vector\":{}},\"kind\":\"image\",\"node\":\"a\",\
    \"rows\":[],\"v\":1}",
    "\
    {\"boot\":1,\"count\":9007199254740992,\"ctx\":{\"cloud\":[],\"vector\":{}},\"kind\":\"image\",\
    \"node\":\"a\",\"rows\":[],\"v\":1}",
];

const OTHER_VERSION: &str = "\
    {\"boot\":1,\"count\":0,\"ctx\":{\"cloud\":[],\"vector\":{}},\"kind\":\"image\",\"node\":\"a\",\
    \"rows\":[],\"v\":3}";

// The image with the version of the other one's rows.
const MIXED: [&str; 2] = [
    "\
    {\"boot\":1,\"count\":2,\"ctx\":{\"cloud\":[],\"vector\":{\"a\":2}},\"kind\":\"image\",\
    \"node\":\"a\",\"rows\":[[\"member\",\"a\",[\"a\",1],{\"label\":\"\",\"status\":\"open\"}],\
    [\"child\",\"web\",[\"a\",2],{\"arg\":\"\",\"kind\":\"worker\",\"restart\":\"permanent\",\
    \"shutdown\":5000}]],\"v\":1}",
    "\
    {\"boot\":1,\"count\":2,\"ctx\":{\"cloud\":[],\"vector\":{\"a\":2}},\"kind\":\"image\",\
    \"node\":\"a\",\"rows\":[[\"member\",\"a\",[\"a\",1],{\"label\":\"\"}],[\"child\",\"web\",\
    [\"a\",2],{\"arg\":\"\",\"kind\":\"worker\",\"restart\":\"permanent\",\"shutdown\":5000}]],\
    \"v\":2}",
];

#[test]
fn an_image_whose_rows_are_of_the_other_version_is_refused(rt: HostRuntime) {
    for text in &MIXED {
        expect_fault(&rt, text, WireFault::NotMessage);
    }
}

const BACKWARDS: &str = "\
    {\"boot\":1,\"count\":2,\"ctx\":{\"cloud\":[],\"vector\":{\"a\":2}},\"kind\":\"image\",\
    \"node\":\"a\",\"rows\":[[\"child\",\"web\",[\"a\",2],{\"arg\":\"\",\"kind\":\"worker\",\
    \"restart\":\"permanent\",\"shutdown\":5000}],[\"member\",\"a\",[\"a\",1],{\"label\":\"\"}]],\
    \"v\":1}";

const TOO_NEAR: &str = "\
    {\"boot\":1,\"count\":0,\"ctx\":{\"cloud\":[[\"a\",1]],\"vector\":{}},\"kind\":\"image\",\
    \"node\":\"a\",\"rows\":[],\"v\":1}";

#[test]
fn texts_of_no_image_are_told_apart(rt: HostRuntime) {
    expect_fault(&rt, "", WireFault::NotJson);
    for text in &NO_IMAGES {
        expect_fault(&rt, text, WireFault::NotMessage);
    }
    expect_fault(&rt, OTHER_VERSION, WireFault::BadVersion);
    expect_fault(&rt, BACKWARDS, WireFault::NotCanonical);
    expect_fault(&rt, TOO_NEAR, WireFault::NotCanonical);
}
