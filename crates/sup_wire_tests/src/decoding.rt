//! Texts of messages that are read, and those that are refused, each with its fault.
use crate::given::ACK;
use std::process::Abort;
use sup_wire::{WireFault, decode, encode};

fn fault(rt: &(impl Abort + AllocGlobal), text: &[u8]) -> Option<WireFault> {
    decode(rt.alloc(), text).err()
}

// Expects a text to be refused with this fault, or read.
fn expect_fault(rt: &(impl Abort + AllocGlobal), text: &str, wanted: Option<WireFault>) {
    assert!(rt; fault(rt, text.as_bytes()) == wanted, "{text}");
}

// Expects each of these texts to be refused with this fault.
fn expect_faults(rt: &(impl Abort + AllocGlobal), texts: &[&str], wanted: WireFault) {
    for text in texts {
        expect_fault(rt, text, Some(wanted));
    }
}

fn joined(rt: &(impl Abort + AllocGlobal), parts: &[&str]) -> String {
    let mut text = String::new(rt.alloc());
    for part in parts {
        text.push_str(part).expect(rt, "room");
    }
    text
}

// A push of a version, from a to b, with this context and these rows.
fn push_in(rt: &(impl Abort + AllocGlobal), version: &str, context: &str, rows: &str) -> String {
    joined(
        rt,
        &[
            "{\"ctx\":",
            context,
            ",\"from\":\"a\",\"kind\":\"push\",\"rows\":",
            rows,
            ",\"to\":\"b\",\"v\":",
            version,
            "}",
        ],
    )
}

fn push(rt: &(impl Abort + AllocGlobal), context: &str, rows: &str) -> String {
    push_in(rt, "1", context, rows)
}

const NO_JSON: [&str; 7] = [
    "",
    "{",
    "{\"from\":\"b\",\"kind\":\"ack\",\"n\":1,\"to\":\"a\",\"v\":1}{}",
    "\u{feff}{\"from\":\"b\",\"kind\":\"ack\",\"n\":1,\"to\":\"a\",\"v\":1}",
    "{\"from\":\"b\n\",\"kind\":\"ack\",\"n\":1,\"to\":\"a\",\"v\":1}",
    "{\"from\":\"\\ud800\",\"kind\":\"ack\",\"n\":1,\"to\":\"a\",\"v\":1}",
    "{\"from\":\"b\",\"kind\":\"ack\",\"n\":1e999,\"to\":\"a\",\"v\":1}",
];

#[test]
fn texts_that_are_no_json_value_are_told_so(rt: HostRuntime) {
    expect_faults(&rt, &NO_JSON, WireFault::NotJson);
    assert!(rt; fault(&rt, b"{\"from\":\"\xff\",\"v\":1}") == Some(WireFault::NotJson));
}

// A list in a list, so deep.
fn nested(rt: &(impl Abort + AllocGlobal), depth: usize) -> Vec<u8> {
    let mut text = Vec::new(rt.alloc());
    for _ in 0..depth {
        text.push(b'[').expect(rt, "room");
    }
    for _ in 0..depth {
        text.push(b']').expect(rt, "room");
    }
    text
}

#[test]
fn a_value_nested_127_deep_is_read_and_one_of_128_is_not(rt: HostRuntime) {
    assert!(rt; fault(&rt, &nested(&rt, 127)) == Some(WireFault::NotMessage));
    assert!(rt; fault(&rt, &nested(&rt, 128)) == Some(WireFault::NotJson));
}

const NO_MESSAGES: [&str; 20] = [
    "[]",
    "{}",
    "{\"v\":2}",
    "{\"from\":\"b\",\"kind\":\"ack\",\"n\":0,\"to\":\"a\",\"v\":2}",
    "{\"from\":\"b\",\"kind\":\"ack\",\"n\":0,\"to\":\"a\",\"v\":1}",
    "{\"from\":\"b\",\"kind\":\"ack\",\"n\":1.0,\"to\":\"a\",\"v\":1}",
    "{\"from\":\"b\",\"kind\":\"ack\",\"n\":-0,\"to\":\"a\",\"v\":1}",
    "{\"from\":\"b\",\"kind\":\"ack\",\"n\":9007199254740992,\"to\":\"a\",\"v\":1}",
    "{\"from\":\"b\",\"kind\":\"ack\",\"n\":18446744073709551616,\"to\":\"a\",\"v\":1}",
    "{\"from\":\"b\",\"kind\":\"ack\",\"n\":1,\"to\":\"b\",\"v\":1}",
    "{\"from\":\"b\",\"kind\":\"ack\",\"n\":1,\"to\":\"A\",\"v\":1}",
    "{\"from\":\"b\",\"kind\":\"Ack\",\"n\":1,\"to\":\"a\",\"v\":1}",
    "{\"from\":\"b\",\"kind\":\"ack\",\"n\":1,\"to\":\"a\"}",
    "{\"from\":\"b\",\"kind\":\"ack\",\"n\":1,\"to\":\"a\",\"v\":1.0}",
    "{\"from\":\"b\",\"kind\":\"ack\",\"n\":1,\"to\":\"a\",\"v\":-0}",
    "{\"from\":\"b\",\"kind\":\"ack\",\"n\":1,\"to\":\"a\",\"v\":18446744073709551616}",
    "{\"from\":\"b\",\"kind\":\"ack\",\"n\":1,\"to\":\"a\",\"v\":1,\"w\":1}",
    "{\"from\":\"b\",\"kind\":\"ack\",\"to\":\"a\",\"v\":1}",
    "{\"from\":2,\"kind\":\"ack\",\"n\":1,\"to\":\"a\",\"v\":1}",
    "\
    {\"boot\":1,\"count\":0,\"ctx\":{\"cloud\":[],\"vector\":{}},\"kind\":\"image\",\"node\":\"a\",\
    \"rows\":[],\"v\":1}",
];

#[test]
fn values_that_are_no_message_are_told_so(rt: HostRuntime) {
    expect_faults(&rt, &NO_MESSAGES, WireFault::NotMessage);
}

const OTHER_VERSIONS: [&str; 4] = [
    "{\"v\":9}",
    "{\"v\":0}",
    "{\"v\":18446744073709551615}",
    "{\"from\":\"b\",\"kind\":\"ack\",\"n\":0,\"to\":\"b\",\"v\":3}",
];

#[test]
fn a_version_that_is_not_read_is_told_before_any_form(rt: HostRuntime) {
    expect_faults(&rt, &OTHER_VERSIONS, WireFault::BadVersion);
}

const ACKS: [&str; 6] = [
    ACK,
    "{\"from\":\"b\",\"kind\":\"ack\",\"n\":1,\"to\":\"a\",\"v\":1}",
    "{\"v\":2,\"to\":\"a\",\"n\":1,\"kind\":\"ack\",\"from\":\"b\"}\n",
    "{ \"from\":\"b\",\"kind\":\"ack\",\"n\":1,\"to\":\"a\",\"v\":1}",
    "{\"v\":1,\"to\":\"a\",\"n\":1,\"kind\":\"ack\",\"from\":\"b\"}\n",
    "{\"from\":\"c\",\"from\":\"b\",\"kind\":\"ack\",\"n\":1,\"to\":\"a\",\"v\":1}",
];

fn expect_ack(rt: &(impl Abort + AllocGlobal), text: &str) {
    let message = decode(rt.alloc(), text.as_bytes()).expect(rt, text);
    let written = encode(rt.alloc(), &message).expect(rt, "room");
    assert!(rt; written.as_slice() == ACK.as_bytes(), "{text}");
}

#[test]
fn an_acknowledgement_is_read_with_spaces_and_in_another_order_of_keys(rt: HostRuntime) {
    for text in &ACKS {
        expect_ack(&rt, text);
    }
}

// Expects pushes with these contexts and no rows to be refused with this fault, or read.
fn expect_contexts(rt: &(impl Abort + AllocGlobal), contexts: &[&str], wanted: Option<WireFault>) {
    for context in contexts {
        expect_fault(rt, push(rt, context, "[]").as_str(), wanted);
    }
}

const CONTEXTS: [&str; 2] = [
    "{\"cloud\":[[\"a\",2]],\"vector\":{}}",
    "{\"cloud\":[[\"a\",3],[\"b\",3]],\"vector\":{\"a\":1}}",
];

const TOO_NEAR_OR_BACKWARDS: [&str; 4] = [
    "{\"cloud\":[[\"a\",1]],\"vector\":{}}",
    "{\"cloud\":[[\"a\",2]],\"vector\":{\"a\":1}}",
    "{\"cloud\":[[\"b\",3],[\"a\",3]],\"vector\":{\"a\":1}}",
    "{\"cloud\":[[\"a\",3],[\"a\",3]],\"vector\":{\"a\":1}}",
];

const NO_CONTEXTS: [&str; 3] = [
    "{\"cloud\":[],\"vector\":{\"a\":0}}",
    "{\"cloud\":[],\"vector\":{\"A\":1}}",
    "{\"cloud\":[]}",
];

#[test]
fn a_cloud_keeps_its_distance_and_its_order(rt: HostRuntime) {
    expect_contexts(&rt, &CONTEXTS, None);
    expect_contexts(&rt, &TOO_NEAR_OR_BACKWARDS, Some(WireFault::NotCanonical));
    expect_contexts(&rt, &NO_CONTEXTS, Some(WireFault::NotMessage));
}

const MEMBER: &str = "[\"member\",\"m\",[\"a\",1],{\"label\":\"\"}]";

const NAME: &str = "[\"name\",\"n\",[\"a\",2],\"x\"]";

// Expects a push with these two rows, in a context of three dots, to be refused with this fault, or
// read.
fn expect_rows(
    rt: &(impl Abort + AllocGlobal),
    first: &str,
    second: &str,
    wanted: Option<WireFault>,
) {
    let rows = joined(rt, &["[", first, ",", second, "]"]);
    let text = push(rt, "{\"cloud\":[],\"vector\":{\"a\":3}}", rows.as_str());
    expect_fault(rt, text.as_str(), wanted)
}

#[test]
fn rows_keep_their_order_and_their_cover(rt: HostRuntime) {
    let backwards = Some(WireFault::NotCanonical);
    expect_rows(&rt, MEMBER, NAME, None);
    expect_rows(&rt, NAME, MEMBER, backwards);
    expect_rows(&rt, MEMBER, MEMBER, backwards);
    expect_rows(&rt, MEMBER, "[\"name\",\"n\",[\"a\",4],\"x\"]", backwards);
}

// What is no row, beside a member before it.
const NO_ROWS: [&str; 4] = [
    "[\"names\",\"n\",[\"a\",2],\"x\"]",
    "[\"name\",\"n\",[\"a\",2]]",
    "\
    [\"child\",\"y\",[\"a\",2],{\"arg\":\"\",\"kind\":\"worker\",\"restart\":\"permanent\",\
    \"shutdown\":4294967296}]",
    "\
    [\"child\",\"y\",[\"a\",2],{\"arg\":\"\",\"kind\":\"worker\",\"restart\":\"never\",\
    \"shutdown\":\"infinity\"}]",
];

const CHILD: &str = "\
    [\"child\",\"y\",[\"a\",2],{\"arg\":\"\",\"kind\":\"worker\",\"restart\":\"transient\",\
    \"shutdown\":\"infinity\"}]";

#[test]
fn rows_keep_their_forms(rt: HostRuntime) {
    let none = "[\"member\",\"m\",[\"a\",0],{\"label\":\"\"}]";
    expect_rows(&rt, NAME, none, Some(WireFault::NotMessage));
    for second in &NO_ROWS {
        expect_rows(&rt, MEMBER, second, Some(WireFault::NotMessage));
    }
    expect_rows(&rt, MEMBER, CHILD, None);
}

// Expects a push of a version with this row to be refused with this fault, or read.
fn expect_row(
    rt: &(impl Abort + AllocGlobal),
    version: &str,
    row: &str,
    wanted: Option<WireFault>,
) {
    let rows = joined(rt, &["[", row, "]"]);
    let context = "{\"cloud\":[],\"vector\":{\"a\":1}}";
    let text = push_in(rt, version, context, rows.as_str());
    expect_fault(rt, text.as_str(), wanted)
}

const MEMBERS: [&str; 3] = [
    "[\"member\",\"m\",[\"a\",1],{\"label\":\"\",\"status\":\"open\"}]",
    "[\"member\",\"m\",[\"a\",1],{\"label\":\"x\",\"status\":\"draining\"}]",
    "[\"member\",\"m\",[\"a\",1],{\"status\":\"open\",\"label\":\"\"}]",
];

#[test]
fn a_row_of_the_other_version_is_no_row(rt: HostRuntime) {
    let misformed = Some(WireFault::NotMessage);
    expect_row(&rt, "1", MEMBER, None);
    expect_row(&rt, "2", MEMBER, misformed);
    for row in &MEMBERS {
        expect_row(&rt, "1", row, misformed);
        expect_row(&rt, "2", row, None);
    }
}

const NO_MEMBERS: [&str; 7] = [
    "[\"member\",\"m\",[\"a\",1],{\"label\":\"\",\"status\":\"closed\"}]",
    "[\"member\",\"m\",[\"a\",1],{\"label\":\"\",\"status\":\"Open\"}]",
    "[\"member\",\"m\",[\"a\",1],{\"label\":\"\",\"status\":\"\"}]",
    "[\"member\",\"m\",[\"a\",1],{\"label\":\"\",\"status\":0}]",
    "[\"member\",\"m\",[\"a\",1],{\"label\":\"\",\"status\":null}]",
    "[\"member\",\"m\",[\"a\",1],{\"status\":\"open\"}]",
    "[\"member\",\"m\",[\"a\",1],{\"label\":\"\",\"node\":\"m\",\"status\":\"open\"}]",
];

#[test]
fn a_status_is_open_or_draining_and_stands_beside_its_label(rt: HostRuntime) {
    for row in &NO_MEMBERS {
        expect_row(&rt, "2", row, Some(WireFault::NotMessage));
    }
}

// The deltas of a member with a child and of its replacement, but for the order.
const BACKWARDS: [&str; 2] = [
    "\
    {\"ctx\":{\"cloud\":[],\"vector\":{\"a\":2}},\"from\":\"a\",\"kind\":\"delta\",\"n\":2,\
    \"rows\":[[\"child\",\"web\",[\"a\",2],{\"arg\":\"\",\"kind\":\"worker\",\
    \"restart\":\"permanent\",\"shutdown\":5000}],[\"member\",\"a\",[\"a\",1],{\"label\":\"\"}]],\
    \"to\":\"b\",\"v\":1}",
    "\
    {\"ctx\":{\"cloud\":[[\"a\",3],[\"a\",2]],\"vector\":{}},\"from\":\"a\",\"kind\":\"push\",\
    \"rows\":[[\"child\",\"web\",[\"a\",3],{\"arg\":\"x\",\"kind\":\"worker\",\
    \"restart\":\"permanent\",\"shutdown\":5000}]],\"to\":\"b\",\"v\":1}",
];

#[test]
fn rows_or_dots_of_a_message_that_stand_backwards_are_refused(rt: HostRuntime) {
    expect_faults(&rt, &BACKWARDS, WireFault::NotCanonical);
}
