//! Messages that are made by hand, and texts that come back as they were read.
use crate::given::{
    ACK, ACK_OF_JOINED, ACK_OF_REMOVED, DELTA, DRAINED, JOINED, MESSAGES, REMOVED, REPLACED,
    STARTED,
};
use crate::made::{
    ack, drained_sent, first_sent, joined_sent, removed_sent, replaced_sent, second_sent,
};
use std::process::Abort;
use sup_wire::{Message, decode, encode};

fn expect_text(rt: &(impl Abort + AllocGlobal), message: Option<Message>, wanted: &str) {
    let message = message.expect(rt, "room");
    let text = encode(rt.alloc(), &message).expect(rt, "room");
    assert!(rt; text.as_slice() == wanted.as_bytes(), "{wanted}");
}

fn expect_ack(rt: &(impl Abort + AllocGlobal), ends: (&str, u64, &str), wanted: &str) {
    expect_text(rt, Some(ack(rt, ends.0, ends.1, ends.2)), wanted)
}

// A node removes a child while another one replaces it.
#[test]
fn the_messages_of_an_add_beside_a_removal_have_one_text(rt: HostRuntime) {
    expect_text(&rt, joined_sent(&rt), JOINED);
    expect_ack(&rt, ("b", 2, "a"), ACK_OF_JOINED);
    expect_text(&rt, removed_sent(&rt), REMOVED);
    expect_ack(&rt, ("a", 2, "b"), ACK_OF_REMOVED);
    expect_text(&rt, replaced_sent(&rt), REPLACED);
}

#[test]
fn the_messages_of_two_deltas_in_turn_have_one_text(rt: HostRuntime) {
    expect_text(&rt, first_sent(&rt), STARTED);
    expect_ack(&rt, ("b", 1, "a"), ACK);
    expect_text(&rt, second_sent(&rt), DELTA);
}

#[test]
fn the_message_of_a_drain_has_one_text(rt: HostRuntime) {
    expect_text(&rt, drained_sent(&rt), DRAINED);
}

// Forms that those messages do not have.
const OTHERS: [&str; 4] = [
    "\
    {\"ctx\":{\"cloud\":[[\"b\",2],[\"a\",4]],\"vector\":{\"a\":2,\"c\":1}},\"from\":\"a\",\
    \"kind\":\"push\",\"rows\":[],\"to\":\"b\",\"v\":2}",
    "\
    {\"ctx\":{\"cloud\":[],\"vector\":{\"a\":1}},\"from\":\"a\",\"kind\":\"push\",\
    \"rows\":[[\"member\",\"a\",[\"a\",1],{\"label\":\"\\\"q\\\\\",\"status\":\"open\"}]],\
    \"to\":\"b\",\"v\":2}",
    "\
    {\"ctx\":{\"cloud\":[],\"vector\":{\"a\":2}},\"from\":\"a\",\"kind\":\"delta\",\
    \"n\":9007199254740991,\"rows\":[[\"child\",\"x\",[\"a\",2],{\"arg\":\"z\",\"kind\":\"k\",\
    \"restart\":\"temporary\",\"shutdown\":\"brutal_kill\"}],[\"name\",\"n\",[\"a\",1],\"x\"]],\
    \"to\":\"b\",\"v\":2}",
    "\
    {\"ctx\":{\"cloud\":[[\"b\",3]],\"vector\":{\"a\":1}},\"from\":\"a\",\"kind\":\"push\",\
    \"rows\":[[\"member\",\"a\",[\"a\",1],{\"label\":\"x\",\"status\":\"draining\"}],[\"member\",\
    \"a\",[\"b\",3],{\"label\":\"x\",\"status\":\"open\"}]],\"to\":\"b\",\"v\":2}",
];

fn expect_same(rt: &(impl Abort + AllocGlobal), text: &str) {
    let message = decode(rt.alloc(), text.as_bytes()).expect(rt, text);
    let written = encode(rt.alloc(), &message).expect(rt, "room");
    assert!(rt; written.as_slice() == text.as_bytes(), "{text}");
}

#[test]
fn each_text_is_written_as_it_was_read(rt: HostRuntime) {
    for text in &MESSAGES {
        expect_same(&rt, text);
    }
    for text in &OTHERS {
        expect_same(&rt, text);
    }
}
