//! A story that goes on where a growth was refused: the call answers so, and made once more it
//! gives the right answer.
use crate::given::{
    ACK, ACK_OF_JOINED, ACK_OF_REMOVED, DELTA, DRAINED, IMAGE, JOINED, OPENING, REMOVED, REPLACED,
    STARTED,
};
use crate::made::{
    ack, drained_sent, first_sent, joined_kept, joined_sent, lent, opening, removed_sent,
    replaced_sent, second_sent,
};
use std::process::Abort;
use sup_array_text::Room;
use sup_image_text::text_after;
use sup_wire::{Image, Message, WireFault, decode, decode_image, encode, encode_image, text_of};

fn sure_text(rt: &(impl Abort + AllocGlobal), message: &Message) -> Vec<u8> {
    match encode(rt.alloc(), message) {
        Ok(text) => text,
        Err(_) => encode(rt.alloc(), message).expect(rt, "a text"),
    }
}

fn sure_message(rt: &(impl Abort + AllocGlobal), text: &str) -> Message {
    match decode(rt.alloc(), text.as_bytes()) {
        Ok(message) => message,
        Err(fault) => {
            assert!(rt; fault == WireFault::OutOfMemory);
            decode(rt.alloc(), text.as_bytes()).expect(rt, "a message")
        }
    }
}

fn sure_image_text(rt: &(impl Abort + AllocGlobal), image: &Image) -> Vec<u8> {
    match encode_image(rt.alloc(), image) {
        Ok(text) => text,
        Err(_) => encode_image(rt.alloc(), image).expect(rt, "a text"),
    }
}

fn try_next_text(rt: &(impl Abort + AllocGlobal), image: &Image) -> Option<Vec<u8>> {
    let last = text_of(rt.alloc(), &opening(rt)).ok()?;
    let room = Room::new(rt.alloc());
    let text = text_after(rt.alloc(), &last, &lent(image)?, room).ok()?;
    Some(text.into_text())
}

fn sure_next_text(rt: &(impl Abort + AllocGlobal), image: &Image) -> Vec<u8> {
    match try_next_text(rt, image) {
        Some(text) => text,
        None => try_next_text(rt, image).expect(rt, "a text"),
    }
}

fn sure_image(rt: &(impl Abort + AllocGlobal), text: &str) -> Image {
    match decode_image(rt.alloc(), text.as_bytes()) {
        Ok(image) => image,
        Err(fault) => {
            assert!(rt; fault == WireFault::OutOfMemory);
            decode_image(rt.alloc(), text.as_bytes()).expect(rt, "an image")
        }
    }
}

fn sure_fault(rt: &(impl Abort + AllocGlobal), text: &str) -> Option<WireFault> {
    match decode(rt.alloc(), text.as_bytes()) {
        Err(WireFault::OutOfMemory) => decode(rt.alloc(), text.as_bytes()).err(),
        answer => answer.err(),
    }
}

// Writes the message, and what is read from that text.
fn expect_way(rt: &(impl Abort + AllocGlobal), message: &Message, wanted: &str) {
    let text = sure_text(rt, message);
    assert!(rt; text.as_slice() == wanted.as_bytes(), "{wanted}");
    let again = sure_text(rt, &sure_message(rt, wanted));
    assert!(rt; again.as_slice() == wanted.as_bytes(), "{wanted}");
}

fn expect_image_way(rt: &(impl Abort + AllocGlobal), image: &Image, wanted: &str) {
    let text = sure_image_text(rt, image);
    assert!(rt; text.as_slice() == wanted.as_bytes(), "{wanted}");
    let next_text = sure_next_text(rt, image);
    assert!(rt; next_text.as_slice() == wanted.as_bytes(), "{wanted}");
    let again = sure_image_text(rt, &sure_image(rt, wanted));
    assert!(rt; again.as_slice() == wanted.as_bytes(), "{wanted}");
}

// A message of a story.
#[derive(Clone, Copy)]
enum Sent {
    Joined,
    Removed,
    Replaced,
    Drained,
    First,
    Second,
}

fn make(rt: &(impl Abort + AllocGlobal), which: Sent) -> Option<Message> {
    match which {
        Sent::Joined => joined_sent(rt),
        Sent::Removed => removed_sent(rt),
        Sent::Replaced => replaced_sent(rt),
        Sent::Drained => drained_sent(rt),
        Sent::First => first_sent(rt),
        Sent::Second => second_sent(rt),
    }
}

fn sure_sent(rt: &(impl Abort + AllocGlobal), which: Sent) -> Message {
    match make(rt, which) {
        Some(message) => message,
        None => make(rt, which).expect(rt, "room"),
    }
}

fn expect_sent(rt: &(impl Abort + AllocGlobal), which: Sent, wanted: &str) {
    expect_way(rt, &sure_sent(rt, which), wanted)
}

fn expect_ack(rt: &(impl Abort + AllocGlobal), ends: (&str, u64, &str), wanted: &str) {
    expect_way(rt, &ack(rt, ends.0, ends.1, ends.2), wanted)
}

#[test]
fn a_refused_text_of_a_message_is_written_or_read_when_asked_again(rt: HostRuntime) {
    expect_sent(&rt, Sent::Joined, JOINED);
    expect_sent(&rt, Sent::Removed, REMOVED);
    expect_sent(&rt, Sent::Replaced, REPLACED);
    expect_sent(&rt, Sent::Drained, DRAINED);
    expect_sent(&rt, Sent::First, STARTED);
    expect_sent(&rt, Sent::Second, DELTA);
    expect_ack(&rt, ("b", 1, "a"), ACK);
    expect_ack(&rt, ("b", 2, "a"), ACK_OF_JOINED);
    expect_ack(&rt, ("a", 2, "b"), ACK_OF_REMOVED);
}

fn sure_joined_kept(rt: &(impl Abort + AllocGlobal)) -> Image {
    match joined_kept(rt) {
        Some(image) => image,
        None => joined_kept(rt).expect(rt, "room"),
    }
}

#[test]
fn a_refused_text_of_an_image_is_written_or_read_when_asked_again(rt: HostRuntime) {
    expect_image_way(&rt, &opening(&rt), OPENING);
    expect_image_way(&rt, &sure_joined_kept(&rt), IMAGE);
}

fn expect_fault(rt: &(impl Abort + AllocGlobal), text: &str, wanted: WireFault) {
    assert!(rt; sure_fault(rt, text) == Some(wanted), "{text}");
}

const TWO_VALUES: &str = "{\"from\":\"b\",\"kind\":\"ack\",\"n\":1,\"to\":\"a\",\"v\":1}{}";

const BROKEN_NUMBER: &str = "{\"from\":\"b\",\"kind\":\"ack\",\"n\":1.0,\"to\":\"a\",\"v\":1}";

const TOO_NEAR: &str = "\
    {\"ctx\":{\"cloud\":[[\"a\",1]],\"vector\":{}},\"from\":\"a\",\"kind\":\"push\",\"rows\":[],\
    \"to\":\"b\",\"v\":1}";

const BACKWARDS: &str = "\
    {\"ctx\":{\"cloud\":[],\"vector\":{\"a\":2}},\"from\":\"a\",\"kind\":\"push\",\
    \"rows\":[[\"name\",\"n\",[\"a\",1],\"x\"],[\"member\",\"a\",[\"a\",2],{\"label\":\"\"}]],\
    \"to\":\"b\",\"v\":1}";

// A text that is refused for its own fault is refused for no other one.
#[test]
fn a_fault_is_told_when_asked_again(rt: HostRuntime) {
    expect_fault(&rt, "{", WireFault::NotJson);
    expect_fault(&rt, TWO_VALUES, WireFault::NotJson);
    expect_fault(&rt, "[]", WireFault::NotMessage);
    expect_fault(&rt, BROKEN_NUMBER, WireFault::NotMessage);
    expect_fault(&rt, "{\"v\":9}", WireFault::BadVersion);
    expect_fault(&rt, TOO_NEAR, WireFault::NotCanonical);
    expect_fault(&rt, BACKWARDS, WireFault::NotCanonical);
}
