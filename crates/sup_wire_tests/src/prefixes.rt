//! Texts that are cut short.
use crate::given::{IMAGE, JOINED, MESSAGES, OLD_IMAGE, OPENING};
use crate::made::{joined_kept, joined_sent};
use std::process::Abort;
use sup_cut_texts::{a_message_cut_short_is_refused, an_image_cut_short_is_refused};
use sup_wire::{WireFault, decode, decode_image, encode, encode_image};

fn expect_no_message(rt: &(impl Abort + AllocGlobal), text: &[u8]) {
    assert!(rt; decode(rt.alloc(), text).is_err(), "{} bytes", text.len());
}

fn expect_no_image(rt: &(impl Abort + AllocGlobal), text: &[u8]) {
    assert!(rt;
        decode_image(rt.alloc(), text).is_err(),
        "{} bytes",
        text.len()
    );
}

#[test]
fn no_front_of_a_message_is_a_message(rt: HostRuntime) {
    for text in &MESSAGES {
        let bytes = text.as_bytes();
        for end in 0..bytes.len() {
            expect_no_message(&rt, &bytes[..end]);
        }
    }
}

fn expect_no_front(rt: &(impl Abort + AllocGlobal), bytes: &[u8]) {
    for end in 0..bytes.len() {
        expect_no_image(rt, &bytes[..end]);
    }
}

#[test]
fn no_front_of_an_image_is_an_image(rt: HostRuntime) {
    expect_no_front(&rt, OPENING.as_bytes());
    expect_no_front(&rt, IMAGE.as_bytes());
    expect_no_front(&rt, OLD_IMAGE.as_bytes());
}

// What is written of a member with a child, cut short by its last byte.
#[test]
fn a_message_without_its_last_byte_is_no_json(rt: HostRuntime) {
    let message = joined_sent(&rt).expect(&rt, "room");
    let text = encode(rt.alloc(), &message).expect(&rt, "room");
    let kept = JOINED.len().saturating_sub(1);
    assert!(rt; kept < text.len());
    let cut = a_message_cut_short_is_refused(rt.alloc(), &message, &text, kept);
    assert!(rt; cut.err() == Some(WireFault::NotJson));
}

#[test]
fn an_image_without_its_last_byte_is_no_json(rt: HostRuntime) {
    let image = joined_kept(&rt).expect(&rt, "room");
    let text = encode_image(rt.alloc(), &image).expect(&rt, "room");
    let kept = IMAGE.len().saturating_sub(1);
    assert!(rt; kept < text.len());
    let cut = an_image_cut_short_is_refused(rt.alloc(), &image, &text, kept);
    assert!(rt; cut.err() == Some(WireFault::NotJson));
}
