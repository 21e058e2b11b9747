//! What is written is read back, where memory is at hand: it is written once more as it was before.
ghost use Rattle.std.specs.Prelude.{IsTrue};
ghost use Rattle.sup_wire.specs.Faults.{IsInRange, IsImageInRange};

use crate::given::{IMAGE, MESSAGES, OPENING};
use std::process::Abort;
use sup_specs::MAX;
use sup_wire::laws::{a_message_is_read_back, an_image_is_read_back};
use sup_wire::{Image, Message, decode, decode_image, encode, encode_image};

fn is_in_range(message: &Message) -> bool
    ensures { IsTrue result → IsInRange message.now }
{
    match message {
        Message::Ack { from, to, n } => from != to && 1 <= *n && *n <= MAX,
        Message::Push { from, to, .. } => from != to,
        Message::Delta { from, to, n, .. } => from != to && 1 <= *n && *n <= MAX,
    }
}

fn is_image_in_range(image: &Image) -> bool
    ensures { IsTrue result → IsImageInRange image.now }
{
    1 <= image.boot && image.boot <= MAX && image.count <= MAX
}

fn expect_message(rt: &(impl Abort + AllocGlobal), text: &str) {
    let message = decode(rt.alloc(), text.as_bytes()).expect(rt, text);
    assert!(rt; is_in_range(&message), "{text}");
    let back = a_message_is_read_back(rt.alloc(), &message).expect(rt, text);
    let written = encode(rt.alloc(), &back).expect(rt, "room");
    assert!(rt; written.as_slice() == text.as_bytes(), "{text}");
}

fn expect_image(rt: &(impl Abort + AllocGlobal), text: &str) {
    let image = decode_image(rt.alloc(), text.as_bytes()).expect(rt, text);
    assert!(rt; is_image_in_range(&image), "{text}");
    let back = an_image_is_read_back(rt.alloc(), &image).expect(rt, text);
    let written = encode_image(rt.alloc(), &back).expect(rt, "room");
    assert!(rt; written.as_slice() == text.as_bytes(), "{text}");
}

#[test]
fn each_message_and_image_is_read_back(rt: HostRuntime) {
    for text in &MESSAGES {
        expect_message(&rt, text);
    }
    expect_image(&rt, OPENING);
    expect_image(&rt, IMAGE);
}
