//! What is told of a row, line by line. What is printed of a station's answer and of its node are the texts of a script's
//! lines. Where memory is refused a call is made once more.
use std::process::Abort;
use sup_replica::Done;
use sup_specs::NodeName;
use sup_text::answer_text;

/// Puts a text behind another one.
pub(crate) fn put(rt: &impl Abort, told: &mut String, text: &str) {
    if told.push_str(text).is_err() {
        told.push_str(text).expect(rt, "room");
    }
}

/// What a station answered, and which of its letters the answer's is.
pub(crate) fn answered(
    rt: &(impl Abort + AllocGlobal),
    at: &NodeName,
    done: &Done,
    number: Option<u64>,
) -> String {
    answer_text(rt.alloc(), at, done, number)
        .or_else(|_| answer_text(rt.alloc(), at, done, number))
        .expect(rt, "room")
}

/// The bytes of a message or an image, as a line.
pub(crate) fn line_of(rt: &(impl Abort + AllocGlobal), bytes: &[u8]) -> String {
    let Ok(text) = std::str::from_utf8(bytes) else {
        panic!(rt; "no text")
    };
    let mut copy = String::new(rt.alloc());
    put(rt, &mut copy, text);
    put(rt, &mut copy, "\n");
    copy
}
