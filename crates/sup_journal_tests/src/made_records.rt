//! Records that are made.

use crate::given::{expect_image, joined, with_byte};
use std::process::Abort;
use sup_journal::make_record;

// An image of eight rows of 41 bytes.
fn rows(rt: &(impl Abort + AllocGlobal)) -> Vec<u8> {
    let mut image = Vec::new(rt.alloc());
    for row in 0u8..8 {
        image.extend_from_slice(b"row ").expect(rt, "room");
        image.push(b'0' + row).expect(rt, "room");
        image
            .extend_from_slice(b" of the image: xxxxxxxxxxxxxxxxxxxx;")
            .expect(rt, "room");
    }
    image
}

// The record that makes the new image of the old one has these bytes, and is read back so behind the old image.
fn expect_record(rt: &(impl Abort + AllocGlobal), old: &[u8], new: &[u8], wanted: &[u8]) {
    let found = make_record(rt.alloc(), old, new).expect(rt, "room");
    let record = found.expect(rt, "a record");
    assert_eq!(rt; record.bytes.as_slice(), wanted);
    assert_eq!(rt; record.image.as_slice(), new);
    expect_image(rt, &joined(rt, old, &record.bytes), new);
}

// There is a record of one edit, by which at most 22 bytes come, and it is read back.
fn expect_short_record(rt: &(impl Abort + AllocGlobal), old: &[u8], new: &[u8]) {
    let found = make_record(rt.alloc(), old, new).expect(rt, "room");
    let record = found.expect(rt, "a record");
    expect_image(rt, &joined(rt, old, &record.bytes), new);
    assert!(rt; record.bytes.len() <= 46 + 22);
}

fn expect_none(rt: &(impl Abort + AllocGlobal), old: &[u8], new: &[u8]) {
    let found = make_record(rt.alloc(), old, new).expect(rt, "room");
    assert!(rt; found.is_none());
}

#[test]
fn a_record_has_what_changed(rt: HostRuntime) {
    let old = rows(&rt);
    expect_record(
        &rt,
        &old,
        &with_byte(&rt, &old, 127, b'4'),
        b"\n063786902632274566030000012700000001000000014\n",
    );
    expect_record(&rt, &old, &old, b"\n14695981039346656037\n");
}

#[test]
fn edits_that_stand_near_one_another_are_one(rt: HostRuntime) {
    let old = rows(&rt);
    let changed = with_byte(&rt, &old, 4, b'A');
    expect_record(
        &rt,
        &old,
        &with_byte(&rt, &changed, 28, b'B'),
        b"\n02502633476523203929000000040000002500000025A of the image: xxxxxxxxB\n",
    );
    expect_record(
        &rt,
        &old,
        &with_byte(&rt, &changed, 29, b'B'),
        b"\n09234925776044401476000000040000000100000001A000000240000000100000001B\n",
    );
}

#[test]
fn a_record_is_read_back_wherever_a_row_comes_or_goes(rt: HostRuntime) {
    let image = rows(&rt);
    let old = image.as_slice();
    for place in 0..old.len() {
        let longer = joined(&rt, &old[..place], b"row 8, which has come;");
        let new = joined(&rt, &longer, &old[place..]);
        expect_short_record(&rt, old, &new);
        expect_short_record(&rt, &new, old);
    }
}

#[test]
fn there_is_no_record_that_is_longer_than_half_of_the_image(rt: HostRuntime) {
    let image = rows(&rt);
    let old = image.as_slice();
    expect_none(&rt, b"one", b"two");
    expect_none(&rt, b"", old);
    expect_none(&rt, old, b"");
    // 44 bytes are twice a record of no edits.
    let enough = b"an image of 44 bytes, all of them in a line:";
    expect_record(&rt, enough, enough, b"\n14695981039346656037\n");
    let less = b"an image of 43 bytes, all of them in a line";
    expect_none(&rt, less, less);
}

#[test]
fn an_image_of_two_lines_has_no_record(rt: HostRuntime) {
    let old = rows(&rt);
    expect_none(&rt, &old, &with_byte(&rt, &old, 100, b'\n'));
}
