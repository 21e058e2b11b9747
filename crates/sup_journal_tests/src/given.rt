//! A file with two records, and what is expected of files.

use std::process::Abort;
use sup_journal::{ReadFault, read_image};

/// The image as it was last written whole.
pub(crate) const FIRST: &[u8] = b"one two three";

/// The image after the first record, which turns `two`, and after the second, which turns `three`.
pub(crate) const SECOND: &[u8] = b"one TWO three";

pub(crate) const THIRD: &[u8] = b"one TWO THREE";

/// The file, and where its first record ends.
pub(crate) const FILE: &[u8] =
    b"one two three\n12294278288486070909000000040000000300000003TWO\n\n14464443760821200411000000080000000500000005THREE\n";

pub(crate) const FIRST_RECORD_ENDS: usize = 62;

pub(crate) fn expect_image(rt: &(impl Abort + AllocGlobal), file: &[u8], wanted: &[u8]) {
    let image = read_image(rt.alloc(), file).expect(rt, "an image");
    assert_eq!(rt; image.as_slice(), wanted);
}

pub(crate) fn expect_damage(rt: &(impl Abort + AllocGlobal), file: &[u8], line: u64) {
    match read_image(rt.alloc(), file) {
        Ok(_) => panic!(rt; "an image was read"),
        Err(fault) => assert_eq!(rt; fault, ReadFault::Damaged(line)),
    }
}

/// These bytes with others behind them.
pub(crate) fn joined(rt: &(impl Abort + AllocGlobal), front: &[u8], back: &[u8]) -> Vec<u8> {
    let mut all = front.to_vec(rt.alloc()).expect(rt, "room");
    all.extend_from_slice(back).expect(rt, "room");
    all
}

/// These bytes with another in a place.
pub(crate) fn with_byte(
    rt: &(impl Abort + AllocGlobal),
    bytes: &[u8],
    place: usize,
    byte: u8,
) -> Vec<u8> {
    let mut changed = bytes.to_vec(rt.alloc()).expect(rt, "room");
    assert!(rt; place < changed.len());
    changed[place] = byte;
    changed
}
