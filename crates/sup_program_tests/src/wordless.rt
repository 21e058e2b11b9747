//! Runs whose words can't be had.
use crate::runs::of_status;
use std::io::{self, ErrorKind};
use std::process::Abort;
use std::sync::Wait;
use std::thread::Threads;
use sup_supctl::words::run_with;

// Expects what a run tells that has this in the place of words, and its status. It reads and
// prints nothing.
fn expect_wordless(
    rt: &(impl Abort + Threads + Wait + Sync + AllocGlobal),
    kind: ErrorKind,
    status: u8,
    errors: &[u8],
) {
    let mut reader = b"nodes a\nshow a\n".as_slice();
    let mut written = Vec::new(rt.alloc());
    let mut told = Vec::new(rt.alloc());
    let words = Err(io::Error::from(kind));
    let ended = run_with(rt, rt.alloc(), words, &mut reader, &mut written, &mut told);
    assert!(rt; ended == of_status(status));
    assert!(rt; reader.len() == 15 && written.is_empty());
    assert!(rt; told.as_slice() == errors);
}

#[test]
fn words_without_memory_want_memory(rt: HostRuntime) {
    expect_wordless(&rt, ErrorKind::OutOfMemory, 3, b"out of memory\n");
}

#[test]
fn words_that_are_no_text_are_no_command(rt: HostRuntime) {
    let line = b"error: invalid UTF-8 was detected in one or more arguments\n";
    expect_wordless(&rt, ErrorKind::InvalidData, 2, line);
    expect_wordless(&rt, ErrorKind::Other, 2, line);
}
