//! Runs of the program over given words and devices, and what they have to give.
use std::alloc::Global;
use std::io::{Read, Write};
use std::process::Abort;
use std::sync::Wait;
use std::thread::Threads;
use sup_jobs::Ended;
use sup_program::run::USAGE;
use sup_supctl::run::run;

/// A script with skipped lines, and what it prints.
pub(crate) const SCRIPT: &[u8] = b"# two nodes\nnodes a b\n\nshow b\nshow z\nshow a\n";

pub(crate) const OUTPUT: &[u8] = b"node b boot 1\nrefused 3 UnknownNode\nnode a boot 1\n";

/// An end with this status, whose line was told.
pub(crate) fn of_status(status: u8) -> Ended {
    Ended {
        status,
        told: Ok(()),
    }
}

pub(crate) fn simulate<T: Threads + Wait + Sync, R: Read, W: Write, E: Write>(
    rt: &T,
    alloc: Global,
    reader: &mut R,
    writer: &mut W,
    errors: &mut E,
) -> Ended {
    run(rt, alloc, &["simulate"], reader, writer, errors)
}

/// Expects what a simulation over this reader writes, and its status.
pub(crate) fn expect_run<R: Read>(
    rt: &(impl Abort + Threads + Wait + Sync + AllocGlobal),
    reader: &mut R,
    status: u8,
    output: &[u8],
    errors: &[u8],
) {
    let mut written = Vec::new(rt.alloc());
    let mut told = Vec::new(rt.alloc());
    let ended = simulate(rt, rt.alloc(), reader, &mut written, &mut told);
    assert!(rt; ended == of_status(status));
    assert!(rt; written.as_slice() == output && told.as_slice() == errors);
}

/// Expects what a run with these words over this input writes, and its status.
pub(crate) fn expect(
    rt: &(impl Abort + Threads + Wait + Sync + AllocGlobal),
    words: &[&str],
    input: &[u8],
    status: u8,
    output: &[u8],
    errors: &[u8],
) {
    let mut reader = input;
    let mut written = Vec::new(rt.alloc());
    let mut told = Vec::new(rt.alloc());
    let ended = run(rt, rt.alloc(), words, &mut reader, &mut written, &mut told);
    let came = ended.status;
    assert!(rt; ended == of_status(status), "{came}");
    let text = std::str::from_utf8(written.as_slice()).unwrap_or("");
    assert!(rt; written.as_slice() == output, "{text}");
    assert!(rt; told.as_slice() == errors);
}

/// Expects that these words are refused, for whatever reason is told in the words of `clap`.
pub(crate) fn expect_usage(
    rt: &(impl Abort + Threads + Wait + Sync + AllocGlobal),
    words: &[&str],
    input: &[u8],
) {
    let mut reader = input;
    let mut written = Vec::new(rt.alloc());
    let mut told = Vec::new(rt.alloc());
    let ended = run(rt, rt.alloc(), words, &mut reader, &mut written, &mut told);
    let came = ended.status;
    assert!(rt; ended == of_status(USAGE) && USAGE == 2, "{came}");
    assert!(rt; reader.len() == input.len());
    assert!(rt; written.is_empty());
    let text = std::str::from_utf8(told.as_slice()).unwrap_or("");
    assert!(rt;
        text.starts_with("error: ") || text.contains("\n\nUsage: supctl "),
        "{text}"
    );
    assert!(rt; text.ends_with("\n"), "{text}");
}
