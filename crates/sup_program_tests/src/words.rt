//! The words that the program is started with.
use crate::runs::of_status;
use std::env::{self, Env, FillError};
use std::io::ErrorKind;
use std::process::Abort;
use std::sync::Wait;
use std::thread::Threads;
use sup_supctl::words::{run_with, words_of};

/// Arguments, the program's name first.
#[derive(Clone, Copy)]
struct Started<'a>(&'a [&'a [u8]]);

impl Env for Started<'_> {
    fn arg(&self, i: usize, buffer: &mut [u8]) -> Result<usize, FillError> {
        let Some(argument) = self.0.get(i) else {
            return Err(FillError::NotPresent);
        };
        if argument.len() > buffer.len() {
            return Err(FillError::TooLong);
        }
        buffer[..argument.len()].copy_from_slice(argument);
        Ok(argument.len())
    }

    fn var(&self, _name: &str, _buffer: &mut [u8]) -> Result<usize, FillError> {
        Err(FillError::NotPresent)
    }

    fn var_at(&self, _i: usize, _buffer: &mut [u8]) -> Result<usize, FillError> {
        Err(FillError::NotPresent)
    }
}

#[test]
fn the_words_are_all_that_come_after_the_name(rt: HostRuntime) {
    let started = Started(&[b"supctl", b"simulate", b"--weigh", b"flat", b"more"]);
    let words = words_of(rt.alloc(), env::args(&(started, rt.alloc())));
    assert!(rt; words.is_ok());
    let words = words.unwrap_or(Vec::new(rt.alloc()));
    let wanted = ["simulate", "--weigh", "flat", "more"];
    assert!(rt; words.len() == wanted.len());
    for (word, name) in words.iter().zip(&wanted) {
        assert!(rt; word.as_str() == *name);
    }
}

#[test]
fn a_name_alone_has_no_words(rt: HostRuntime) {
    let words = words_of(rt.alloc(), env::args(&(Started(&[b"supctl"]), rt.alloc())));
    assert!(rt; words.is_ok_and(|words| words.is_empty()));
    let words = words_of(rt.alloc(), env::args(&(Started(&[]), rt.alloc())));
    assert!(rt; words.is_ok_and(|words| words.is_empty()));
}

#[test]
fn a_word_that_is_no_text_is_a_fault(rt: HostRuntime) {
    let started = Started(&[b"supctl", b"simulate", b"\xff"]);
    let fault = words_of(rt.alloc(), env::args(&(started, rt.alloc()))).err();
    assert!(rt; fault.is_some_and(|fault| fault.kind() == ErrorKind::InvalidData));
}

// Expects what a run writes that was started so, and its status.
fn expect_started(
    rt: &(impl Abort + Threads + Wait + Sync + AllocGlobal),
    arguments: &[&[u8]],
    status: u8,
    output: &[u8],
    errors: &[u8],
) {
    let words = words_of(rt.alloc(), env::args(&(Started(arguments), rt.alloc())));
    let mut reader = b"nodes a\nshow a\n".as_slice();
    let mut written = Vec::new(rt.alloc());
    let mut told = Vec::new(rt.alloc());
    let ended = run_with(rt, rt.alloc(), words, &mut reader, &mut written, &mut told);
    assert!(rt; ended == of_status(status));
    assert!(rt; written.as_slice() == output && told.as_slice() == errors);
    assert!(rt; reader.is_empty() == (status == 0));
}

#[test]
fn a_run_has_the_words_that_it_was_started_with(rt: HostRuntime) {
    let shown = b"node a boot 1\n";
    expect_started(&rt, &[b"supctl", b"simulate"], 0, shown, b"");
    let words: [&[u8]; 4] = [b"supctl", b"simulate", b"--weigh", b"flat"];
    expect_started(&rt, &words, 0, shown, b"");
}

#[test]
fn words_that_are_no_text_are_refused_unread(rt: HostRuntime) {
    let line = b"error: invalid UTF-8 was detected in one or more arguments\n";
    expect_started(&rt, &[b"supctl", b"\xff"], 2, b"", line);
    expect_started(
        &rt,
        &[b"supctl", b"simulate", b"--weigh", b"\xc3\x28"],
        2,
        b"",
        line,
    );
}
