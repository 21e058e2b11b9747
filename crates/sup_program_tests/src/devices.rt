//! Readers and writers that fail.
use crate::runs::{OUTPUT, SCRIPT, expect_run, of_status, simulate};
use std::alloc::Global;
use std::io::{self, ErrorKind, Read, Write};
use std::process::Abort;
use std::sync::Wait;
use std::thread::Threads;
use sup_supctl::run::run;

/// A script of steps, and what it prints: answers, effects and letters.
const STEPS: &[u8] = b"\
nodes a b
join b
start b web
ship b a
settle
show a
where a www
";

const STEPS_OUTPUT: &[u8] = b"\
ok (b,1)
ok (b,2)
  b start web 1.1
ok sent
  sent b 1 to a delta 2 part
ok settled 4
node a boot 1
member b (b,1) label=
child web (b,2) worker permanent 5000 arg= on b
www unknown
";

/// A reader that is interrupted so often, then gives a byte at a time, and then ends or fails.
#[derive(Drop)]
struct Slow<'a> {
    bytes: &'a [u8],
    interrupts: u32,
    ends: bool,
}

impl Read for Slow<'_> {
    fn read(&mut self, buffer: &mut [u8]) -> io::Result<usize> {
        if self.interrupts > 0 {
            self.interrupts -= 1;
            return Err(io::Error::from(ErrorKind::Interrupted));
        }
        match self.bytes {
            [] if self.ends => Ok(0),
            [] => Err(io::Error::from(ErrorKind::Other)),
            [first, rest @ ..] => {
                if buffer.is_empty() {
                    return Ok(0);
                }
                buffer[0] = *first;
                self.bytes = rest;
                Ok(1)
            }
        }
    }
}

/// A writer that is interrupted before each write, takes so many bytes and then fails.
#[derive(Drop)]
struct Short {
    bytes: Vec<u8>,
    room: usize,
    interrupts: bool,
}

impl Short {
    fn new(alloc: Global, room: usize) -> Short {
        Short {
            bytes: Vec::new(alloc),
            room,
            interrupts: false,
        }
    }
}

impl Write for Short {
    fn write(&mut self, bytes: &[u8]) -> io::Result<usize> {
        self.interrupts = !self.interrupts;
        if self.interrupts {
            return Err(io::Error::from(ErrorKind::Interrupted));
        }
        if self.room == 0 {
            return Err(io::Error::from(ErrorKind::Other));
        }
        let count = bytes.len().min(self.room);
        self.bytes.extend_from_slice(&bytes[..count])?;
        self.room -= count;
        Ok(count)
    }

    fn flush(&mut self) -> io::Result<()> {
        Ok(())
    }
}

// A script, given a byte at a time.
fn byte_by_byte(interrupts: u32, ends: bool) -> Slow<'static> {
    Slow {
        bytes: SCRIPT,
        interrupts,
        ends,
    }
}

#[test]
fn a_failing_reader_is_a_device_fault(rt: HostRuntime) {
    for (interrupts, left) in [(0, 0), (1000, 0), (4_000_000, 4_000_000 - 2_097_154)] {
        let mut reader = byte_by_byte(interrupts, false);
        expect_run(&rt, &mut reader, 3, b"", b"device\n");
        assert!(rt; reader.interrupts == left);
    }
}

#[test]
fn an_interrupted_reader_is_asked_again(rt: HostRuntime) {
    expect_run(&rt, &mut byte_by_byte(1000, true), 0, OUTPUT, b"");
}

// Reading comes before the form of what was read.
#[test]
fn a_reader_that_fails_behind_a_bad_line_is_a_device_fault(rt: HostRuntime) {
    let mut reader = Slow {
        bytes: b"show a\n",
        interrupts: 0,
        ends: false,
    };
    expect_run(&rt, &mut reader, 3, b"", b"device\n");
}

#[test]
fn a_placement_whose_reader_fails_is_a_device_fault(rt: HostRuntime) {
    let mut reader = Slow {
        bytes: b"members b a\nweb\n",
        interrupts: 0,
        ends: false,
    };
    let mut written = Vec::new(rt.alloc());
    let mut told = Vec::new(rt.alloc());
    let words = ["place", "--weigh", "flat"];
    let ended = run(
        &rt,
        rt.alloc(),
        &words,
        &mut reader,
        &mut written,
        &mut told,
    );
    assert!(rt; ended == of_status(3) && written.is_empty());
    assert!(rt; told.as_slice() == b"device\n".as_slice());
}

// Expects the front of a simulation's output that there is room for.
fn expect_front(
    rt: &(impl Abort + Threads + Wait + Sync + AllocGlobal),
    input: &[u8],
    output: &[u8],
    room: usize,
) {
    let mut reader = input;
    let mut writer = Short::new(rt.alloc(), room);
    let mut errors = Vec::new(rt.alloc());
    let words = ["simulate", "--weigh", "flat"];
    let ended = run(
        rt,
        rt.alloc(),
        &words,
        &mut reader,
        &mut writer,
        &mut errors,
    );
    let count = output.len().min(room);
    assert!(rt; writer.bytes.as_slice() == &output[..count]);
    if room < output.len() {
        assert!(rt; ended == of_status(3) && errors.as_slice() == b"device\n".as_slice());
    } else {
        assert!(rt; ended == of_status(0) && errors.is_empty());
    }
}

#[test]
fn what_was_written_before_a_fault_stays(rt: HostRuntime) {
    for room in 0..OUTPUT.len() + 2 {
        expect_front(&rt, SCRIPT, OUTPUT, room);
    }
}

#[test]
fn what_steps_wrote_before_a_fault_stays(rt: HostRuntime) {
    for room in 0..STEPS_OUTPUT.len() + 2 {
        expect_front(&rt, STEPS, STEPS_OUTPUT, room);
    }
}

#[test]
fn what_a_placement_wrote_before_a_fault_stays(rt: HostRuntime) {
    let output = b"web a\ndb a\n".as_slice();
    for room in 0..output.len() {
        let mut reader = b"members b a\nweb\ndb\n".as_slice();
        let mut writer = Short::new(rt.alloc(), room);
        let mut errors = Vec::new(rt.alloc());
        let words = ["place", "--weigh", "flat"];
        let ended = run(
            &rt,
            rt.alloc(),
            &words,
            &mut reader,
            &mut writer,
            &mut errors,
        );
        assert!(rt; writer.bytes.as_slice() == &output[..room]);
        assert!(rt; ended == of_status(3) && errors.as_slice() == b"device\n".as_slice());
    }
}

#[test]
fn faults_of_the_error_writer_are_told_beside_the_status(rt: HostRuntime) {
    let line = b"bad line 12\n".as_slice();
    for room in 0..line.len() {
        let mut reader = b"\n\n\n\n\n\n\n\n\n\n\nshow\n".as_slice();
        let mut writer = Vec::new(rt.alloc());
        let mut errors = Short::new(rt.alloc(), room);
        let ended = simulate(&rt, rt.alloc(), &mut reader, &mut writer, &mut errors);
        assert!(rt; ended.status == 1 && ended.told.is_err() && writer.is_empty());
        assert!(rt; errors.bytes.as_slice() == &line[..room]);
    }
}

#[test]
fn usage_that_cant_be_told_keeps_its_status(rt: HostRuntime) {
    let mut reader = SCRIPT;
    let mut writer = Vec::new(rt.alloc());
    let mut errors = Short::new(rt.alloc(), 0);
    let ended = run(
        &rt,
        rt.alloc(),
        &["simulat"],
        &mut reader,
        &mut writer,
        &mut errors,
    );
    assert!(rt; ended.status == 2 && ended.told.is_err());
    assert!(rt; writer.is_empty() && errors.bytes.is_empty());
}
