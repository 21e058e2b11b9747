//! What words ask of a program, and with which it runs.

use crate::fakes::{Did, NoRoom, Note, Telling};
use std::alloc::{AllocError, Global};
use std::env::Args;
use std::io::{self, ErrorKind};
use std::process::Abort;
use sup_about::{Asked, Command, Exit, Program, Room, SystemRoom, asked_in, run_asking};

const PROVED: &[u8] = b"supd 0.9.0, kit-1 of a test, proved\n";

fn words_of(alloc: Global, words: &[&str]) -> Result<Vec<String>, AllocError> {
    let mut texts = Vec::new(alloc);
    for word in words {
        let text = String::from_str(alloc, word)?;
        texts.push(text)?;
    }
    Ok(texts)
}

fn arguments_of(rt: &(impl Abort + AllocGlobal), words: &[&str]) -> Args {
    let words = words_of(rt.alloc(), words).expect(rt, "room");
    words.into_iter()
}

// Expects that these words behind its name ask this about the program.
fn expect_asked(rt: &(impl Abort + AllocGlobal), program: Program, words: &[&str], wanted: Asked) {
    let words = words_of(rt.alloc(), words).expect(rt, "room");
    assert_eq!(rt; asked_in(program, words.as_slice()), Some(wanted));
}

// Expects what the program writes that is started with these arguments, where a line stands beside it, and how it ends. What it did.
fn started<M: Room>(
    rt: &(impl Abort + AllocGlobal),
    program: Program,
    arguments: io::Result<Args>,
    room: M,
    answer: &[u8],
    status: u8,
) -> Did {
    let alloc = rt.alloc();
    let mut told = Vec::new(alloc);
    let exit = run_asking(
        alloc,
        Telling { program },
        arguments,
        room,
        Note { line: Some(PROVED) },
        (),
        Vec::new(alloc),
        &mut told,
    );
    let Exit {
        code: _,
        ended,
        left,
    } = exit;
    let (did, written) = left;
    assert_eq!(rt; written.as_slice(), answer);
    assert!(rt; told.is_empty());
    assert!(rt; ended.status == status && ended.told.is_ok());
    did
}

// Expects that the program runs with these words behind its name as they are.
fn expect_run(rt: &(impl Abort + AllocGlobal), program: Program, words: &[&str]) {
    let arguments = Ok(arguments_of(rt, words));
    let room = SystemRoom { alloc: rt.alloc() };
    let Did::Ran(left) = started(rt, program, arguments, room, b"", 7) else {
        panic!(rt; "a run")
    };
    let mut left = left.into_iter();
    for word in words.iter().skip(1) {
        match left.next() {
            Some(argument) => assert_eq!(rt; argument.as_str(), *word),
            None => rt.panic("all words"),
        }
    }
    assert!(rt; left.next().is_none());
}

#[test]
fn one_word_asks_for_help_or_the_version(rt: HostRuntime) {
    for program in [Program::Supctl, Program::Supd, Program::Supdraw] {
        expect_asked(&rt, program, &["--help"], Asked::Help);
        expect_asked(&rt, program, &["-h"], Asked::Help);
        expect_asked(&rt, program, &["--version"], Asked::Version);
    }
}

#[test]
fn a_command_and_a_word_ask_for_its_help(rt: HostRuntime) {
    let supctl = Program::Supctl;
    let simulate = Asked::HelpOf(Command::Simulate);
    expect_asked(&rt, supctl, &["simulate", "--help"], simulate);
    expect_asked(&rt, supctl, &["simulate", "-h"], simulate);
    let cluster = Asked::HelpOf(Command::Cluster);
    expect_asked(&rt, supctl, &["cluster", "-h"], cluster);
    let place = Asked::HelpOf(Command::Place);
    expect_asked(&rt, supctl, &["place", "--help"], place);
    let inspect = Asked::HelpOf(Command::Inspect);
    expect_asked(&rt, supctl, &["inspect", "--help"], inspect);
}

#[test]
fn a_program_that_is_asked_answers_and_does_not_run(rt: HostRuntime) {
    let arguments = Ok(arguments_of(&rt, &["x", "--version"]));
    let room = SystemRoom { alloc: rt.alloc() };
    let did = started(&rt, Program::Supd, arguments, room, PROVED, 0);
    assert!(rt; matches!(did, Did::Rested));
}

#[test]
fn all_other_words_are_run_with_as_they_are(rt: HostRuntime) {
    let supctl = Program::Supctl;
    expect_run(&rt, supctl, &[]);
    expect_run(&rt, supctl, &["--help"]);
    expect_run(&rt, supctl, &["x", "help"]);
    expect_run(&rt, supctl, &["x", "--Help"]);
    expect_run(&rt, supctl, &["x", "-V"]);
    expect_run(&rt, supctl, &["x", "simulate"]);
    expect_run(&rt, supctl, &["x", "--version", "--help"]);
    expect_run(&rt, supctl, &["x", "--help", "simulate"]);
    expect_run(&rt, supctl, &["x", "simulate", "--version"]);
    expect_run(&rt, supctl, &["x", "simulated", "--help"]);
    expect_run(&rt, supctl, &["x", "simulate", "--weigh", "--help"]);
    expect_run(&rt, Program::Supd, &["x", "simulate", "--help"]);
    expect_run(&rt, Program::Supd, &["x", "a", "--image", "--help"]);
    expect_run(&rt, Program::Supdraw, &["x", "inspect", "-h"]);
}

#[test]
fn arguments_that_cant_be_had_ask_nothing(rt: HostRuntime) {
    for kind in [ErrorKind::InvalidData, ErrorKind::OutOfMemory] {
        let room = SystemRoom { alloc: rt.alloc() };
        let error = Err(io::Error::from(kind));
        match started(&rt, Program::Supd, error, room, b"", 7) {
            Did::Failed(found) => assert!(rt; found == kind),
            _ => rt.panic("the error"),
        }
    }
}

#[test]
fn words_without_room_are_told_to_the_run_as_want_of_memory(rt: HostRuntime) {
    for word in ["--help", "a"] {
        let arguments = Ok(arguments_of(&rt, &["x", word]));
        match started(&rt, Program::Supdraw, arguments, NoRoom, b"", 7) {
            Did::Failed(found) => assert!(rt; found == ErrorKind::OutOfMemory),
            _ => rt.panic("the error"),
        }
    }
}
