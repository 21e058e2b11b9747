//! What a program answers, and how that ends.

use crate::fakes::{Full, Note};
use std::alloc::Global;
use std::process::Abort;
use sup_about::{Asked, Command, Program, tell};
use sup_jobs::Ended;

const PLACE_HELP: &[u8] = b"\
Prints the member on which each child that standard input names is placed

Usage: supctl place [OPTIONS]

Options:
      --weigh <sha256|flat>  How members are weighed for children: sha256 or flat [default: sha256]
  -h, --help                 Print help
";

const SUPDRAW_HELP: &[u8] = b"\
Draws the script on standard input, as a picture in SVG

Usage: supdraw < SCRIPT > FILE.svg

Options:
  -h, --help     Print help
      --version  Print the version, the kit, and whether this program is proved
";

const PROVED: &[u8] = b"supd 0.9.0, kit-1 of a test, proved\n";

const UNPROVED: &[u8] = b"supd 0.9.0, kit-1 of a test, not proved\n";

const UNTOLD: &[u8] = b"supd 0.9.0, not told whether proved: no supd.version stands beside it\n";

const NOTHING: Note<'static> = Note { line: None };

fn room(alloc: Global, room: usize) -> Full {
    Full {
        bytes: Vec::new(alloc),
        room,
    }
}

// Expects that the program answers this, with status 0.
fn expect_answer(
    rt: &(impl Abort + AllocGlobal),
    program: Program,
    asked: Asked,
    note: Note<'_>,
    answer: &[u8],
) {
    let alloc = rt.alloc();
    let mut written = Vec::new(alloc);
    let mut told = Vec::new(alloc);
    let ended = tell(alloc, program, asked, note, &mut written, &mut told);
    assert_eq!(rt; written.as_slice(), answer);
    assert!(rt; told.is_empty());
    assert!(rt; ended.status == 0 && ended.told.is_ok());
}

// The version of `supd`, with this line beside it.
fn expect_version(rt: &(impl Abort + AllocGlobal), line: &[u8], answer: &[u8]) {
    let note = Note { line: Some(line) };
    expect_answer(rt, Program::Supd, Asked::Version, note, answer);
}

#[test]
fn help_is_told_whole(rt: HostRuntime) {
    let place = Asked::HelpOf(Command::Place);
    expect_answer(&rt, Program::Supctl, place, NOTHING, PLACE_HELP);
    let supdraw = Program::Supdraw;
    expect_answer(&rt, supdraw, Asked::Help, NOTHING, SUPDRAW_HELP);
    let note = Note { line: Some(PROVED) };
    expect_answer(&rt, supdraw, Asked::Help, note, SUPDRAW_HELP);
}

#[test]
fn a_version_is_the_line_beside_the_program(rt: HostRuntime) {
    expect_version(&rt, PROVED, PROVED);
    expect_version(&rt, UNPROVED, UNPROVED);
}

#[test]
fn no_other_line_says_that_a_program_is_proved(rt: HostRuntime) {
    expect_answer(&rt, Program::Supd, Asked::Version, NOTHING, UNTOLD);
    expect_version(&rt, b"", UNTOLD);
    expect_version(&rt, b"supd 0.9.0, kit-1 of a test, proved", UNTOLD);
    expect_version(&rt, b"supd 0.9.0, kit-1 of a test, proved\n\n", UNTOLD);
    expect_version(&rt, b"supd 0.9.1, kit-1 of a test, proved\n", UNTOLD);
    expect_version(&rt, b"supctl 0.9.0, kit-1 of a test, proved\n", UNTOLD);
    expect_version(&rt, b"supd 0.9.0\n", UNTOLD);
}

#[test]
fn an_answer_that_is_cut_ends_as_a_device_that_fails(rt: HostRuntime) {
    let alloc = rt.alloc();
    let mut written = room(alloc, 10);
    let mut told = Vec::new(alloc);
    let Ended { status, told: went } = tell(
        alloc,
        Program::Supdraw,
        Asked::Help,
        NOTHING,
        &mut written,
        &mut told,
    );
    assert_eq!(rt; written.bytes.as_slice(), b"Draws the ".as_slice());
    assert_eq!(rt; told.as_slice(), b"device\n".as_slice());
    assert!(rt; status == 3 && went.is_ok());
}

#[test]
fn an_error_device_that_fails_too_changes_no_status(rt: HostRuntime) {
    let alloc = rt.alloc();
    let mut written = room(alloc, 0);
    let mut told = room(alloc, 3);
    let Ended { status, told: went } = tell(
        alloc,
        Program::Supd,
        Asked::Version,
        NOTHING,
        &mut written,
        &mut told,
    );
    assert!(rt; written.bytes.is_empty());
    assert_eq!(rt; told.bytes.as_slice(), b"dev".as_slice());
    assert!(rt; status == 3 && went.is_err());
}
