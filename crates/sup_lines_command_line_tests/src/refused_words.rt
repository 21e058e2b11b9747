//! Words that ask for nothing.

use clap::error::ErrorKind;
use std::alloc::Global;
use std::process::Abort;
use std::test::Fail;
use sup_command_line::{is_want_of_memory, read_words};

fn check_refused(rt: &impl Abort, alloc: Global, words: &[&str], kind: ErrorKind) {
    match read_words(alloc, words) {
        Ok(_) => assert!(rt; false),
        Err(error) => {
            assert!(rt; error.kind() == kind);
            assert!(rt; !is_want_of_memory(&error));
        }
    }
}

#[test]
fn words_that_no_command_takes_are_refused(rt: HostRuntime) {
    let cases: [(&[&str], ErrorKind); 22] = [
        (&[], ErrorKind::MissingSubcommand),
        (&["simulated"], ErrorKind::InvalidSubcommand),
        (&["--weigh", "flat", "simulate"], ErrorKind::UnknownArgument),
        (&["simulate", "place"], ErrorKind::UnknownArgument),
        (&["clusters"], ErrorKind::InvalidSubcommand),
        (&["cluster", "place"], ErrorKind::UnknownArgument),
        (&["cluster", "--help"], ErrorKind::DisplayHelp),
        (&["--help"], ErrorKind::DisplayHelp),
        (&["place", "--help"], ErrorKind::DisplayHelp),
        (&["inspect", "--help"], ErrorKind::DisplayHelp),
        (&["inspect", "a"], ErrorKind::UnknownArgument),
        (&["inspect", "--intensity", "3"], ErrorKind::UnknownArgument),
        (&["inspect", "--period", "3"], ErrorKind::UnknownArgument),
        (&["inspect", "--buffer", "3"], ErrorKind::UnknownArgument),
        (
            &["inspect", "--weigh", "flat", "--weigh=flat"],
            ErrorKind::ArgumentConflict,
        ),
        (&["place", "--intensity", "3"], ErrorKind::UnknownArgument),
        (&["place", "--period", "3"], ErrorKind::UnknownArgument),
        (&["place", "--buffer", "3"], ErrorKind::UnknownArgument),
        (
            &["place", "--weigh", "flat", "--weigh=flat"],
            ErrorKind::ArgumentConflict,
        ),
        (
            &["simulate", "--intensity", "-1"],
            ErrorKind::UnknownArgument,
        ),
        (&["simulate", "--buffer"], ErrorKind::InvalidValue),
        (&["simulate", "-b", "3"], ErrorKind::UnknownArgument),
    ];
    for (words, kind) in cases {
        check_refused(&rt, rt.alloc(), words, kind);
    }
}

#[test]
fn a_number_is_given_once_at_most(rt: HostRuntime) {
    for option in ["--intensity", "--period", "--buffer"] {
        let words = ["simulate", option, "3", option, "3"];
        check_refused(&rt, rt.alloc(), &words, ErrorKind::ArgumentConflict);
    }
}

#[test]
fn a_value_that_an_option_does_not_take_is_refused(rt: HostRuntime) {
    let cases = [
        ["simulate", "--weigh", "x"],
        ["simulate", "--weigh", ""],
        ["simulate", "--weigh", "Flat"],
        ["place", "--weigh", "sha-256"],
        ["place", "--weigh", "sha256 "],
        ["inspect", "--weigh", "x"],
        ["cluster", "--weigh", "x"],
        ["cluster", "--intensity", "1001"],
        ["cluster", "--period", "0"],
        ["cluster", "--buffer", "0"],
        ["simulate", "--intensity", "1001"],
        ["simulate", "--intensity", "65536"],
        ["simulate", "--period", "0"],
        ["simulate", "--period", "1000001"],
        ["simulate", "--period", "4294967297"],
        ["simulate", "--buffer", "0"],
        ["simulate", "--buffer", "1025"],
        ["simulate", "--buffer", "65537"],
        ["simulate", "--buffer", "18446744073709551617"],
    ];
    for words in &cases {
        check_refused(&rt, rt.alloc(), words, ErrorKind::InvalidValue);
    }
}

#[test]
fn what_is_no_number_is_refused(rt: HostRuntime) {
    for option in ["--intensity", "--period", "--buffer"] {
        for word in [
            "++5", "+", "+-5", "", "5 ", " 5", "5.0", "1e1", "five", "0x5",
        ] {
            let words = ["simulate", option, word];
            check_refused(&rt, rt.alloc(), &words, ErrorKind::InvalidValue);
        }
    }
}

fn check_told(rt: &impl Abort, alloc: Global, words: &[&str], wanted: &str) -> Result<(), Fail> {
    if let Err(error) = read_words(alloc, words) {
        let told = format!(in alloc; "{error}")?;
        assert!(rt; told.as_str().contains(wanted), "{told}");
        return Ok(());
    }
    assert!(rt; false);
    Ok(())
}

#[test]
fn what_is_wrong_with_words_is_told_by_its_name(rt: HostRuntime) -> Result<(), Fail> {
    let cases: [(&[&str], &str); 7] = [
        (
            &["simulate", "--weigh", "x"],
            "invalid value 'x' for '--weigh <sha256|flat>'",
        ),
        (
            &["place", "--weigh", "x"],
            "invalid value 'x' for '--weigh <sha256|flat>'",
        ),
        (
            &["simulate", "--intensity", "1001"],
            "invalid value '1001' for '--intensity <0 to 1000>'",
        ),
        (
            &["simulate", "--period", "0"],
            "invalid value '0' for '--period <1 to 1000000>'",
        ),
        (
            &["simulate", "--buffer", "0"],
            "invalid value '0' for '--buffer <1 to 1024>'",
        ),
        (&["place", "--buffer", "4"], "'--buffer'"),
        (&["simulated"], "'simulated'"),
    ];
    for (words, wanted) in cases {
        check_told(&rt, rt.alloc(), words, wanted)?;
    }
    Ok(())
}

#[test]
fn help_names_the_program_its_commands_and_their_options(rt: HostRuntime) -> Result<(), Fail> {
    let cases: [(&[&str], &str); 10] = [
        (&["--help"], "Usage: supctl <COMMAND>"),
        (&["--help"], "inspect"),
        (&["--help"], "cluster"),
        (&["cluster", "--help"], "Usage: supctl cluster [OPTIONS]"),
        (&["simulate", "--help"], "Usage: supctl simulate [OPTIONS]"),
        (&["place", "--help"], "Usage: supctl place [OPTIONS]"),
        (&["inspect", "--help"], "Usage: supctl inspect [OPTIONS]"),
        (&["simulate", "--help"], "0 to 1000 [default: 1]"),
        (&["simulate", "--help"], "1 to 1000000 [default: 5]"),
        (&["simulate", "--help"], "1 to 1024 [default: 64]"),
    ];
    for (words, wanted) in cases {
        check_told(&rt, rt.alloc(), words, wanted)?;
    }
    Ok(())
}
