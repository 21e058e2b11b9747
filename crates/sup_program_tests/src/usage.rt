//! Words that are refused: nothing is read or printed, and the error device is told why.
use crate::runs::{expect, expect_usage};
use std::process::Abort;
use std::sync::Wait;
use std::thread::Threads;

const HELP: &[u8] = b"\
A replicated supervisor: scripts over a cluster of nodes, runs by threads, placement, and stored images

Usage: supctl <COMMAND>

Commands:
  simulate  Runs the script on standard input, and prints what each of its lines is answered
  cluster   Runs the script on standard input by threads, and prints what its nodes know at the end
  place     Prints the member on which each child that standard input names is placed
  inspect   Prints what the image of a node on standard input tells, and begins no boot
  help      Print this message or the help of the given subcommand(s)

Options:
  -h, --help  Print help
";

const SIMULATE_HELP: &[u8] = b"\
Runs the script on standard input, and prints what each of its lines is answered

Usage: supctl simulate [OPTIONS]

Options:
      --weigh <sha256|flat>    How members are weighed for children: sha256 or flat [default: sha256]
      --intensity <0 to 1000>  How many restarts within a period a node bears, 0 to 1000 [default: 1]
      --period <1 to 1000000>  How many seconds a restart counts, 1 to 1000000 [default: 5]
      --buffer <1 to 1024>     How many of its newest changes a node keeps to send, 1 to 1024 [default: 64]
  -h, --help                   Print help
";

const PLACE_HELP: &[u8] = b"\
Prints the member on which each child that standard input names is placed

Usage: supctl place [OPTIONS]

Options:
      --weigh <sha256|flat>  How members are weighed for children: sha256 or flat [default: sha256]
  -h, --help                 Print help
";

const NO_COMMAND: &[u8] = b"\
error: 'supctl' requires a subcommand but one was not provided
  [subcommands: simulate, cluster, place, inspect, help]

Usage: supctl <COMMAND>

For more information, try '--help'.
";

const UNKNOWN_COMMAND: &[u8] = b"\
error: unrecognized subcommand 'simulated'

  tip: a similar subcommand exists: 'simulate'

Usage: supctl <COMMAND>

For more information, try '--help'.
";

const UNKNOWN_OPTION: &[u8] = b"\
error: unexpected argument '--buffer' found

Usage: supctl place [OPTIONS]

For more information, try '--help'.
";

const TWICE: &[u8] = b"\
error: the argument '--period <1 to 1000000>' cannot be used multiple times

Usage: supctl simulate [OPTIONS]

For more information, try '--help'.
";

const NO_VALUE: &[u8] = b"\
error: a value is required for '--weigh <sha256|flat>' but none was supplied

For more information, try '--help'.
";

const BAD_VALUE: &[u8] = b"\
error: invalid value '1025' for '--buffer <1 to 1024>'

Usage: supctl <COMMAND>

For more information, try '--help'.
";

// Expects that these words are refused with this text, the one that `clap` has for them.
fn expect_told(
    rt: &(impl Abort + Threads + Wait + Sync + AllocGlobal),
    words: &[&str],
    errors: &[u8],
) {
    expect_usage(rt, words, b"nodes a\nshow a\n");
    expect(rt, words, b"nodes a\nshow a\n", 2, b"", errors);
}

#[test]
fn help_is_told_whole(rt: HostRuntime) {
    expect_told(&rt, &["--help"], HELP);
    expect_told(&rt, &["-h"], HELP);
    expect_told(&rt, &["simulate", "--help"], SIMULATE_HELP);
    expect_told(&rt, &["place", "-h"], PLACE_HELP);
}

#[test]
fn what_is_wrong_with_words_is_told_whole(rt: HostRuntime) {
    expect_told(&rt, &[], NO_COMMAND);
    expect_told(&rt, &["simulated"], UNKNOWN_COMMAND);
    expect_told(&rt, &["place", "--buffer", "4"], UNKNOWN_OPTION);
    expect_told(&rt, &["simulate", "--period=1", "--period", "2"], TWICE);
    expect_told(&rt, &["cluster", "--weigh"], NO_VALUE);
    expect_told(&rt, &["cluster", "--buffer", "1025"], BAD_VALUE);
}

#[test]
fn there_are_four_commands(rt: HostRuntime) {
    for word in [
        "clusters",
        "inspected",
        "help",
        "supctl",
        "Simulate",
        "",
        "simulat",
        "show",
    ] {
        expect_usage(&rt, &[word], b"nodes a\nshow a\n");
    }
    for word in ["--help", "-h", "--version", "-V", "--weigh", "-"] {
        expect_usage(&rt, &[word], b"nodes a\nshow a\n");
        expect_usage(&rt, &["place", word], b"members a\nx\n");
        expect_usage(&rt, &["cluster", word], b"nodes a b\n");
        expect_usage(&rt, &["inspect", word], b"{");
    }
    for word in ["--help", "-h", "--version", "--weigh", "x", "simulate"] {
        expect_usage(&rt, &["simulate", word], b"nodes a\nshow a\n");
    }
}

#[test]
fn a_weigher_is_one_of_two_words(rt: HostRuntime) {
    for word in [
        "Flat",
        "FLAT",
        "sha",
        "sha1",
        "",
        "flat ",
        "sha256,flat",
        "0",
    ] {
        expect_usage(&rt, &["simulate", "--weigh", word], b"nodes a\nshow a\n");
        expect_usage(&rt, &["place", "--weigh", word], b"members a\nx\n");
        expect_usage(&rt, &["inspect", "--weigh", word], b"{");
    }
}

#[test]
fn an_option_stands_once_and_behind_its_command(rt: HostRuntime) {
    let input = b"nodes a\nshow a\n";
    expect_usage(
        &rt,
        &["simulate", "--weigh", "flat", "--weigh", "flat"],
        input,
    );
    expect_usage(&rt, &["simulate", "--buffer", "1", "--buffer=1"], input);
    expect_usage(&rt, &["simulate", "--period", "1", "--period", "2"], input);
    expect_usage(&rt, &["simulate", "--intensity=1", "--intensity=1"], input);
    expect_usage(&rt, &["--weigh", "flat", "simulate"], input);
    expect_usage(&rt, &["simulate", "--weigh", "flat", "x"], input);
    expect_usage(&rt, &["simulate", "--bound", "1"], input);
}

#[test]
fn a_placement_has_no_settings(rt: HostRuntime) {
    for option in ["--intensity", "--period", "--buffer"] {
        expect_usage(&rt, &["place", option, "1"], b"members a\nx\n");
    }
}

#[test]
fn settings_beyond_their_limits_are_refused(rt: HostRuntime) {
    for word in [
        "1001",
        "-1",
        "65536",
        "65537",
        "4294967297",
        "x",
        "",
        "1.0",
        "0x1",
        " 1",
    ] {
        expect_usage(&rt, &["simulate", "--intensity", word], b"nodes a\n");
    }
    for word in ["0", "1000001", "-1", "4294967297", "x", "", "1e3"] {
        expect_usage(&rt, &["simulate", "--period", word], b"nodes a\n");
    }
    for word in ["0", "1025", "-1", "65537", "4294967297", "x", ""] {
        expect_usage(&rt, &["simulate", "--buffer", word], b"nodes a\n");
    }
}
