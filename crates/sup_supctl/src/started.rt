//! The program's run, from its arguments to its exit code.

ghost use Rattle.std.specs.Process.{exit_status};
ghost use Rattle.sup_program.specs.Runs.{ExitsBy};
ghost use Rattle.sup_supctl.specs.Started.{RunsStarted};

use crate::words::{run_with, words_of};
use std::alloc::Global;
use std::env::Args;
use std::io::{self, Read, Write};
use std::process::ExitCode;
use std::sync::Wait;
use std::thread::Threads;
use sup_jobs::{DeviceFault, Ended};

/// Runs the program with the words behind its name, the first of its arguments, or tells why they can't be had, and ends with that
/// status. Beside it: whether the error writer took all that it was told.
pub fn run_started<T: Threads + Wait + Sync, R: Read, W: Write, E: Write>(
    rt: &T,
    alloc: Global,
    arguments: io::Result<Args>,
    reader: &mut R,
    writer: &mut W,
    errors: &mut E,
) -> (ExitCode, Result<(), DeviceFault>)
    ensures { ExitsBy (exit_status result.0) result.1 (RunsStarted R.remaining W.contents E.contents arguments reader.old reader.new
        writer.old writer.new errors.old errors.new) }
{
    let ended = run_behind_name(rt, alloc, arguments, reader, writer, errors);
    (ExitCode::from(ended.status), ended.told)
}

fn run_behind_name<T: Threads + Wait + Sync, R: Read, W: Write, E: Write>(
    rt: &T,
    alloc: Global,
    arguments: io::Result<Args>,
    reader: &mut R,
    writer: &mut W,
    errors: &mut E,
) -> Ended
    ensures { RunsStarted R.remaining W.contents E.contents arguments reader.old reader.new
        writer.old writer.new errors.old errors.new result }
{
    let words = words_of(alloc, arguments);
    run_with(rt, alloc, words, reader, writer, errors)
}
