//! Plays the runs of the program that lie in `data/`, and prints for each whether it went as its
//! files say.
//!
//! `cases` lists their names, one a line. The folder of that name has the files of the run: `args`,
//! the words of the command line, one a line; `stdin`; and what has to come of them: `status`,
//! `stdout` and `stderr`. Where `clap` words why the words are refused, `stderr` is `usage`. One of
//! `stdin`, `stdout` and `stderr` that isn't there is empty.
#![tactic(auto)]

ghost use Rattle.std.specs.Io.KnownBytes.{Appends};
ghost use Rattle.std.specs.Prelude.{IfOk, OnOk};
ghost use Rattle.sup_rows.specs.Outcomes.{TellsOutcome, difference_text, part_of};
ghost use Rattle.sup_rows.specs.Plays.{JudgesCase};

mod case;
mod outcome;

use case::Case;
use outcome::{Difference, Outcome};
use std::alloc::Global;
use std::fs;
use std::io::{self, Write};
use std::process::ExitCode;
use std::sync::Wait;
use std::thread::Threads;

fn main(rt: HostRuntime) -> io::Result<ExitCode> {
    let names = fs::read_to_string(&rt, "cases")?;
    let mut status = ExitCode::SUCCESS;
    for name in names.lines() {
        let case = Case::read(&rt, name)?;
        if !goes_well(&rt, rt.alloc(), name, case, &mut rt.stdout())? {
            status = ExitCode::FAILURE;
        }
    }
    Ok(status)
}

// Plays a case, and tells how it went.
fn goes_well<T: Threads + Wait + Sync, W: Write>(
    rt: &T,
    alloc: Global,
    name: &str,
    case: Case,
    writer: &mut W,
) -> io::Result<bool>
    ensures { IfOk result (JudgesCase name.now case (W.contents writer.old) (W.contents writer.new)) }
{
    let Case { given, wanted } = case;
    let came = given.play(rt, alloc)?;
    tell(name, &wanted, &came, writer)
}

// Tells how a case went of which this was wanted and that came, and whether these are the same.
fn tell<W: Write>(name: &str, wanted: &Outcome, came: &Outcome, writer: &mut W) -> io::Result<bool>
    ensures { IfOk result (TellsOutcome name.now wanted.now came.now (W.contents writer.old) (W.contents writer.new)) }
{
    let Some(difference) = wanted.difference(came) else {
        writeln!(writer, "{name} ok")?;
        return Ok(true);
    };
    tell_difference(name, difference, writer)?;
    Ok(false)
}

// Tells in which part a case differs, and how.
fn tell_difference<W: Write>(
    name: &str,
    difference: Difference<'_>,
    writer: &mut W,
) -> io::Result<()>
    ensures { OnOk result (Appends (W.contents writer.old) (W.contents writer.new) (difference_text name.now (part_of difference.entry))) }
{
    let Difference { part, wanted, came } = difference;
    writer.write_all(name.as_bytes())?;
    writer.write_all(b" differs in ")?;
    writer.write_all(part.as_bytes())?;
    writer.write_all(b", wanted:\n")?;
    writer.write_all(wanted)?;
    writer.write_all(b"came:\n")?;
    writer.write_all(came)?;
    Ok(())
}
