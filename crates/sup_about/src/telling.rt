//! A program answers what it is asked about itself.

ghost use Rattle.std.specs.Prelude.{◌≡◌, IfErr, IfOk};
ghost use Rattle.sup_about.specs.Answers.{Answers, IsPut};
ghost use Rattle.sup_about.specs.Versions.{version_text};
ghost use Rattle.sup_jobs.specs.Tells.{Tells};

use crate::asked::{Asked, Program};
use crate::beside::Beside;
use crate::help::{command_help, program_help};
use crate::version::version_text;
use std::alloc::Global;
use std::io::Write;
use sup_jobs::{Ended, Fault, finish, put_all};

/// Writes the answer, and answers how that ended: with status 0, or as of any output that fails. What stands beside the program is looked
/// at for its version alone.
pub fn tell<B: Beside, W: Write, E: Write>(
    alloc: Global,
    program: Program,
    asked: Asked,
    beside: B,
    writer: &mut W,
    errors: &mut E,
) -> Ended
    ensures { Answers (B.may_be beside) program asked (W.contents writer.old) (W.contents writer.new)
        (E.contents errors.old) (E.contents errors.new) result }
{
    match asked {
        Asked::Help => put(program_help(program).as_bytes(), writer, errors),
        Asked::HelpOf(command) => put(command_help(command).as_bytes(), writer, errors),
        Asked::Version => tell_version(alloc, program, beside, writer, errors),
    }
}

fn tell_version<B: Beside, W: Write, E: Write>(
    alloc: Global,
    program: Program,
    beside: B,
    writer: &mut W,
    errors: &mut E,
) -> Ended
    ensures { Answers (B.may_be beside) program Asked.Version (W.contents writer.old) (W.contents writer.new)
        (E.contents errors.old) (E.contents errors.new) result }
{
    match beside.find(alloc) {
        Some(found) => put(
            version_text(program, Some(found.as_slice())),
            writer,
            errors,
        ),
        None => put(version_text(program, None), writer, errors),
    }
}

fn put<W: Write, E: Write>(text: &[u8], writer: &mut W, errors: &mut E) -> Ended
    ensures { IsPut text.now (W.contents writer.old) (W.contents writer.new)
        (E.contents errors.old) (E.contents errors.new) result }
{
    let end = put_whole(text, writer);
    finish(errors, end)
}

fn put_whole<W: Write>(text: &[u8], writer: &mut W) -> Result<(), Fault>
    ensures puts { Tells result (W.contents writer.old) (W.contents writer.new) text.now }
    ensures device { IfErr result (λ fault. fault ≡ Fault.Device) }
{
    put_all(writer, text)?;
    Ok(())
}
