//! The program's run, from its words and input to its output and status.

ghost use Rattle.std.specs.Prelude.{◌≡◌, ◌≢◌, [], IfErr, IfOk};
ghost use Rattle.std.specs.IoError.{error_kind};
ghost use Rattle.sup_placement.specs.Weights.{sha256_weight};
ghost use Rattle.sup_replica.specs.Configs.{default};
ghost use Rattle.sup_program.specs.PerformedRequests.{WantsMemory};
ghost use Rattle.sup_supdraw.specs.DrawnScripts.{DrawsTo, TellsUsage};
ghost use Rattle.sup_supdraw.specs.Runs.{RunsWithout, RunsWords};

use crate::script::draw;
use std::alloc::Global;
use std::io::{self, ErrorKind, Read, Write};
use sup_jobs::{Ended, put_all};
use sup_placement::Sha256Weigh;
use sup_program::run::want_of_memory;
use sup_replica::Config;

/// The exit status where there are words after the program's name, or they are no text.
pub const USAGE: u8 = 2;

/// Runs the program, which takes no words, and answers its exit status: 0, or 1 where the input is bad, `USAGE` where there are
/// words or they are no text, and 3 where the device or memory ended it, or memory for the words was refused. Members are weighed
/// by SHA-256, and the nodes have the default settings. Where the words end it, or memory for them, nothing is read or written. A
/// fault, or the usage, is told to the error writer; whether that took all of it is answered too.
pub fn run_with<R: Read, W: Write, E: Write>(
    alloc: Global,
    words: io::Result<Vec<String>>,
    reader: &mut R,
    writer: &mut W,
    errors: &mut E,
) -> Ended
    ensures runs { IfOk words (λ given. RunsWords R.remaining W.contents E.contents given.items
        reader.old reader.new writer.old writer.new errors.old errors.new result) }
    ensures without { IfErr words (λ error. RunsWithout R.remaining W.contents E.contents error
        reader.old reader.new writer.old writer.new errors.old errors.new result) }
{
    match words {
        Ok(words) => run(alloc, words.as_slice(), reader, writer, errors),
        Err(error) => without_words(&error, errors),
    }
}

// Runs the program with these words.
fn run<R: Read, W: Write, E: Write>(
    alloc: Global,
    words: &[String],
    reader: &mut R,
    writer: &mut W,
    errors: &mut E,
) -> Ended
    ensures draws { words.now ≡ [] → DrawsTo sha256_weight default (R.remaining reader.old) (R.remaining reader.new)
        (W.contents writer.old) (W.contents writer.new) (E.contents errors.old) (E.contents errors.new) result }
    ensures refuses { words.now ≢ [] → TellsUsage (E.contents errors.old) (E.contents errors.new) result }
    ensures unread { words.now ≢ [] → reader.new ≡ reader.old }
    ensures unwritten { words.now ≢ [] → writer.new ≡ writer.old }
{
    match words {
        [] => draw_plain(alloc, reader, writer, errors),
        [_, ..] => refuse(errors),
    }
}

// Draws with the default settings.
fn draw_plain<R: Read, W: Write, E: Write>(
    alloc: Global,
    reader: &mut R,
    writer: &mut W,
    errors: &mut E,
) -> Ended
    ensures { DrawsTo sha256_weight default (R.remaining reader.old) (R.remaining reader.new)
        (W.contents writer.old) (W.contents writer.new) (E.contents errors.old) (E.contents errors.new) result }
{
    draw(
        alloc,
        &Sha256Weigh,
        Config::default(),
        reader,
        writer,
        errors,
    )
}

// Words that are no text are refused as any words are. Want of memory is told as such.
fn without_words<E: Write>(error: &io::Error, errors: &mut E) -> Ended
    ensures usage { error_kind error.now ≢ ErrorKind.OutOfMemory
        → TellsUsage (E.contents errors.old) (E.contents errors.new) result }
    ensures memory { error_kind error.now ≡ ErrorKind.OutOfMemory
        → WantsMemory (E.contents errors.old) (E.contents errors.new) result }
{
    if error.kind() == ErrorKind::OutOfMemory {
        return want_of_memory(errors);
    }
    refuse(errors)
}

// Tells how the program is called.
fn refuse<E: Write>(errors: &mut E) -> Ended
    ensures { TellsUsage (E.contents errors.old) (E.contents errors.new) result }
{
    Ended {
        status: USAGE,
        told: put_all(errors, b"usage: supdraw < SCRIPT > FILE.svg\n"),
    }
}
