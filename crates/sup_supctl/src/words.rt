//! The words that the program was started with.

ghost use Rattle.std.specs.Prelude.{◌≡◌, ◌≢◌, drop, IfErr, IfOk, map, string_bytes};
ghost use Rattle.std.specs.IoError.{error_kind};
ghost use Rattle.std.specs.Vec.Iter.{into_iter_items};
ghost use Rattle.sup_program.specs.PerformedRequests.{TellsUsage, WantsMemory};
ghost use Rattle.sup_supctl.specs.Runs.{no_text_line, RunsAll, RunsWithout};

use crate::run::run;
use std::alloc::Global;
use std::env::Args;
use std::io::{self, ErrorKind, Read, Write};
use std::sync::Wait;
use std::thread::Threads;
use sup_jobs::{Ended, put_all};
use sup_program::run::{USAGE, want_of_memory};

/// The words after the program's name, which is the first of its arguments.
///
/// # Errors
///
/// That of the arguments, or `ErrorKind::OutOfMemory` where memory was refused to the words.
pub fn words_of(alloc: Global, arguments: io::Result<Args>) -> io::Result<Vec<String>>
    ensures words { IfOk arguments (λ given. IfOk result (λ words. words.items ≡ drop 1 (into_iter_items given))) }
    ensures memory { IfOk arguments (λ _. IfErr result (λ error. error_kind error ≡ ErrorKind.OutOfMemory)) }
    ensures error { IfErr arguments (λ error. result ≡ Err error) }
{
    let given = arguments?;
    let words = given.skip(1).collect(alloc)?;
    Ok(words)
}

/// Runs the program with the words after its name, or tells why they can't be had. Answers as `run` does, or with status 3 where
/// memory for the words was refused, or else `USAGE`.
pub fn run_with<T: Threads + Wait + Sync, R: Read, W: Write, E: Write>(
    rt: &T,
    alloc: Global,
    words: io::Result<Vec<String>>,
    reader: &mut R,
    writer: &mut W,
    errors: &mut E,
) -> Ended
    ensures runs { IfOk words (λ given. RunsAll R.remaining W.contents E.contents (map string_bytes given.items)
        reader.old reader.new writer.old writer.new errors.old errors.new result) }
    ensures without { IfErr words (λ error. RunsWithout R.remaining W.contents E.contents error
        reader.old reader.new writer.old writer.new errors.old errors.new result) }
{
    match words {
        Ok(words) => run(rt, alloc, words.as_slice(), reader, writer, errors),
        Err(error) => without_words(&error, errors),
    }
}

// Words that are no text are refused as words that are no command. Want of memory is told as such.
fn without_words<E: Write>(error: &io::Error, errors: &mut E) -> Ended
    ensures usage { error_kind error.now ≢ ErrorKind.OutOfMemory
        → TellsUsage no_text_line (E.contents errors.old) (E.contents errors.new) result }
    ensures memory { error_kind error.now ≡ ErrorKind.OutOfMemory
        → WantsMemory (E.contents errors.old) (E.contents errors.new) result }
{
    if error.kind() == ErrorKind::OutOfMemory {
        return want_of_memory(errors);
    }
    Ended {
        status: USAGE,
        told: put_all(
            errors,
            b"error: invalid UTF-8 was detected in one or more arguments\n",
        ),
    }
}
