//! A program's run, which first looks whether it is asked about itself.

ghost use Rattle.std.specs.Prelude.{◌≡◌, ℕ, List};
ghost use Rattle.std.specs.Process.{exit_status};
ghost use Rattle.sup_about.specs.Answers.{IsAnswer, IsPut};
ghost use Rattle.sup_about.specs.Starts.{RunsAsking};

use crate::asked::{Asked, asked_in};
use crate::beside::Beside;
use crate::room::Room;
use crate::start::Start;
use crate::telling::tell;
use std::alloc::Global;
use std::env::Args;
use std::io::{self, ErrorKind, Write};
use std::process::ExitCode;
use sup_jobs::Ended;

/// How a program exits.
#[derive(Drop)]
pub struct Exit<L: Drop> {
    /// Its status.
    pub code: ExitCode,
    /// The same, and whether the error writer took all that it was told.
    pub ended: Ended,
    /// What is left of the program and of its streams.
    pub left: L,
}

/// Answers what the arguments ask about the program, or runs it with them. Want of memory for the words is told by its run. What stands
/// beside the program is looked at for its version alone.
pub fn run_asking<S: Start<R, W, E>, M: Room, B: Beside, R, W: Write, E: Write>(
    alloc: Global,
    start: S,
    arguments: io::Result<Args>,
    room: M,
    beside: B,
    reader: R,
    writer: W,
    errors: &mut E,
) -> Exit<S::Left>
    requires { S.may_run start }
    ensures code { exit_status result.code ≡ result.ended.status }
    ensures asking { RunsAsking (M.may_lack room)
        (λ error. S.fails start error reader writer errors.old errors.new (result.ended, result.left))
        (λ words. S.runs start words reader writer errors.old errors.new (result.ended, result.left))
        (λ asked. (text : List ℕ) × IsAnswer (B.may_be beside) (S.program start) asked text
        × (written : W) × S.rests start reader written result.left
        × IsPut text (W.contents writer) (W.contents written) (E.contents errors.old) (E.contents errors.new) result.ended)
        (S.program start) arguments }
{
    let (ended, left) = run_looking(
        alloc, start, arguments, room, beside, reader, writer, errors,
    );
    Exit {
        code: ExitCode::from(ended.status),
        ended,
        left,
    }
}

fn run_looking<S: Start<R, W, E>, M: Room, B: Beside, R, W: Write, E: Write>(
    alloc: Global,
    start: S,
    arguments: io::Result<Args>,
    room: M,
    beside: B,
    reader: R,
    writer: W,
    errors: &mut E,
) -> (Ended, S::Left)
    requires { S.may_run start }
    ensures { RunsAsking (M.may_lack room)
        (λ error. S.fails start error reader writer errors.old errors.new result)
        (λ words. S.runs start words reader writer errors.old errors.new result)
        (λ asked. (text : List ℕ) × IsAnswer (B.may_be beside) (S.program start) asked text
        × (written : W) × S.rests start reader written result.1
        × IsPut text (W.contents writer) (W.contents written) (E.contents errors.old) (E.contents errors.new) result.0)
        (S.program start) arguments }
{
    let words = match arguments {
        Ok(arguments) => room.words_of(arguments),
        Err(error) => return start.run(alloc, Err(error), reader, writer, errors),
    };
    match words {
        Ok(words) => match asked_in(start.program(), words.as_slice()) {
            Some(asked) => answer(alloc, asked, start, beside, reader, writer, errors),
            None => start.run(alloc, Ok(words), reader, writer, errors),
        },
        Err(_) => {
            let error = io::Error::from(ErrorKind::OutOfMemory);
            start.run(alloc, Err(error), reader, writer, errors)
        }
    }
}

// Answers, and doesn't run.
fn answer<S: Start<R, W, E>, B: Beside, R, W: Write, E: Write>(
    alloc: Global,
    asked: Asked,
    start: S,
    beside: B,
    reader: R,
    writer: W,
    errors: &mut E,
) -> (Ended, S::Left)
    ensures { (text : List ℕ) × IsAnswer (B.may_be beside) (S.program start) asked text
        × (written : W) × S.rests start reader written result.1
        × IsPut text (W.contents writer) (W.contents written) (E.contents errors.old) (E.contents errors.new) result.0 }
{
    let mut writer = writer;
    let program = start.program();
    let ended = tell(alloc, program, asked, beside, &mut writer, errors);
    (ended, start.rest(reader, writer))
}
