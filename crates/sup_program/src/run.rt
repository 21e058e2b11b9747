//! The program's run, from its words and input to its output and status.

ghost use Rattle.std.specs.Prelude.{◌≡◌, ◌+◌, None, Some, map};
ghost use Rattle.sup_command_line.specs.Requests.{request_of};
ghost use Rattle.sup_jobs.specs.Ends.{TakesAtMost};
ghost use Rattle.sup_program.specs.PerformedRequests.{PerformsRequest, RefusesWords, WantsMemory};
ghost use Rattle.sup_program.specs.Runs.{IfCluster, IfDone, RunsWords};

use crate::simulate::simulate;
use clap::Error;
use std::alloc::Global;
use std::convert::AsStr;
use std::io::{Read, Write};
use sup_command_line::{Request, Weighing, is_want_of_memory, read_words};
use sup_inspecting::inspect_image;
use sup_jobs::{Ended, Fault, LIMIT, finish, put_all};
use sup_placement::{FlatWeigh, Sha256Weigh};
use sup_placing::place_children;
use sup_replica::Config;

/// The exit status where the words are refused.
pub const USAGE: u8 = 2;

/// What is set for a cluster that runs by threads.
#[derive(Clone, Copy, Debug, PartialEq, Eq)]
pub struct Options {
    /// How its nodes weigh members.
    pub weigh: Weighing,
    /// What is set for each of its nodes.
    pub config: Config,
}

/// How a run ended that waits for nobody.
#[derive(Clone, Copy, Debug, PartialEq, Eq)]
pub enum Ran {
    /// It is done, and ended so.
    Done(Ended),
    /// It is still to be done: the words ask for a cluster with these options, which only threads can run.
    Cluster(Options),
}

/// Runs the commands that wait for nobody, and answers how that ended: with exit status 0, or 1 where the input is bad, `USAGE` where
/// the words are refused, and 3 where the device or memory ended it, and whether the error writer took all that it was told; or that the
/// words ask for a cluster, with nothing read or written. The words are those after the program's name.
pub fn run_plain<S: AsStr, R: Read, W: Write, E: Write>(
    alloc: Global,
    words: &[S],
    reader: &mut R,
    writer: &mut W,
    errors: &mut E,
) -> Ran
    ensures done { IfDone result (RunsWords R.remaining W.contents E.contents (map S.text words.now) reader.old reader.new
        writer.old writer.new errors.old errors.new) }
    ensures asked { IfCluster result (λ o. request_of (map S.text words.now) ≡ Some (Request.Cluster o.weigh o.config)) }
    ensures unread { IfCluster result (λ _. reader.new ≡ reader.old) }
    ensures unwritten { IfCluster result (λ _. writer.new ≡ writer.old) }
    ensures untold { IfCluster result (λ _. errors.new ≡ errors.old) }
{
    match read_words(alloc, words) {
        Ok(request) => perform(alloc, request, reader, writer, errors),
        Err(error) if is_want_of_memory(&error) => Ran::Done(want_of_memory(errors)),
        Err(error) => Ran::Done(refuse(alloc, &error, errors)),
    }
}

// Does what is asked for, if that waits for nobody.
fn perform<R: Read, W: Write, E: Write>(
    alloc: Global,
    request: Request,
    reader: &mut R,
    writer: &mut W,
    errors: &mut E,
) -> Ran
    ensures done { IfDone result (PerformsRequest (Some request) (R.remaining reader.old) (R.remaining reader.new)
        (W.contents writer.old) (W.contents writer.new) (E.contents errors.old) (E.contents errors.new)) }
    ensures taken { TakesAtMost (LIMIT + 1) (R.remaining reader.old) (R.remaining reader.new) }
    ensures asked { IfCluster result (λ o. request ≡ Request.Cluster o.weigh o.config) }
    ensures unread { IfCluster result (λ _. reader.new ≡ reader.old) }
    ensures unwritten { IfCluster result (λ _. writer.new ≡ writer.old) }
    ensures untold { IfCluster result (λ _. errors.new ≡ errors.old) }
{
    match request {
        Request::Simulate { weighing, config } => {
            Ran::Done(simulate_by(alloc, weighing, config, reader, writer, errors))
        }
        Request::Cluster {
            weighing: weigh,
            config,
        } => Ran::Cluster(Options { weigh, config }),
        Request::Place { weighing } => {
            Ran::Done(place_by(alloc, weighing, reader, writer, errors))
        }
        Request::Inspect { weighing } => {
            Ran::Done(inspect_by(alloc, weighing, reader, writer, errors))
        }
    }
}

// Runs a script, with the weights that are asked for.
fn simulate_by<R: Read, W: Write, E: Write>(
    alloc: Global,
    weighing: Weighing,
    config: Config,
    reader: &mut R,
    writer: &mut W,
    errors: &mut E,
) -> Ended
    ensures performs { PerformsRequest (Some (Request.Simulate weighing config)) (R.remaining reader.old) (R.remaining reader.new)
        (W.contents writer.old) (W.contents writer.new) (E.contents errors.old) (E.contents errors.new) result }
    ensures taken { TakesAtMost (LIMIT + 1) (R.remaining reader.old) (R.remaining reader.new) }
{
    match weighing {
        Weighing::Sha256 => simulate(alloc, &Sha256Weigh, config, reader, writer, errors),
        Weighing::Flat => simulate(alloc, &FlatWeigh, config, reader, writer, errors),
    }
}

// Places children, with the weights that are asked for.
fn place_by<R: Read, W: Write, E: Write>(
    alloc: Global,
    weighing: Weighing,
    reader: &mut R,
    writer: &mut W,
    errors: &mut E,
) -> Ended
    ensures performs { PerformsRequest (Some (Request.Place weighing)) (R.remaining reader.old) (R.remaining reader.new)
        (W.contents writer.old) (W.contents writer.new) (E.contents errors.old) (E.contents errors.new) result }
    ensures taken { TakesAtMost (LIMIT + 1) (R.remaining reader.old) (R.remaining reader.new) }
{
    match weighing {
        Weighing::Sha256 => place_children(alloc, &Sha256Weigh, reader, writer, errors),
        Weighing::Flat => place_children(alloc, &FlatWeigh, reader, writer, errors),
    }
}

// Tells what a stored image says, with the weights that are asked for.
fn inspect_by<R: Read, W: Write, E: Write>(
    alloc: Global,
    weighing: Weighing,
    reader: &mut R,
    writer: &mut W,
    errors: &mut E,
) -> Ended
    ensures performs { PerformsRequest (Some (Request.Inspect weighing)) (R.remaining reader.old) (R.remaining reader.new)
        (W.contents writer.old) (W.contents writer.new) (E.contents errors.old) (E.contents errors.new) result }
    ensures taken { TakesAtMost (LIMIT + 1) (R.remaining reader.old) (R.remaining reader.new) }
{
    match weighing {
        Weighing::Sha256 => inspect_image(alloc, &Sha256Weigh, reader, writer, errors),
        Weighing::Flat => inspect_image(alloc, &FlatWeigh, reader, writer, errors),
    }
}

// Tells why the words are refused, or that memory was.
fn refuse<E: Write>(alloc: Global, error: &Error, errors: &mut E) -> Ended
    ensures { RefusesWords (E.contents errors.old) (E.contents errors.new) result }
{
    match format!(in alloc; "{error}") {
        Ok(text) => Ended {
            status: USAGE,
            told: put_all(errors, text.as_bytes()),
        },
        Err(_) => want_of_memory(errors),
    }
}

/// Tells that memory was refused, and answers that end, with status 3.
pub fn want_of_memory<E: Write>(errors: &mut E) -> Ended
    ensures { WantsMemory (E.contents errors.old) (E.contents errors.new) result }
{
    finish(errors, Err(Fault::OutOfMemory))
}
