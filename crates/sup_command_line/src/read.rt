//! From words to what they ask for.

ghost use Rattle.std.specs.Prelude.{◌≡◌, ◌≢◌, ◌↔◌, [], IfOk, IfErr, IsTrue, OnOk, map, option_map, codes, string_bytes};
ghost use Rattle.clap.specs.Words.{fault_of, found_of, kind_of, rows_of, subcommand_of, subcommand_rows_of};
ghost use Rattle.sup_command_line.specs.BadOptions.{bad_option_of, bad_value_text, bad_word, bad_word_text};
ghost use Rattle.sup_command_line.specs.Requests.{ReadsTo, clustering_in, inspection_in, placing_in, request_in, request_of, simulation_in};
ghost use Rattle.sup_command_line.specs.Words.{supctl_app};

use crate::commands::supctl;
use crate::options::{BadOption, bad_option_in, config_in, weighing_in};
use crate::request::Request;
use clap::error::ErrorKind;
use clap::{ArgMatches, Error};
use std::alloc::{AllocError, Global};
use std::convert::AsStr;

/// What the words after the program's name ask for.
///
/// # Errors
///
/// An error of `clap`, with its text, where memory was refused ([`is_want_of_memory`]), or where they ask for nothing: no
/// command or an unknown one, an option that the command doesn't have or that is given twice, a word that is no value of its
/// option, and the wish for help.
#[tactic(auto, unfolding(crate::specs::Requests::request_of), using(crate::proofs::Requests::with_fault, crate::proofs::Requests::without_request))]
pub fn read_words<S: AsStr>(alloc: Global, words: &[S]) -> Result<Request, Error>
    ensures { ReadsTo (request_of (map S.text words.now)) result }
{
    let matches = matches_of(alloc, words)?;
    match request_in(&matches) {
        Some(request) => Ok(request),
        None => Err(bad_value(alloc, &matches)?),
    }
}

/// Whether memory was refused, and nothing said of the words.
pub fn is_want_of_memory(error: &Error) -> bool
    ensures { IsTrue result ↔ (kind_of error.now ≡ ErrorKind.OutOfMemory) }
{
    error.kind() == ErrorKind::OutOfMemory
}

#[tactic(auto, unfolding(crate::specs::Words::supctl_app, crate::specs::Words::script_commands, crate::specs::Words::simulate_command, crate::specs::Words::cluster_command, crate::specs::Words::place_command, crate::specs::Words::inspect_command))]
fn matches_of<'a, S: AsStr>(alloc: Global, words: &'a [S]) -> Result<ArgMatches<'a>, Error>
    ensures found { IfOk result (λ m. subcommand_rows_of m
        ≡ subcommand_of supctl_app (map S.text words.entry.now)) }
    ensures taken { OnOk result (fault_of supctl_app (map S.text words.entry.now) ≡ []) }
    ensures refused { IfErr result (λ e. kind_of e ≢ ErrorKind.OutOfMemory
        → fault_of supctl_app (map S.text words.entry.now) ≢ []) }
{
    supctl(alloc)?.try_get_matches_from(words)
}

// `clap` takes any text for a value, so that this is told apart.
fn bad_value(alloc: Global, matches: &ArgMatches<'_>) -> Result<Error, AllocError>
    ensures { IfOk result (λ e. kind_of e ≡ ErrorKind.InvalidValue) }
{
    let mut command = supctl(alloc)?;
    let message = bad_value_text(alloc, matches)?;
    command.error(ErrorKind::InvalidValue, message.as_str())
}

// Which option has a value that it doesn't take, and which it takes.
fn bad_value_text(alloc: Global, matches: &ArgMatches<'_>) -> Result<String, AllocError>
    ensures { IfOk result (λ text. string_bytes text
        ≡ bad_value_text (bad_option_of (subcommand_rows_of matches.now))) }
{
    match bad_option_of(matches) {
        Some(bad) => bad_word_text(alloc, bad),
        None => String::from_str(alloc, "invalid value for an option"),
    }
}

fn bad_word_text(alloc: Global, bad: BadOption<'_>) -> Result<String, AllocError>
    ensures { IfOk result (λ text. string_bytes text ≡ bad_word_text (bad_word bad.entry)) }
{
    let BadOption { name, values, word } = bad;
    format!(in alloc; "invalid value '{word}' for '--{name} <{values}>'")
}

fn bad_option_of<'a>(matches: &ArgMatches<'a>) -> Option<BadOption<'a>>
    ensures { option_map bad_word result ≡ bad_option_of (subcommand_rows_of matches.now) }
{
    let (_, options) = command_in(matches)?;
    bad_option_in(options)
}

// None where an option has a value that it doesn't take.
#[tactic(auto, unfolding(crate::specs::Requests::request_in))]
fn request_in(matches: &ArgMatches<'_>) -> Option<Request>
    ensures { result ≡ request_in (subcommand_rows_of matches.now) }
{
    let (name, options) = command_in(matches)?;
    match name {
        "simulate" => simulation_in(options),
        "cluster" => clustering_in(options),
        "place" => placing_in(options),
        "inspect" => inspection_in(options),
        _ => None,
    }
}

fn command_in<'m, 'a>(matches: &'m ArgMatches<'a>) -> Option<(&'a str, &'m ArgMatches<'a>)>
    ensures { option_map (λ p. (p.0.now, rows_of (found_of p.1.now))) result
        ≡ subcommand_rows_of matches.entry.now }
{
    matches.subcommand()
}

#[tactic(auto, unfolding(crate::specs::Requests::simulation_in))]
fn simulation_in(options: &ArgMatches<'_>) -> Option<Request>
    ensures { result ≡ simulation_in (rows_of (found_of options.now)) }
{
    let weighing = weighing_in(options)?;
    let config = config_in(options)?;
    Some(Request::Simulate { weighing, config })
}

#[tactic(auto, unfolding(crate::specs::Requests::clustering_in))]
fn clustering_in(options: &ArgMatches<'_>) -> Option<Request>
    ensures { result ≡ clustering_in (rows_of (found_of options.now)) }
{
    let weighing = weighing_in(options)?;
    let config = config_in(options)?;
    Some(Request::Cluster { weighing, config })
}

#[tactic(auto, unfolding(crate::specs::Requests::placing_in))]
fn placing_in(options: &ArgMatches<'_>) -> Option<Request>
    ensures { result ≡ placing_in (rows_of (found_of options.now)) }
{
    let weighing = weighing_in(options)?;
    Some(Request::Place { weighing })
}

#[tactic(auto, unfolding(crate::specs::Requests::inspection_in))]
fn inspection_in(options: &ArgMatches<'_>) -> Option<Request>
    ensures { result ≡ inspection_in (rows_of (found_of options.now)) }
{
    let weighing = weighing_in(options)?;
    Some(Request::Inspect { weighing })
}
