//! What a program can be asked about itself, and by which words.

ghost use Rattle.std.specs.Prelude.{◌≡◌, map, string_bytes};
ghost use Rattle.sup_about.specs.Askings.{asked_by_one, asked_by_two, asked_of, command_of, is_help};

/// A program of the repository.
#[derive(Clone, Copy, Debug, PartialEq, Eq)]
pub enum Program {
    /// Scripts, placement and stored images.
    Supctl,
    /// One node for a host.
    Supd,
    /// Pictures of scripts.
    Supdraw,
}

/// A command of `supctl`.
#[derive(Clone, Copy, Debug, PartialEq, Eq)]
pub enum Command {
    /// Runs a script.
    Simulate,
    /// Runs a script by threads.
    Cluster,
    /// Places children.
    Place,
    /// Looks into a stored image.
    Inspect,
}

/// What a program is asked about itself.
#[derive(Clone, Copy, Debug, PartialEq, Eq)]
pub enum Asked {
    /// How it is called.
    Help,
    /// How this command of it is called.
    HelpOf(Command),
    /// Which version it is.
    Version,
}

/// What the words behind a program's name ask about it. None where they ask nothing, so that it is to run: it is asked by one word, or by
/// two of which the first is a command of it.
pub fn asked_in(program: Program, words: &[String]) -> Option<Asked>
    ensures { result ≡ asked_of program (map string_bytes words.now) }
{
    match words {
        [word] => asked_by_one(word.as_str()),
        [name, word] => asked_by_two(program, name.as_str(), word.as_str()),
        _ => None,
    }
}

fn asked_by_one(word: &str) -> Option<Asked>
    ensures { result ≡ asked_by_one word.now }
{
    if is_help(word) {
        Some(Asked::Help)
    } else if word == "--version" {
        Some(Asked::Version)
    } else {
        None
    }
}

fn asked_by_two(program: Program, name: &str, word: &str) -> Option<Asked>
    ensures { result ≡ asked_by_two program name.now word.now }
{
    if is_help(word) {
        let command = command_at(program, name)?;
        Some(Asked::HelpOf(command))
    } else {
        None
    }
}

fn is_help(word: &str) -> bool
    ensures { result ≡ is_help word.now }
{
    word == "--help" || word == "-h"
}

// The command of this name. `supctl` alone has commands.
fn command_at(program: Program, name: &str) -> Option<Command>
    ensures { result ≡ command_of program name.now }
{
    match program {
        Program::Supctl => command_of_supctl(name),
        Program::Supd | Program::Supdraw => None,
    }
}

fn command_of_supctl(name: &str) -> Option<Command>
    ensures { result ≡ command_of Program.Supctl name.now }
{
    match name {
        "simulate" => Some(Command::Simulate),
        "cluster" => Some(Command::Cluster),
        "place" => Some(Command::Place),
        "inspect" => Some(Command::Inspect),
        _ => None,
    }
}
