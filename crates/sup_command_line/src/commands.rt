//! The commands and their options, as `clap` is told of them.

ghost use Rattle.std.specs.Prelude.{◌≡◌, IfOk, codes, false};
ghost use Rattle.clap.specs.Words.{app_of, new_app, rule_of, with_rule, with_subcommand};
ghost use Rattle.clap.specs.declared.builder.command.Command.TheViews.{out-Command as fields_of};
ghost use Rattle.sup_command_line.specs.Words.{buffer_rule, cluster_command, inspect_command, intensity_rule, option_rule, period_rule, place_command, script_commands, simulate_command, supctl_app, weigh_rule, weighing_command, with_commands, with_settings};

use clap::{Arg, ArgAction, Command};
use std::alloc::{AllocError, Global};

/// The program's commands.
#[tactic(auto, unfolding(crate::specs::Words::supctl_app))]
pub fn supctl<'a>(alloc: Global) -> Result<Command<'a>, AllocError>
    ensures app { IfOk result (λ c. app_of c ≡ supctl_app) }
    ensures local { IfOk result (λ c. (fields_of c).has_globals ≡ false) }
{
    let command = with_command(script_commands(alloc)?, place_command(alloc)?)?;
    with_command(command, inspect_command(alloc)?)
}

// With the commands that run scripts.
#[tactic(auto, unfolding(crate::specs::Words::script_commands))]
fn script_commands<'a>(alloc: Global) -> Result<Command<'a>, AllocError>
    ensures app { IfOk result (λ c. app_of c ≡ script_commands) }
    ensures local { IfOk result (λ c. (fields_of c).has_globals ≡ false) }
{
    let command = with_command(top_command(alloc)?, simulate_command(alloc)?)?;
    with_command(command, cluster_command(alloc)?)
}

// Its name stands before each command's in what is told of usage.
fn top_command<'a>(alloc: Global) -> Result<Command<'a>, AllocError>
    ensures app { IfOk result (λ c. app_of c ≡ with_commands (new_app (codes "supctl"))) }
    ensures local { IfOk result (λ c. (fields_of c).has_globals ≡ false) }
{
    Command::new(alloc, "supctl")
        .about(
            "A replicated supervisor: scripts over a cluster of nodes, runs by threads, placement, and stored images",
        )
        .no_binary_name(true)
        .subcommand_required(true)
        .bin_name("supctl")
}

#[tactic(auto, unfolding(crate::specs::Words::simulate_command))]
fn simulate_command<'a>(alloc: Global) -> Result<Command<'a>, AllocError>
    ensures app { IfOk result (λ c. app_of c ≡ simulate_command) }
    ensures local { IfOk result (λ c. (fields_of c).has_globals ≡ false) }
{
    let about = "Runs the script on standard input, and prints what each of its lines is answered";
    with_settings(alloc, weighing_command(alloc, "simulate", about)?)
}

#[tactic(auto, unfolding(crate::specs::Words::cluster_command))]
fn cluster_command<'a>(alloc: Global) -> Result<Command<'a>, AllocError>
    ensures app { IfOk result (λ c. app_of c ≡ cluster_command) }
    ensures local { IfOk result (λ c. (fields_of c).has_globals ≡ false) }
{
    let about =
        "Runs the script on standard input by threads, and prints what its nodes know at the end";
    with_settings(alloc, weighing_command(alloc, "cluster", about)?)
}

#[tactic(auto, unfolding(crate::specs::Words::place_command))]
fn place_command<'a>(alloc: Global) -> Result<Command<'a>, AllocError>
    ensures app { IfOk result (λ c. app_of c ≡ place_command) }
    ensures local { IfOk result (λ c. (fields_of c).has_globals ≡ false) }
{
    let about = "Prints the member on which each child that standard input names is placed";
    weighing_command(alloc, "place", about)
}

#[tactic(auto, unfolding(crate::specs::Words::inspect_command))]
fn inspect_command<'a>(alloc: Global) -> Result<Command<'a>, AllocError>
    ensures app { IfOk result (λ c. app_of c ≡ inspect_command) }
    ensures local { IfOk result (λ c. (fields_of c).has_globals ≡ false) }
{
    let about = "Prints what the image of a node on standard input tells, and begins no boot";
    weighing_command(alloc, "inspect", about)
}

fn weighing_command<'a>(
    alloc: Global,
    name: &'a str,
    about: &'a str,
) -> Result<Command<'a>, AllocError>
    ensures app { IfOk result (λ c. app_of c ≡ weighing_command name.entry.now) }
    ensures local { IfOk result (λ c. (fields_of c).has_globals ≡ false) }
{
    with_option(Command::new(alloc, name).about(about), weigh_option(alloc))
}

fn with_settings<'a>(alloc: Global, command: Command<'a>) -> Result<Command<'a>, AllocError>
    requires { (fields_of command).has_globals ≡ false }
    ensures app { IfOk result (λ c. app_of c ≡ with_settings (app_of command.entry)) }
    ensures local { IfOk result (λ c. (fields_of c).has_globals ≡ false) }
{
    let command = with_option(command, intensity_option(alloc))?;
    let command = with_option(command, period_option(alloc))?;
    with_option(command, buffer_option(alloc))
}

fn weigh_option<'a>(alloc: Global) -> Arg<'a>
    ensures rule { rule_of result ≡ weigh_rule }
    ensures local { result.global ≡ false }
{
    let help = "How members are weighed for children: sha256 or flat";
    option_of(alloc, "weigh", "sha256|flat", "sha256").help(help)
}

fn intensity_option<'a>(alloc: Global) -> Arg<'a>
    ensures rule { rule_of result ≡ intensity_rule }
    ensures local { result.global ≡ false }
{
    let help = "How many restarts within a period a node bears, 0 to 1000";
    option_of(alloc, "intensity", "0 to 1000", "1").help(help)
}

fn period_option<'a>(alloc: Global) -> Arg<'a>
    ensures rule { rule_of result ≡ period_rule }
    ensures local { result.global ≡ false }
{
    let help = "How many seconds a restart counts, 1 to 1000000";
    option_of(alloc, "period", "1 to 1000000", "5").help(help)
}

fn buffer_option<'a>(alloc: Global) -> Arg<'a>
    ensures rule { rule_of result ≡ buffer_rule }
    ensures local { result.global ≡ false }
{
    let help = "How many of its newest changes a node keeps to send, 1 to 1024";
    option_of(alloc, "buffer", "1 to 1024", "64").help(help)
}

// The value's name is what values there are.
fn option_of<'a>(alloc: Global, name: &'a str, values: &'a str, default: &'a str) -> Arg<'a>
    ensures rule { rule_of result ≡ option_rule name.entry.now default.entry.now }
    ensures local { result.global ≡ false }
{
    Arg::new(alloc, name)
        .long(name)
        .action(ArgAction::Set)
        .value_name(values)
        .default_value(default)
}

fn with_option<'a>(command: Command<'a>, option: Arg<'a>) -> Result<Command<'a>, AllocError>
    requires plain { option.global ≡ false }
    requires local { (fields_of command).has_globals ≡ false }
    ensures app { IfOk result (λ c. app_of c
        ≡ with_rule (app_of command.entry) (rule_of option.entry)) }
    ensures local { IfOk result (λ c. (fields_of c).has_globals ≡ false) }
{
    command.arg(option)
}

fn with_command<'a>(command: Command<'a>, sub: Command<'a>) -> Result<Command<'a>, AllocError>
    requires plain { (fields_of sub).has_globals ≡ false }
    requires local { (fields_of command).has_globals ≡ false }
    ensures app { IfOk result (λ c. app_of c
        ≡ with_subcommand (app_of command.entry) (app_of sub.entry).top) }
    ensures local { IfOk result (λ c. (fields_of c).has_globals ≡ false) }
{
    command.subcommand(sub)
}
