//! What the options of a command say.

ghost use Rattle.std.specs.Prelude.{◌≡◌, codes, option_map};
ghost use Rattle.clap.specs.Words.{first_of, found_of, rows_of};
ghost use Rattle.sup_replica.specs.Configs.{config_of};
ghost use Rattle.sup_command_line.specs.BadOptions.{bad_in, bad_option_in, bad_word, is_within, number_choice, weigh};
ghost use Rattle.sup_command_line.specs.Requests.{config_in, number_in, weighing_in};
ghost use Rattle.sup_command_line.specs.Weighings.{weighing_of};

use crate::number::number_of;
use crate::request::Weighing;
use clap::ArgMatches;
use sup_replica::Config;

/// How members are weighed; none where the option's word is none of the two.
#[tactic(auto, unfolding(crate::specs::Requests::weighing_in))]
pub fn weighing_in(options: &ArgMatches<'_>) -> Option<Weighing>
    ensures { result ≡ weighing_in (rows_of (found_of options.now)) }
{
    weighing_of(word_in(options, "weigh")?)
}

/// What is set for a node; none where an option's word is no number, or one out of its limits.
#[tactic(auto, unfolding(crate::specs::Requests::config_in))]
pub fn config_in(options: &ArgMatches<'_>) -> Option<Config>
    ensures { result ≡ config_in (rows_of (found_of options.now)) }
{
    let intensity = number_in(options, "intensity")?;
    let period = number_in(options, "period")?;
    let buffer = number_in(options, "buffer")?;
    config_of(intensity, period, buffer)
}

fn config_of(intensity: u32, period: u32, buffer: u32) -> Option<Config>
    ensures { result ≡ config_of intensity period buffer }
{
    let intensity = u16::try_from(intensity).ok()?;
    let buffer = u16::try_from(buffer).ok()?;
    Config::new(intensity, period, buffer)
}

#[tactic(auto, unfolding(crate::specs::Requests::number_in))]
fn number_in(options: &ArgMatches<'_>, name: &str) -> Option<u32>
    ensures { result ≡ number_in name.now (rows_of (found_of options.now)) }
{
    number_of(word_in(options, name)?)
}

fn word_in<'a>(options: &ArgMatches<'a>, name: &str) -> Option<&'a str>
    ensures { option_map (λ s. s.now) result ≡ first_of name.now (rows_of (found_of options.now)) }
{
    options.get_str(name)
}

#[tactic(auto, unfolding(crate::specs::Weighings::weighing_of))]
fn weighing_of(word: &str) -> Option<Weighing>
    ensures { result ≡ weighing_of word.now }
{
    match word {
        "sha256" => Some(Weighing::Sha256),
        "flat" => Some(Weighing::Flat),
        _ => None,
    }
}

// An option with a word that is no value of it.
#[derive(Clone, Copy)]
pub(crate) struct BadOption<'a> {
    pub(crate) name: &'static str,
    // Which values it takes.
    pub(crate) values: &'static str,
    pub(crate) word: &'a str,
}

// The first option with a word that is no value of it, where there is one.
#[tactic(auto, unfolding(crate::specs::BadOptions::bad_option_in))]
pub(crate) fn bad_option_in<'a>(options: &ArgMatches<'a>) -> Option<BadOption<'a>>
    ensures { option_map bad_word result ≡ bad_option_in (rows_of (found_of options.now)) }
{
    bad_weigher_in(options)
        .or(bad_number_in(options, "intensity", "0 to 1000", 0, 1000))
        .or(bad_number_in(options, "period", "1 to 1000000", 1, 1_000_000))
        .or(bad_number_in(options, "buffer", "1 to 1024", 1, 1024))
}

#[tactic(auto, unfolding(crate::specs::BadOptions::bad_in))]
fn bad_weigher_in<'a>(options: &ArgMatches<'a>) -> Option<BadOption<'a>>
    ensures { option_map bad_word result ≡ bad_in weigh (rows_of (found_of options.now)) }
{
    let word = word_in(options, "weigh")?;
    match weighing_of(word) {
        Some(_) => None,
        None => Some(BadOption {
            name: "weigh",
            values: "sha256|flat",
            word,
        }),
    }
}

#[tactic(auto, unfolding(crate::specs::BadOptions::bad_in))]
fn bad_number_in<'a>(
    options: &ArgMatches<'a>,
    name: &'static str,
    values: &'static str,
    least: u32,
    most: u32,
) -> Option<BadOption<'a>>
    ensures { option_map bad_word result
        ≡ bad_in (number_choice name.now values.now least most) (rows_of (found_of options.now)) }
{
    let word = word_in(options, name)?;
    if is_within(least, most, word) {
        None
    } else {
        Some(BadOption { name, values, word })
    }
}

fn is_within(least: u32, most: u32, word: &str) -> bool
    ensures { result ≡ is_within least most word.now }
{
    match number_of(word) {
        Some(number) => least <= number && number <= most,
        None => false,
    }
}
