//! What the words after the program's name set.

ghost use Rattle.std.specs.Prelude.{◌≡◌, ◌≤◌, IfNone, IfSome, None, Some, option_map};
ghost use Rattle.sup_lines.specs.Words.{texts};
ghost use Rattle.sup_supd.specs.Words.{are_options, config_in, is_option, number_in, set_in, set_of, settings_of, value_for, weighing_at, weighing_in};

use sup_command_line::Weighing;
use sup_lines::{read_node_name, read_number};
use sup_replica::Config;
use sup_specs::NodeName;

/// What is set for a node.
#[derive(Clone, Copy)]
pub struct Settings<'a> {
    pub name: NodeName,
    /// The path of the file of its image.
    pub image: &'a str,
    /// How it weighs members.
    pub weighing: Weighing,
    pub config: Config,
}

/// What these words set: the node's name, and then options in any order, each with its value and at most once, `--image` among them.
/// None where they aren't such words.
pub fn read_settings<'a>(words: &[&'a str]) -> Option<Settings<'a>>
    ensures some { IfSome result (λ s. settings_of (texts words.now) ≡ Some (set_of s)) }
    ensures none { IfNone result (settings_of (texts words.now) ≡ None) }
{
    let (name, options) = words.split_first()?;
    if are_options(options) {
        read_options(name, options)
    } else {
        None
    }
}

#[tactic(auto, unfolding(crate::specs::Words::set_in))]
fn read_options<'a>(name: &str, options: &[&'a str]) -> Option<Settings<'a>>
    ensures some { IfSome result (λ s. set_in name.now (texts options.now) ≡ Some (set_of s)) }
    ensures none { IfNone result (set_in name.now (texts options.now) ≡ None) }
{
    let name = read_node_name(name).ok()?;
    let image = value_for("--image", options)?;
    let weighing = weighing_in(options)?;
    let config = config_in(options)?;
    Some(Settings {
        name,
        image,
        weighing,
        config,
    })
}

// An odd number of words, an unknown option and one that is given twice are refused.
#[tactic(auto, unfolding(crate::specs::Words::are_options))]
fn are_options(words: &[&str]) -> bool
    ensures { result ≡ are_options (texts words.now) }
{
    match words {
        [] => true,
        [key, _, rest @ ..] => {
            is_option(key) && value_for(key, rest).is_none() && are_options(rest)
        }
        _ => false,
    }
}

fn is_option(word: &str) -> bool
    ensures { result ≡ is_option word.now }
{
    word == "--image"
        || word == "--weigh"
        || word == "--intensity"
        || word == "--period"
        || word == "--buffer"
}

#[tactic(auto, unfolding(crate::specs::Words::value_for))]
fn value_for<'a>(name: &str, words: &[&'a str]) -> Option<&'a str>
    ensures { option_map (λ v. v.now) result ≡ value_for name.now (texts words.now) }
{
    match words {
        [key, value, rest @ ..] => {
            if *key == name {
                Some(*value)
            } else {
                value_for(name, rest)
            }
        }
        _ => None,
    }
}

fn weighing_in(words: &[&str]) -> Option<Weighing>
    ensures { result ≡ weighing_in (texts words.now) }
{
    match value_for("--weigh", words) {
        Some(word) => weighing_at(word),
        None => Some(Weighing::Sha256),
    }
}

#[tactic(auto, unfolding(crate::specs::Words::weighing_at))]
fn weighing_at(word: &str) -> Option<Weighing>
    ensures { result ≡ weighing_at word.now }
{
    match word {
        "sha256" => Some(Weighing::Sha256),
        "flat" => Some(Weighing::Flat),
        _ => None,
    }
}

#[tactic(auto, unfolding(crate::specs::Words::config_in))]
fn config_in(words: &[&str]) -> Option<Config>
    ensures { result ≡ config_in (texts words.now) }
{
    let intensity = number_in("--intensity", 1000, 1, words)?;
    let period = number_in("--period", 1_000_000, 5, words)?;
    let buffer = number_in("--buffer", 1024, 64, words)?;
    Config::new(intensity as u16, period as u32, buffer as u16)
}

// An option's number, or what it is by default.
#[tactic(auto, unfolding(crate::specs::Words::number_in))]
fn number_in(name: &str, greatest: u64, default: u64, words: &[&str]) -> Option<u64>
    requires { default ≤ greatest }
    ensures value { result ≡ number_in name.now greatest default (texts words.now) }
    ensures bound { IfSome result (λ number. number ≤ greatest) }
{
    match value_for(name, words) {
        Some(word) => read_number(word, greatest).ok(),
        None => Some(default),
    }
}
