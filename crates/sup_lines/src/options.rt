//! Options that stand behind a line's first words, in a given order.

ghost use Rattle.std.specs.Prelude.{◌≡◌, IfErr, option_map};
ghost use Rattle.sup_lines.specs.Words.{Reads, and_rest, texts};
ghost use Rattle.sup_lines.specs.Options.{child_of, label_of, option_at, spec_of, value_after, word_behind};

use crate::fault::LineFault;
use crate::values::{
    check_child_id, check_text, read_child_id, read_kind, read_restart, read_shutdown, read_text,
};
use std::alloc::Global;
use sup_specs::{ChildId, ChildSpec, Text};

/// An option's value where its key begins the next word, else what it is by default; and the words
/// after it.
#[tactic(auto, unfolding(crate::specs::Options::option_at))]
pub fn option_at<'a>(words: &'a [&'a str], key: &str, default: &'a str) -> (&'a str, &'a [&'a str])
    ensures { (result.0.now, texts result.1.now)
        ≡ option_at key.now default.entry.now (texts words.entry.now) }
{
    match words {
        [] => (default, words),
        [word, rest @ ..] => match value_after(word, key) {
            Some(value) => (value, rest),
            None => (default, words),
        },
    }
}

/// What stands after the key that a word begins with; none where it doesn't.
pub fn value_after<'a>(word: &'a str, key: &str) -> Option<&'a str>
    ensures { option_map (λ v. v.now) result ≡ value_after key.now word.entry.now }
{
    word.strip_prefix(key)
}

/// The word behind a key where that is the next word; and the words after both.
#[tactic(auto, unfolding(crate::specs::Options::word_behind))]
pub fn word_behind<'a>(words: &'a [&'a str], key: &str) -> (Option<&'a str>, &'a [&'a str])
    ensures { (option_map (λ word. word.now) result.0, texts result.1.now)
        ≡ word_behind key.now (texts words.entry.now) }
{
    match words {
        [first, second, rest @ ..] if *first == key => (Some(*second), rest),
        _ => (None, words),
    }
}

/// The label of a member, empty where there is none; and the words after it.
#[tactic(auto, unfolding(crate::specs::Options::label_of))]
pub fn read_label<'a>(
    alloc: Global,
    words: &'a [&'a str],
) -> Result<(Text, &'a [&'a str]), LineFault>
    ensures { Reads and_rest result (label_of (texts words.entry.now)) }
{
    let (label, words) = option_at(words, "label=", "");
    let label = read_text(alloc, label)?;
    Ok((label, words))
}

/// The specification of a child; and the words after it. All of it is judged before memory is
/// taken.
#[tactic(auto, unfolding(crate::specs::Options::spec_of))]
pub fn read_spec<'a>(
    alloc: Global,
    words: &'a [&'a str],
) -> Result<(ChildSpec, &'a [&'a str]), LineFault>
    ensures { Reads and_rest result (spec_of (texts words.entry.now)) }
{
    let (kind, words) = option_at(words, "kind=", "worker");
    let (arg, words) = option_at(words, "arg=", "");
    let (restart, words) = option_at(words, "restart=", "permanent");
    let (shutdown, words) = option_at(words, "shutdown=", "5000");
    check_text(arg)?;
    let restart = read_restart(restart)?;
    let shutdown = read_shutdown(shutdown)?;
    let kind = read_kind(alloc, kind)?;
    let arg = read_text(alloc, arg)?;
    let spec = ChildSpec {
        kind,
        arg,
        restart,
        shutdown,
    };
    Ok((spec, words))
}

/// The id of a child and its specification; and the words after them. All of it is judged before
/// memory is taken.
#[tactic(auto, unfolding(crate::specs::Options::child_of))]
pub fn read_child<'a>(
    alloc: Global,
    words: &'a [&'a str],
) -> Result<((ChildId, ChildSpec), &'a [&'a str]), LineFault>
    ensures { Reads and_rest result (child_of (texts words.entry.now)) }
{
    match words {
        [id, options @ ..] => {
            check_child_id(id)?;
            let (spec, rest) = read_spec(alloc, options)?;
            let id = read_child_id(alloc, id)?;
            Ok(((id, spec), rest))
        }
        _ => Err(LineFault::Bad),
    }
}
