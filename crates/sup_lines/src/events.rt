//! The lines of runs that end and of messages, each by its form, and the words that it leaves. A
//! delivery is read from the words behind its verb, each other from those behind the node's name.

ghost use Rattle.std.specs.Prelude.{◌≡◌, IfErr, option_map};
ghost use Rattle.sup_lines.specs.Words.{Reads, and_rest, texts};
ghost use Rattle.sup_lines.specs.Values.{node_name_of, number_of};
ghost use Rattle.sup_lines.specs.Options.{if_there};
ghost use Rattle.sup_lines.specs.Forms.{deliver_of, exit_of, push_of, ship_of};

use crate::deed::Deed;
use crate::fault::LineFault;
use crate::options::word_behind;
use crate::values::{
    check_child_id, read_child_id, read_incarnation, read_node_name, read_number, read_reason,
};
use std::alloc::Global;
use sup_replica::{Act, Event};
use sup_specs::{MAX, NodeName};

/// A run of a child has ended. All of the form is judged before memory is taken.
#[tactic(auto, unfolding(crate::specs::Forms::exit_of))]
pub fn read_exit<'a>(alloc: Global, words: &'a [&'a str]) -> Result<(Act, &'a [&'a str]), LineFault>
    ensures { Reads and_rest result (exit_of (texts words.entry.now)) }
{
    match words {
        [id, run, reason, rest @ ..] => {
            check_child_id(id)?;
            let inc = read_incarnation(run)?;
            let reason = read_reason(alloc, reason)?;
            let id = read_child_id(alloc, id)?;
            Ok((Act::Event(Event::Exit { id, inc, reason }), rest))
        }
        _ => Err(LineFault::Bad),
    }
}

/// Another node is sent what it hasn't acknowledged.
#[tactic(auto, unfolding(crate::specs::Forms::ship_of))]
pub fn read_ship<'a>(words: &'a [&'a str]) -> Result<(Act, &'a [&'a str]), LineFault>
    ensures act { Reads and_rest result (ship_of (texts words.entry.now)) }
    ensures bad { IfErr result (λ e. e ≡ LineFault.Bad) }
{
    match words {
        [to, rest @ ..] => Ok((Act::Event(Event::Ship(read_node_name(to)?)), rest)),
        _ => Err(LineFault::Bad),
    }
}

/// Another node is sent the newest own operation.
#[tactic(auto, unfolding(crate::specs::Forms::push_of))]
pub fn read_push<'a>(words: &'a [&'a str]) -> Result<(Act, &'a [&'a str]), LineFault>
    ensures act { Reads and_rest result (push_of (texts words.entry.now)) }
    ensures bad { IfErr result (λ e. e ≡ LineFault.Bad) }
{
    match words {
        [to, rest @ ..] => Ok((Act::Event(Event::Push(read_node_name(to)?)), rest)),
        _ => Err(LineFault::Bad),
    }
}

/// A message comes.
#[tactic(auto, unfolding(crate::specs::Forms::deliver_of))]
pub fn read_deliver<'a>(words: &'a [&'a str]) -> Result<(Deed, &'a [&'a str]), LineFault>
    ensures deed { Reads and_rest result (deliver_of (texts words.entry.now)) }
    ensures bad { IfErr result (λ e. e ≡ LineFault.Bad) }
{
    match words {
        [from, number, options @ ..] => {
            let (receiver, options) = word_behind(options, "at");
            let (cut, rest) = word_behind(options, "drop");
            let from = read_node_name(from)?;
            let k = read_number(number, MAX)?;
            let at = read_receiver(receiver)?;
            let drop = read_cut(cut)?.unwrap_or(0);
            Ok((Deed::Delivery { from, k, at, drop }, rest))
        }
        _ => Err(LineFault::Bad),
    }
}

fn read_receiver(word: Option<&str>) -> Result<Option<NodeName>, LineFault>
    ensures name { Reads (λ at. at) result (if_there node_name_of (option_map (λ w. w.now) word.entry)) }
    ensures bad { IfErr result (λ e. e ≡ LineFault.Bad) }
{
    match word {
        Some(word) => Ok(Some(read_node_name(word)?)),
        None => Ok(None),
    }
}

fn read_cut(word: Option<&str>) -> Result<Option<u64>, LineFault>
    ensures number { Reads (λ cut. cut) result (if_there (number_of MAX) (option_map (λ w. w.now) word.entry)) }
    ensures bad { IfErr result (λ e. e ≡ LineFault.Bad) }
{
    match word {
        Some(word) => Ok(Some(read_number(word, MAX)?)),
        None => Ok(None),
    }
}
