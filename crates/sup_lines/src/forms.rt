//! The lines that may end in a moment and a failing save, each by its first word.

ghost use Rattle.sup_lines.specs.Words.{Reads, and_rest, texts};
ghost use Rattle.sup_lines.specs.Forms.{act_of, deed_of, told_of};

use crate::commands::{
    read_delete, read_drain, read_join, read_leave, read_register, read_replace, read_start,
    read_unregister,
};
use crate::deed::Deed;
use crate::events::{read_deliver, read_exit, read_push, read_ship};
use crate::fault::LineFault;
use crate::values::read_node_name;
use std::alloc::Global;
use sup_replica::Act;

/// What a line does before its endings, and the words that it leaves.
#[tactic(auto, unfolding(crate::specs::Forms::deed_of))]
pub fn read_deed<'a>(
    alloc: Global,
    words: &'a [&'a str],
) -> Result<(Deed, &'a [&'a str]), LineFault>
    ensures { Reads and_rest result (deed_of (texts words.entry.now)) }
{
    let Some((verb, words)) = words.split_first() else {
        return Err(LineFault::Bad);
    };
    match *verb {
        "deliver" => read_deliver(words),
        verb => read_told(alloc, verb, words),
    }
}

// The node's name is judged before memory is taken.
#[tactic(auto, unfolding(crate::specs::Forms::told_of))]
fn read_told<'a>(
    alloc: Global,
    verb: &str,
    words: &'a [&'a str],
) -> Result<(Deed, &'a [&'a str]), LineFault>
    ensures { Reads and_rest result (told_of verb.now (texts words.entry.now)) }
{
    match words {
        [node, words @ ..] => {
            let node = read_node_name(node)?;
            let (act, rest) = read_act(alloc, verb, words)?;
            Ok((Deed::At { node, act }, rest))
        }
        _ => Err(LineFault::Bad),
    }
}

#[tactic(auto, unfolding(crate::specs::Forms::act_of))]
fn read_act<'a>(
    alloc: Global,
    verb: &str,
    words: &'a [&'a str],
) -> Result<(Act, &'a [&'a str]), LineFault>
    ensures { Reads and_rest result (act_of verb.now (texts words.entry.now)) }
{
    match verb {
        "join" => read_join(alloc, words),
        "leave" => read_leave(words),
        "drain" => read_drain(words),
        "start" => read_start(alloc, words),
        "replace" => read_replace(alloc, words),
        "delete" => read_delete(alloc, words),
        "register" => read_register(alloc, words),
        "unregister" => read_unregister(alloc, words),
        "exit" => read_exit(alloc, words),
        "ship" => read_ship(words),
        "push" => read_push(words),
        "stop" => Ok((Act::Stop, words)),
        "restart" => Ok((Act::Restart, words)),
        _ => Err(LineFault::Bad),
    }
}
