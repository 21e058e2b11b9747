//! The lines of commands, each by the form of the words behind the node's name, and the words that
//! it leaves. All of a form is judged before memory is taken for a part of it, so that words of no
//! form are bad whatever memory there is.

ghost use Rattle.std.specs.Prelude.{◌≡◌, IfErr};
ghost use Rattle.sup_lines.specs.Words.{Reads, and_rest, texts};
ghost use Rattle.sup_lines.specs.Forms.{delete_of, drain_of, join_of, leave_of, register_of, replace_of, start_of, unregister_of};

use crate::fault::LineFault;
use crate::options::{read_child, read_label};
use crate::values::{check_registered_name, read_child_id, read_node_name, read_registered_name};
use std::alloc::Global;
use sup_replica::{Act, Event};

/// A node becomes a member.
#[tactic(auto, unfolding(crate::specs::Forms::join_of))]
pub fn read_join<'a>(alloc: Global, words: &'a [&'a str]) -> Result<(Act, &'a [&'a str]), LineFault>
    ensures { Reads and_rest result (join_of (texts words.entry.now)) }
{
    let (label, rest) = read_label(alloc, words)?;
    Ok((Act::Event(Event::Join(label)), rest))
}

/// A member is taken out.
#[tactic(auto, unfolding(crate::specs::Forms::leave_of))]
pub fn read_leave<'a>(words: &'a [&'a str]) -> Result<(Act, &'a [&'a str]), LineFault>
    ensures act { Reads and_rest result (leave_of (texts words.entry.now)) }
    ensures bad { IfErr result (λ e. e ≡ LineFault.Bad) }
{
    match words {
        [member, rest @ ..] => Ok((Act::Event(Event::Leave(read_node_name(member)?)), rest)),
        _ => Err(LineFault::Bad),
    }
}

/// A member stays, and no child is placed on it any more.
#[tactic(auto, unfolding(crate::specs::Forms::drain_of))]
pub fn read_drain<'a>(words: &'a [&'a str]) -> Result<(Act, &'a [&'a str]), LineFault>
    ensures act { Reads and_rest result (drain_of (texts words.entry.now)) }
    ensures bad { IfErr result (λ e. e ≡ LineFault.Bad) }
{
    match words {
        [member, rest @ ..] => Ok((Act::Event(Event::Drain(read_node_name(member)?)), rest)),
        _ => Err(LineFault::Bad),
    }
}

/// A child is added.
#[tactic(auto, unfolding(crate::specs::Forms::start_of))]
pub fn read_start<'a>(
    alloc: Global,
    words: &'a [&'a str],
) -> Result<(Act, &'a [&'a str]), LineFault>
    ensures { Reads and_rest result (start_of (texts words.entry.now)) }
{
    let ((id, spec), rest) = read_child(alloc, words)?;
    Ok((Act::Event(Event::Start(id, spec)), rest))
}

/// A child gets a new specification.
#[tactic(auto, unfolding(crate::specs::Forms::replace_of))]
pub fn read_replace<'a>(
    alloc: Global,
    words: &'a [&'a str],
) -> Result<(Act, &'a [&'a str]), LineFault>
    ensures { Reads and_rest result (replace_of (texts words.entry.now)) }
{
    let ((id, spec), rest) = read_child(alloc, words)?;
    Ok((Act::Event(Event::Replace(id, spec)), rest))
}

/// A child is taken out.
#[tactic(auto, unfolding(crate::specs::Forms::delete_of))]
pub fn read_delete<'a>(
    alloc: Global,
    words: &'a [&'a str],
) -> Result<(Act, &'a [&'a str]), LineFault>
    ensures { Reads and_rest result (delete_of (texts words.entry.now)) }
{
    match words {
        [id, rest @ ..] => Ok((Act::Event(Event::Delete(read_child_id(alloc, id)?)), rest)),
        _ => Err(LineFault::Bad),
    }
}

/// A name gets a child.
#[tactic(auto, unfolding(crate::specs::Forms::register_of))]
pub fn read_register<'a>(
    alloc: Global,
    words: &'a [&'a str],
) -> Result<(Act, &'a [&'a str]), LineFault>
    ensures { Reads and_rest result (register_of (texts words.entry.now)) }
{
    match words {
        [name, id, rest @ ..] => {
            check_registered_name(name)?;
            let id = read_child_id(alloc, id)?;
            let name = read_registered_name(alloc, name)?;
            Ok((Act::Event(Event::Register(name, id)), rest))
        }
        _ => Err(LineFault::Bad),
    }
}

/// A name is taken back.
#[tactic(auto, unfolding(crate::specs::Forms::unregister_of))]
pub fn read_unregister<'a>(
    alloc: Global,
    words: &'a [&'a str],
) -> Result<(Act, &'a [&'a str]), LineFault>
    ensures { Reads and_rest result (unregister_of (texts words.entry.now)) }
{
    match words {
        [name, rest @ ..] => {
            let name = read_registered_name(alloc, name)?;
            Ok((Act::Event(Event::Unregister(name)), rest))
        }
        _ => Err(LineFault::Bad),
    }
}
