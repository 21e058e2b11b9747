//! Answers as texts.

ghost use Rattle.std.specs.Prelude.{◌≡◌, IfOk, string_bytes};
ghost use Rattle.sup_text.specs.Answers.{answer_text};

use crate::effect::effects_text;
use crate::letter::sent_text;
use crate::reply::reply_text;
use std::alloc::{AllocError, Global};
use sup_replica::Done;
use sup_specs::NodeName;

/// The lines of what a node answered: its reply, then its effects in their order, then its letter. The number says which of
/// the node's messages the letter is; there is no line for a letter without one.
///
/// # Errors
///
/// Refused only for memory.
pub fn answer_text(
    alloc: Global,
    at: &NodeName,
    done: &Done,
    number: Option<u64>,
) -> Result<String, AllocError>
    ensures { IfOk result (λ s. string_bytes s ≡ answer_text at.now done.now number) }
{
    let mut text = reply_text(alloc, &done.reply)?;
    let effects = effects_text(alloc, at, done.effects.as_slice())?;
    text.push_str(effects.as_str())?;
    let letter = sent_text(alloc, at, &done.out, number)?;
    text.push_str(letter.as_str())?;
    Ok(text)
}
