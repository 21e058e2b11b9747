//! What is printed of a settling.

ghost use Rattle.std.specs.Prelude.{◌≡◌, IfOk, string_bytes};
ghost use Rattle.std.specs.List.{flat_map};
ghost use Rattle.sup_text.specs.Answers.{effect_text, settled_text};

use crate::effect::effect_text;
use std::alloc::{AllocError, Global};
use sup_local_sup::Effect;
use sup_specs::NodeName;

/// The lines of a settling: how many messages were sent, then the effects in their order, each with its node.
///
/// # Errors
///
/// Refused only for memory.
pub fn settled_text(
    alloc: Global,
    messages: u64,
    effects: &[(NodeName, Effect)],
) -> Result<String, AllocError>
    ensures { IfOk result (λ s. string_bytes s ≡ settled_text messages effects.now) }
{
    let effects = effects_by_node(alloc, effects)?;
    let effects = effects.as_str();
    format!(in alloc; "ok settled {messages}\n{effects}")
}

// The lines of effects of several nodes, in their order.
fn effects_by_node(alloc: Global, effects: &[(NodeName, Effect)]) -> Result<String, AllocError>
    ensures { IfOk result (λ s. string_bytes s ≡ flat_map (λ e. effect_text e.0 e.1) effects.now) }
{
    let mut text = String::new(alloc);
    for (at, effect) in effects {
        let line = effect_text(alloc, at, effect)?;
        text.push_str(line.as_str())?;
    }
    Ok(text)
}
