//! Effects as texts.

ghost use Rattle.std.specs.Prelude.{◌≡◌, IfOk, Some, string_bytes};
ghost use Rattle.std.specs.List.{flat_map};
ghost use Rattle.sup_text.specs.Words.{incarnation_text};
ghost use Rattle.sup_text.specs.Answers.{change_text, effect_text};

use std::alloc::{AllocError, Global};
use std::fmt;
use sup_local_sup::{Effect, Incarnation};
use sup_specs::NodeName;

/// A run of a child, as `1.2`: its boot, and which of the boot's runs it is.
#[derive(Clone, Copy)]
pub struct IncarnationText(pub Incarnation);

impl fmt::Display for IncarnationText {
    ghost output = { λ i. Some (incarnation_text i.0) };

    fn fmt<W: fmt::Write>(&self, f: &mut fmt::Formatter<W>) -> fmt::Result {
        let boot = self.0.boot;
        let k = self.0.k;
        write!(f, "{boot}.{k}")
    }
}

// What is to be done, as `start web 1.1`.
#[derive(Clone, Copy)]
struct ChangeText<'a>(&'a Effect);

impl fmt::Display for ChangeText<'_> {
    ghost output = { λ e. Some (change_text e.0.now) };

    fn fmt<W: fmt::Write>(&self, f: &mut fmt::Formatter<W>) -> fmt::Result {
        match self.0 {
            Effect::Stop { id, inc } => {
                let id = id.as_str();
                let inc = IncarnationText(*inc);
                write!(f, "stop {id} {inc}")
            }
            Effect::Start { id, inc, .. } => {
                let id = id.as_str();
                let inc = IncarnationText(*inc);
                write!(f, "start {id} {inc}")
            }
        }
    }
}

// The line of an effect at a node.
pub(crate) fn effect_text(
    alloc: Global,
    at: &NodeName,
    effect: &Effect,
) -> Result<String, AllocError>
    ensures { IfOk result (λ s. string_bytes s ≡ effect_text at.now effect.now) }
{
    let at = at.as_str();
    let change = ChangeText(effect);
    format!(in alloc; "  {at} {change}\n")
}

// The lines of a node's effects, in their order.
pub(crate) fn effects_text(
    alloc: Global,
    at: &NodeName,
    effects: &[Effect],
) -> Result<String, AllocError>
    ensures { IfOk result (λ s. string_bytes s ≡ flat_map (effect_text at.now) effects.now) }
{
    let mut text = String::new(alloc);
    for effect in effects {
        let line = effect_text(alloc, at, effect)?;
        text.push_str(line.as_str())?;
    }
    Ok(text)
}
