//! Dots as texts.

ghost use Rattle.std.specs.Prelude.{◌≡◌, IfOk, Some, string_bytes};
ghost use Rattle.std.specs.List.{flat_map};
ghost use Rattle.sup_text.specs.Words.{dot_text, spaced_dot};

use std::alloc::{AllocError, Global};
use std::fmt;
use sup_causal::Dot;

/// A dot, as `(a,2)`.
#[derive(Clone, Copy)]
pub struct DotText(pub Dot);

impl fmt::Display for DotText {
    ghost output = { λ d. Some (dot_text d.0) };

    fn fmt<W: fmt::Write>(&self, f: &mut fmt::Formatter<W>) -> fmt::Result {
        let node = self.0.node.as_str();
        let counter = self.0.counter;
        write!(f, "({node},{counter})")
    }
}

// Each dot, after a space.
pub(crate) fn spaced_dots(alloc: Global, dots: &[Dot]) -> Result<String, AllocError>
    ensures { IfOk result (λ s. string_bytes s ≡ flat_map spaced_dot dots.now) }
{
    let mut text = String::new(alloc);
    for dot in dots {
        let dot = DotText(*dot);
        let spaced = format!(in alloc; " {dot}")?;
        text.push_str(spaced.as_str())?;
    }
    Ok(text)
}
