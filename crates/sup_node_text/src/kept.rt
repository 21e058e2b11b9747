//! The lines of kept children.

ghost use Rattle.std.specs.Prelude.{◌≡◌, IfOk, string_bytes};
ghost use Rattle.std.specs.List.{flat_map};
ghost use Rattle.sup_node_text.specs.Lines.{kept_line};

use std::alloc::{AllocError, Global};
use sup_local_sup::KeptList;
use sup_text::IncarnationText;

// The lines of what is kept, in its order.
pub(crate) fn kept_text(alloc: Global, kept: &KeptList) -> Result<String, AllocError>
    ensures { IfOk result (λ s. string_bytes s ≡ flat_map kept_line kept.now) }
{
    let mut text = String::new(alloc);
    for (id, entry) in kept {
        let id = id.as_str();
        let inc = IncarnationText(entry.inc);
        let line = format!(in alloc; "kept {id} {inc}\n")?;
        text.push_str(line.as_str())?;
    }
    Ok(text)
}
