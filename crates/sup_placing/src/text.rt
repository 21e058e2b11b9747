//! What `place` prints.

ghost use Rattle.std.specs.Prelude.{◌≡◌, IfOk, string_bytes};
ghost use Rattle.sup_placing.specs.Placing.{placing_text};

use std::alloc::{AllocError, Global};
use sup_placement::{Weigh, place};
use sup_specs::{ChildId, NodeName};

/// A line for each id: the id, and its member or `unplaced`.
pub fn placing_text<G: Weigh>(
    alloc: Global,
    weigher: &G,
    members: &[NodeName],
    ids: &[ChildId],
) -> Result<String, AllocError>
    ensures { IfOk result (λ s. string_bytes s
        ≡ placing_text G.weight_of (members.now, ids.now)) }
{
    let mut text = String::new(alloc);
    for id in ids {
        let member = place(weigher, members, id);
        let member = match &member {
            Some(name) => name.as_str(),
            None => "unplaced",
        };
        let id = id.as_str();
        write!(text, "{id} {member}\n")?;
    }
    Ok(text)
}
