//! What is printed of where a name leads.

ghost use Rattle.std.specs.Prelude.{◌≡◌, IfOk, string_bytes};
ghost use Rattle.sup_node_text.specs.Shown.{shown_at, where_text};

use crate::place::LeadText;
use crate::show::down_text;
use std::alloc::{AllocError, Global};
use sup_node::Node;
use sup_placement::Weigh;
use sup_specs::{Name, NodeName};

/// The line of where a name leads at the node of this name: its child, and the member that the child is placed on. The line of
/// a stopped node, none here, says that it is down. To print is no step.
///
/// # Errors
///
/// Refused only for memory.
pub fn where_text<W: Weigh>(
    alloc: Global,
    at: &NodeName,
    node: Option<&Node<W>>,
    name: &Name,
    weigher: &W,
) -> Result<String, AllocError>
    ensures { IfOk result (λ s. string_bytes s ≡ where_text W.weight_of at.now (shown_at node.entry) name.now) }
{
    let Some(node) = node else {
        return down_text(alloc, at);
    };
    match node.whereis(name, weigher) {
        Err(refused) => Err(refused),
        Ok(lead) => {
            let lead = LeadText(lead);
            let name = name.as_str();
            format!(in alloc; "{name} {lead}\n")
        }
    }
}
