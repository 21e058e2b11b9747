//! The lines of the members alone.

ghost use Rattle.std.specs.Prelude.{◌≡◌, IfOk, string_bytes};
ghost use Rattle.sup_node_text.specs.Inspected.{node_at};
ghost use Rattle.sup_answering.specs.AnsweringNodes.{members_of, members_text};

use std::alloc::{AllocError, Global};
use sup_node::Node;
use sup_node_text::MemberLine;
use sup_placement::Weigh;
use sup_specs::NodeName;
use sup_tables::Tables;

// The lines of the members of the node of this name, which is none while it's stopped.
pub(crate) fn members_of<W: Weigh>(
    alloc: Global,
    at: &NodeName,
    node: Option<&Node<W>>,
) -> Result<String, AllocError>
    ensures { IfOk result (λ s. string_bytes s ≡ members_of at.now (node_at node.entry)) }
{
    match node {
        Some(node) => members_text(alloc, node.tables()),
        None => {
            let at = at.as_str();
            format!(in alloc; "node {at} down\n")
        }
    }
}

fn members_text(alloc: Global, tables: &Tables) -> Result<String, AllocError>
    ensures { IfOk result (λ s. string_bytes s ≡ members_text tables.now.rows) }
{
    let winners = tables.members()?;
    let mut text = String::new(alloc);
    for winner in &winners {
        let line = MemberLine {
            member: winner.key,
            dot: *winner.dot,
            info: winner.value,
        };
        let line = format!(in alloc; "{line}")?;
        text.push_str(line.as_str())?;
    }
    Ok(text)
}
