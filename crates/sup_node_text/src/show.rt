//! What is shown of a node.

ghost use Rattle.std.specs.Prelude.{◌≡◌, IfOk, string_bytes};
ghost use Rattle.sup_node_text.specs.Shown.{down_text, show_text, shown_at};

use crate::kept::kept_text;
use crate::tables::tables_text;
use std::alloc::{AllocError, Global};
use sup_node::Node;
use sup_placement::Weigh;
use sup_specs::NodeName;

/// The lines of what is shown of the node of this name: its boot, then its members, children and names, each by key with its
/// losers, then what it keeps, in the order of its starts. A stopped node, none here, has one line that says so. To print is
/// no step.
///
/// # Errors
///
/// Refused only for memory.
pub fn show_text<W: Weigh>(
    alloc: Global,
    at: &NodeName,
    node: Option<&Node<W>>,
    weigher: &W,
) -> Result<String, AllocError>
    ensures { IfOk result (λ s. string_bytes s ≡ show_text W.weight_of at.now (shown_at node.entry)) }
{
    let Some(node) = node else {
        return down_text(alloc, at);
    };
    let at = at.as_str();
    let boot = node.boot();
    let tables = tables_text(alloc, node.tables(), weigher)?;
    let tables = tables.as_str();
    let kept = kept_text(alloc, node.kept())?;
    let kept = kept.as_str();
    format!(in alloc; "node {at} boot {boot}\n{tables}{kept}")
}

// The line of a stopped node.
pub(crate) fn down_text(alloc: Global, at: &NodeName) -> Result<String, AllocError>
    ensures { IfOk result (λ s. string_bytes s ≡ down_text at.now) }
{
    let at = at.as_str();
    format!(in alloc; "node {at} down\n")
}
