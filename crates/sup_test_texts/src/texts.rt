//! Texts that are asked for twice at most.
ghost use Rattle.std.specs.Prelude.{◌≡◌, IfOk, string_bytes};
ghost use Rattle.sup_placement.specs.Weights.{flat_weight};
ghost use Rattle.sup_text.specs.Answers.{refusal_text};
ghost use Rattle.sup_node_text.specs.Shown.{show_text, shown_at, where_text};

use std::alloc::{AllocError, Global};
use sup_node::Node;
use sup_node_text::{show_text, where_text};
use sup_placement::FlatWeigh;
use sup_replica::Refusal;
use sup_specs::{Name, NodeName};
use sup_text::refusal_text;

/// Why something was refused.
///
/// # Errors
///
/// Refused only for memory.
pub fn refused(alloc: Global, refusal: Refusal) -> Result<String, AllocError>
    ensures { IfOk result (λ s. string_bytes s ≡ refusal_text refusal) }
{
    refusal_text(alloc, refusal).or_else(|_| refusal_text(alloc, refusal))
}

/// What a node shows, or that it is down.
///
/// # Errors
///
/// Refused only for memory.
pub fn shown(
    alloc: Global,
    at: &NodeName,
    node: Option<&Node<FlatWeigh>>,
) -> Result<String, AllocError>
    ensures { IfOk result (λ s. string_bytes s ≡ show_text flat_weight at.now (shown_at node.entry)) }
{
    match show_text(alloc, at, node, &FlatWeigh) {
        Ok(text) => Ok(text),
        Err(_) => show_text(alloc, at, node, &FlatWeigh),
    }
}

/// Where a name leads at a node.
///
/// # Errors
///
/// Refused only for memory.
pub fn led(
    alloc: Global,
    at: &NodeName,
    node: Option<&Node<FlatWeigh>>,
    sought: &Name,
) -> Result<String, AllocError>
    ensures { IfOk result (λ s. string_bytes s ≡ where_text flat_weight at.now (shown_at node.entry) sought.now) }
{
    match where_text(alloc, at, node, sought, &FlatWeigh) {
        Ok(text) => Ok(text),
        Err(_) => where_text(alloc, at, node, sought, &FlatWeigh),
    }
}
