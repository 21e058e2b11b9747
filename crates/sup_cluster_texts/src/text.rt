//! What is printed of a cluster that has settled.

ghost use Rattle.std.specs.Prelude.{◌≡◌, IfOk, string_bytes};
ghost use Rattle.std.specs.List.{flat_map};
ghost use Rattle.sup_world.specs.SeenNodes.{sites_of};
ghost use Rattle.sup_node_text.specs.Inspected.{node_at};
ghost use Rattle.sup_node_text.specs.Shown.{down_text};
ghost use Rattle.sup_cluster_texts.specs.Texts.{cluster_text, named_text, node_text};

use std::alloc::{AllocError, Global};
use sup_node::Node;
use sup_node_text::tables_text;
use sup_placement::Weigh;
use sup_specs::NodeName;
use sup_world::World;

/// The lines of a certified cluster: `certified`, and then of each of these nodes what its tables show, or that it is down. To print
/// is no step.
///
/// # Errors
///
/// Refused only for memory.
pub fn cluster_text<G: Weigh>(
    alloc: Global,
    weigher: &G,
    world: &World<G>,
    names: &[NodeName],
) -> Result<String, AllocError>
    ensures { IfOk result (λ s. string_bytes s ≡ cluster_text G.weight_of (sites_of world.now) names.now) }
{
    let nodes = nodes_text(alloc, weigher, world, names)?;
    let nodes = nodes.as_str();
    format!(in alloc; "certified\n{nodes}")
}

fn nodes_text<G: Weigh>(
    alloc: Global,
    weigher: &G,
    world: &World<G>,
    names: &[NodeName],
) -> Result<String, AllocError>
    ensures { IfOk result (λ s. string_bytes s ≡ flat_map (named_text G.weight_of (sites_of world.now)) names.now) }
{
    let mut text = String::new(alloc);
    for name in names {
        let lines = named_text(alloc, weigher, world, name)?;
        text.push_str(lines.as_str())?;
    }
    Ok(text)
}

// The lines of the node of this name.
fn named_text<G: Weigh>(
    alloc: Global,
    weigher: &G,
    world: &World<G>,
    name: &NodeName,
) -> Result<String, AllocError>
    ensures { IfOk result (λ s. string_bytes s ≡ named_text G.weight_of (sites_of world.now) name.now) }
{
    match world.station(name) {
        Some(station) => node_text(alloc, weigher, name, station.node()),
        None => down_text(alloc, name),
    }
}

// The lines of a node, which is none while it's stopped.
fn node_text<G: Weigh>(
    alloc: Global,
    weigher: &G,
    name: &NodeName,
    node: Option<&Node<G>>,
) -> Result<String, AllocError>
    ensures { IfOk result (λ s. string_bytes s ≡ node_text G.weight_of name.now (node_at node.entry)) }
{
    let Some(node) = node else {
        return down_text(alloc, name);
    };
    let name = name.as_str();
    let tables = tables_text(alloc, node.tables(), weigher)?;
    let tables = tables.as_str();
    format!(in alloc; "node {name}\n{tables}")
}

// The line of a stopped node.
fn down_text(alloc: Global, name: &NodeName) -> Result<String, AllocError>
    ensures { IfOk result (λ s. string_bytes s ≡ down_text name.now) }
{
    let name = name.as_str();
    format!(in alloc; "node {name} down\n")
}
