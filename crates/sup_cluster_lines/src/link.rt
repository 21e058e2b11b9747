//! The line of a link.

ghost use Rattle.std.specs.Prelude.{◌≡◌, IfErr};
ghost use Rattle.sup_lines.specs.Words.{Reads, texts};
ghost use Rattle.sup_cluster_lines.specs.Links.{ends_of, link_in, link_of};

use crate::verdict::read_verdicts;
use std::alloc::Global;
use sup_lines::{LineFault, read_node_name};
use sup_links::LinkScript;
use sup_plan::Route;
use sup_plan::checking::{is_among, is_peer};
use sup_specs::NodeName;

/// The link that the words behind `link` say, with its script: `FROM TO VERDICT..`, from one of these nodes to another.
///
/// # Errors
///
/// - `LineFault::Bad` exactly where the words don't have that form.
/// - `LineFault::OutOfMemory` where they have it, and memory was refused.
#[tactic(auto, unfolding(crate::specs::Links::link_of))]
pub fn read_link(alloc: Global, nodes: &[NodeName], words: &[&str]) -> Result<Route, LineFault>
    ensures { Reads link_in result (link_of nodes.now (texts words.now)) }
{
    let [from, to, verdicts @ ..] = words else {
        return Err(LineFault::Bad);
    };
    if verdicts.is_empty() {
        return Err(LineFault::Bad);
    }
    let (from, to) = read_ends(nodes, from, to)?;
    let verdicts = read_verdicts(alloc, verdicts)?;
    Ok(Route {
        from,
        to,
        script: LinkScript(verdicts),
    })
}

// Two of the nodes that differ.
#[tactic(auto, unfolding(crate::specs::Links::ends_of))]
fn read_ends(nodes: &[NodeName], from: &str, to: &str) -> Result<(NodeName, NodeName), LineFault>
    ensures ends { Reads (λ ends. ends) result (ends_of nodes.now from.now to.now) }
    ensures bad { IfErr result (λ e. e ≡ LineFault.Bad) }
{
    let from = read_node_name(from)?;
    let to = read_node_name(to)?;
    if is_among(nodes, &from) && is_peer(nodes, &from, &to) {
        Ok((from, to))
    } else {
        Err(LineFault::Bad)
    }
}
