//! The first line: the nodes.

ghost use Rattle.sup_lines.specs.Script.{ReadsLine};
ghost use Rattle.sup_cluster_lines.specs.Nodes.{opening_of};

use std::alloc::Global;
use sup_lines::{LineFault, read_nodes_within};
use sup_specs::NodeName;

/// A run of threads has at least this many nodes.
pub const LEAST_NODES: usize = 2;

/// A run of threads has at most this many nodes.
pub const MOST_NODES: usize = 5;

/// The nodes of a run, 2 to 5 distinct ones.
///
/// # Errors
///
/// - `LineFault::Bad` where the line names no such nodes: always where it isn't plain.
/// - `LineFault::OutOfMemory` where memory was refused.
pub fn read_opening(alloc: Global, line: &[u8]) -> Result<Vec<NodeName>, LineFault>
    ensures { ReadsLine (λ v. v.items) line.now result (opening_of line.now) }
{
    read_nodes_within(alloc, line, LEAST_NODES, MOST_NODES)
}
