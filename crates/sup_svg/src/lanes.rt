//! The lines of nodes, and the gaps where they were down.

ghost use Rattle.std.specs.Prelude.{◌≡◌, IfOk, string_bytes};
ghost use Rattle.std.specs.List.{flat_map};
ghost use Rattle.sup_svg.specs.Pieces.{gap_text, lane_text, upright_text};

use crate::grid::{Grid, y_of};
use std::alloc::{AllocError, Global};
use sup_picture::Gap;
use sup_specs::NodeName;

/// The lines of the nodes, down to this row.
pub fn lanes_text(
    alloc: Global,
    grid: &Grid,
    nodes: &[NodeName],
    rows: u64,
) -> Result<String, AllocError>
    ensures { IfOk result (λ s. string_bytes s ≡ flat_map (lane_text grid.now nodes.now rows) nodes.now) }
{
    let mut text = String::new(alloc);
    for node in nodes {
        let lane = lane_text(alloc, grid, nodes, rows, node)?;
        text.push_str(lane.as_str())?;
    }
    Ok(text)
}

// The line of a node.
fn lane_text(
    alloc: Global,
    grid: &Grid,
    nodes: &[NodeName],
    rows: u64,
    node: &NodeName,
) -> Result<String, AllocError>
    ensures { IfOk result (λ s. string_bytes s ≡ lane_text grid.now nodes.now rows node.now) }
{
    let x = grid.x_of(nodes, node);
    let y = y_of(rows);
    let name = node.as_str();
    format!(in alloc;
        "<path class='lane' d='M{x} 48V{y}'/>\n<text class='name' x='{x}' y='38'>{name}</text>\n"
    )
}

/// The gaps of the nodes; one that doesn't end lasts to this row.
pub fn gaps_text(
    alloc: Global,
    grid: &Grid,
    nodes: &[NodeName],
    rows: u64,
    gaps: &[Gap],
) -> Result<String, AllocError>
    ensures { IfOk result (λ s. string_bytes s ≡ flat_map (gap_text grid.now nodes.now rows) gaps.now) }
{
    let mut text = String::new(alloc);
    for gap in gaps {
        let piece = gap_text(alloc, grid, nodes, rows, gap)?;
        text.push_str(piece.as_str())?;
    }
    Ok(text)
}

// A gap in the line of a node: the line is taken away, and another drawn there.
fn gap_text(
    alloc: Global,
    grid: &Grid,
    nodes: &[NodeName],
    rows: u64,
    gap: &Gap,
) -> Result<String, AllocError>
    ensures { IfOk result (λ s. string_bytes s ≡ gap_text grid.now nodes.now rows gap.now) }
{
    let x = grid.x_of(nodes, &gap.node);
    let top = y_of(gap.down);
    let bottom = y_of(gap.up.unwrap_or(rows));
    let mut text = upright_text(alloc, "gap", x, top, bottom)?;
    let down = upright_text(alloc, "down", x, top, bottom)?;
    text.push_str(down.as_str())?;
    Ok(text)
}

// An upright line in a style of this class.
fn upright_text(
    alloc: Global,
    class: &str,
    x: u64,
    top: u64,
    bottom: u64,
) -> Result<String, AllocError>
    ensures { IfOk result (λ s. string_bytes s ≡ upright_text class.now x top bottom) }
{
    format!(in alloc; "<path class='{class}' d='M{x} {top}V{bottom}'/>\n")
}
