//! A whole picture.

ghost use Rattle.std.specs.Prelude.{◌≡◌, IfOk, string_bytes};
ghost use Rattle.sup_svg.specs.Pieces.{back_text, front_text, root_text};
ghost use Rattle.sup_svg.specs.Svg.{svg_text};

use crate::bars::bars_text;
use crate::grid::{Grid, grid_of, y_of};
use crate::lanes::{gaps_text, lanes_text};
use crate::pieces::pieces_text;
use crate::style::STYLE;
use std::alloc::{AllocError, Global};
use sup_picture::Picture;
use sup_specs::NodeName;

/// The SVG text of a picture: its background, and a piece for each node, gap, bar, arrow and row.
///
/// # Errors
///
/// `AllocError` where memory was refused.
pub fn svg_of(alloc: Global, picture: &Picture) -> Result<String, AllocError>
    ensures { IfOk result (λ s. string_bytes s ≡ svg_text picture.now) }
{
    let nodes = picture.nodes.as_slice();
    let children = picture.children.as_slice();
    let grid = grid_of(nodes, children);
    let rows = picture.rows.len() as u64;
    let mut text = front_text(alloc, &grid, nodes, rows)?;
    let lanes = lanes_text(alloc, &grid, nodes, rows)?;
    text.push_str(lanes.as_str())?;
    let gaps = gaps_text(alloc, &grid, nodes, rows, picture.gaps.as_slice())?;
    text.push_str(gaps.as_str())?;
    let bars = bars_text(alloc, &grid, nodes, children, rows, picture.bars.as_slice())?;
    text.push_str(bars.as_str())?;
    let arrows = pieces_text(alloc, &grid, nodes, picture.arrows.as_slice())?;
    text.push_str(arrows.as_str())?;
    let marks = pieces_text(alloc, &grid, nodes, picture.rows.as_slice())?;
    text.push_str(marks.as_str())?;
    text.push_str("</svg>\n")?;
    Ok(text)
}

// The head of the text, its style and its background.
fn front_text(
    alloc: Global,
    grid: &Grid,
    nodes: &[NodeName],
    rows: u64,
) -> Result<String, AllocError>
    ensures { IfOk result (λ s. string_bytes s ≡ front_text grid.now nodes.now rows) }
{
    let width = grid.width(nodes);
    let height = y_of(rows) + 20;
    let mut text = root_text(alloc, width, height)?;
    text.push_str(STYLE)?;
    let back = back_text(alloc, width, height)?;
    text.push_str(back.as_str())?;
    Ok(text)
}

// The root of the text, with its size.
fn root_text(alloc: Global, width: u64, height: u64) -> Result<String, AllocError>
    ensures { IfOk result (λ s. string_bytes s ≡ root_text width height) }
{
    format!(in alloc;
        "<svg xmlns='http://www.w3.org/2000/svg' viewBox='0 0 {width} {height}' width='{width}' height='{height}'>\n"
    )
}

// The background.
fn back_text(alloc: Global, width: u64, height: u64) -> Result<String, AllocError>
    ensures { IfOk result (λ s. string_bytes s ≡ back_text width height) }
{
    format!(in alloc; "<path class='back' d='M0 0H{width}V{height}H0z'/>\n")
}
