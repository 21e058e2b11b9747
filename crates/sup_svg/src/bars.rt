//! The bars of children.

ghost use Rattle.std.specs.Prelude.{◌≡◌, IfOk, string_bytes};
ghost use Rattle.std.specs.List.{flat_map};
ghost use Rattle.sup_svg.specs.Pieces.{bar_text, box_text, run_text};

use crate::escape::escaped;
use crate::grid::{Grid, bar_x, slot_of, y_of};
use std::alloc::{AllocError, Global};
use sup_picture::Bar;
use sup_specs::{ChildId, NodeName};

/// The bars of the children at these nodes; one that doesn't end lasts to this row.
pub fn bars_text(
    alloc: Global,
    grid: &Grid,
    nodes: &[NodeName],
    children: &[ChildId],
    rows: u64,
    bars: &[Bar],
) -> Result<String, AllocError>
    ensures { IfOk result (λ s. string_bytes s ≡ flat_map (bar_text grid.now nodes.now children.now rows) bars.now) }
{
    let mut text = String::new(alloc);
    for bar in bars {
        let piece = bar_text(alloc, grid, nodes, children, rows, bar)?;
        text.push_str(piece.as_str())?;
    }
    Ok(text)
}

// A bar, with the child's id and its run along it.
fn bar_text(
    alloc: Global,
    grid: &Grid,
    nodes: &[NodeName],
    children: &[ChildId],
    rows: u64,
    bar: &Bar,
) -> Result<String, AllocError>
    ensures { IfOk result (λ s. string_bytes s ≡ bar_text grid.now nodes.now children.now rows bar.now) }
{
    let slot = slot_of(children, &bar.child);
    let x = bar_x(grid.x_of(nodes, &bar.node), slot);
    let top = y_of(bar.began);
    let height = y_of(bar.ended.unwrap_or(rows)).saturating_sub(top);
    let mut text = box_text(alloc, x, top, height, slot)?;
    let run = run_text(alloc, bar)?;
    text.push_str(run.as_str())?;
    Ok(text)
}

// The bar alone.
fn box_text(alloc: Global, x: u64, top: u64, height: u64, slot: u64) -> Result<String, AllocError>
    ensures { IfOk result (λ s. string_bytes s ≡ box_text x top height slot) }
{
    format!(in alloc;
        "<svg x='{x}' y='{top}' width='12' height='{height}'><path class='bar c{slot}' d='M0 0H12V{height}H0z'/>"
    )
}

// What stands along a bar.
fn run_text(alloc: Global, bar: &Bar) -> Result<String, AllocError>
    ensures { IfOk result (λ s. string_bytes s ≡ run_text bar.now) }
{
    let child = escaped(alloc, bar.child.as_str().as_bytes())?;
    let child = child.as_str();
    let boot = bar.boot;
    let k = bar.k;
    format!(in alloc;
        "<text class='child' x='3' y='-3' transform='rotate(90)'>{child} {boot}.{k}</text></svg>\n"
    )
}
