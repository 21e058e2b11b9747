//! The rows: each a line of the script, and its mark.

ghost use Rattle.std.specs.Prelude.{◌≡◌, ◌≤◌, IfOk, string_bytes};
ghost use Rattle.sup_svg.specs.Pieces.{band_text, circle_text, dot_text, label_text, mark_text, row_text, stripe_text, told_text};

use crate::escape::{escaped, first_line};
use crate::grid::{Grid, y_of};
use crate::pieces::Piece;
use std::alloc::{AllocError, Global};
use sup_picture::{Mark, Row};
use sup_specs::NodeName;

impl Piece for Row {
    ghost drawn = { row_text };

    fn text(&self, alloc: Global, grid: &Grid, nodes: &[NodeName]) -> Result<String, AllocError> {
        row_text(alloc, grid, nodes, self)
    }
}

// A row: its line in the margin, and its mark.
fn row_text(alloc: Global, grid: &Grid, nodes: &[NodeName], row: &Row) -> Result<String, AllocError>
    ensures { IfOk result (λ s. string_bytes s ≡ row_text grid.now nodes.now row.now) }
{
    let y = y_of(row.row);
    let base = y + 4;
    let line = escaped(alloc, row.line.as_slice())?;
    let line = line.as_str();
    let mark = mark_text(alloc, grid, nodes, row)?;
    let mark = mark.as_str();
    format!(in alloc;
        "<path class='rule' d='M340 {y}H99999'/>\n<text class='line' x='8' y='{base}'>{line}</text>\n{mark}"
    )
}

// What a row is marked with.
fn mark_text(
    alloc: Global,
    grid: &Grid,
    nodes: &[NodeName],
    row: &Row,
) -> Result<String, AllocError>
    ensures { IfOk result (λ s. string_bytes s ≡ mark_text grid.now nodes.now row.now row.now.mark) }
{
    match row.mark {
        Mark::Nowhere => Ok(String::new(alloc)),
        Mark::Everywhere => band_text(alloc, grid, nodes, row),
        Mark::Done(node) => dot_text(alloc, grid.x_of(nodes, &node), row, "done", "yes"),
        Mark::Refused(node) => dot_text(alloc, grid.x_of(nodes, &node), row, "refused", "no"),
    }
}

// A dot at a node, beside what was answered; of that the first line is seen.
fn dot_text(alloc: Global, x: u64, row: &Row, dot: &str, answer: &str) -> Result<String, AllocError>
    requires { x ≤ 12462 }
    ensures { IfOk result (λ s. string_bytes s ≡ dot_text x row.now dot.now answer.now) }
{
    let mut text = circle_text(alloc, x, row, dot)?;
    let label = label_text(alloc, x + 10, row, answer)?;
    text.push_str(label.as_str())?;
    Ok(text)
}

// The dot of a row.
fn circle_text(alloc: Global, x: u64, row: &Row, dot: &str) -> Result<String, AllocError>
    ensures { IfOk result (λ s. string_bytes s ≡ circle_text x row.now dot.now) }
{
    let y = y_of(row.row);
    let said = escaped(alloc, row.said.as_slice())?;
    let said = said.as_str();
    format!(in alloc;
        "<circle class='{dot}' cx='{x}' cy='{y}' r='5'><title>{said}</title></circle>\n"
    )
}

// The first line of what was answered in a row.
fn label_text(alloc: Global, x: u64, row: &Row, answer: &str) -> Result<String, AllocError>
    ensures { IfOk result (λ s. string_bytes s ≡ label_text x row.now answer.now) }
{
    let y = y_of(row.row) - 5;
    let said = escaped(alloc, first_line(row.said.as_slice()))?;
    let said = said.as_str();
    format!(in alloc; "<text class='{answer}' x='{x}' y='{y}'>{said}</text>\n")
}

// A band over all nodes, with what was answered.
fn band_text(
    alloc: Global,
    grid: &Grid,
    nodes: &[NodeName],
    row: &Row,
) -> Result<String, AllocError>
    ensures { IfOk result (λ s. string_bytes s ≡ band_text grid.now nodes.now row.now) }
{
    let mut text = stripe_text(alloc, grid.width(nodes), row)?;
    let told = told_text(alloc, 360 + grid.bars.min(112), row)?;
    text.push_str(told.as_str())?;
    Ok(text)
}

// The band of a row, from the margin to the right end of a picture of this width.
fn stripe_text(alloc: Global, width: u64, row: &Row) -> Result<String, AllocError>
    ensures { IfOk result (λ s. string_bytes s ≡ stripe_text width row.now) }
{
    let top = y_of(row.row) - 8;
    let said = escaped(alloc, row.said.as_slice())?;
    let said = said.as_str();
    format!(in alloc;
        "<path class='all' d='M340 {top}H{width}v16H340z'><title>{said}</title></path>\n"
    )
}

// The first line of what was answered, on a band.
fn told_text(alloc: Global, x: u64, row: &Row) -> Result<String, AllocError>
    ensures { IfOk result (λ s. string_bytes s ≡ told_text x row.now) }
{
    let y = y_of(row.row) + 4;
    let said = escaped(alloc, first_line(row.said.as_slice()))?;
    let said = said.as_str();
    format!(in alloc; "<text x='{x}' y='{y}'>{said}</text>\n")
}
