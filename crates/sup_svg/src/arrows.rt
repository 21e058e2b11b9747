//! The arrows of messages.

ghost use Rattle.std.specs.Prelude.{◌≡◌, ◌≤◌, IfOk, string_bytes};
ghost use Rattle.sup_svg.specs.Pieces.{arrow_text, came_text, line_text, lost_text, lost_x, path_text, start_y, title_text, way_class};

use crate::grid::{Grid, y_of};
use crate::pieces::Piece;
use std::alloc::{AllocError, Global};
use sup_picture::{Arrow, End, Message, Way};
use sup_specs::NodeName;

impl Piece for Arrow {
    ghost drawn = { arrow_text };

    fn text(&self, alloc: Global, grid: &Grid, nodes: &[NodeName]) -> Result<String, AllocError> {
        arrow_text(alloc, grid, nodes, self)
    }
}

// An arrow.
fn arrow_text(
    alloc: Global,
    grid: &Grid,
    nodes: &[NodeName],
    arrow: &Arrow,
) -> Result<String, AllocError>
    ensures { IfOk result (λ s. string_bytes s ≡ arrow_text grid.now nodes.now arrow.now) }
{
    let from = grid.x_of(nodes, &arrow.message.from);
    let to = grid.x_of(nodes, &arrow.to);
    match arrow.end {
        End::Came { row, way } => came_text(alloc, arrow, from, to, row, way),
        End::Lost => lost_text(alloc, arrow, from, to),
    }
}

// The arrow of a message that came.
fn came_text(
    alloc: Global,
    arrow: &Arrow,
    from: u64,
    to: u64,
    row: u64,
    way: Way,
) -> Result<String, AllocError>
    ensures { IfOk result (λ s. string_bytes s ≡ came_text arrow.now from to row way) }
{
    let top = start_y(arrow.left, row);
    path_text(
        alloc,
        way_class(way),
        from,
        top,
        to,
        y_of(row),
        &arrow.message,
    )
}

// The arrow of a lost message, which ends on its way.
fn lost_text(alloc: Global, arrow: &Arrow, from: u64, to: u64) -> Result<String, AllocError>
    requires { from ≤ 12462 }
    ensures { IfOk result (λ s. string_bytes s ≡ lost_text arrow.now from to) }
{
    let top = start_y(arrow.left, 0);
    let end = lost_x(from, to);
    path_text(alloc, "lost", from, top, end, top + 20, &arrow.message)
}

// An arrow in a style of this class, with its message's name.
fn path_text(
    alloc: Global,
    class: &str,
    from: u64,
    top: u64,
    to: u64,
    bottom: u64,
    message: &Message,
) -> Result<String, AllocError>
    ensures { IfOk result (λ s. string_bytes s ≡ path_text class.now from top to bottom message.now) }
{
    let mut text = line_text(alloc, class, from, top, to, bottom)?;
    let title = title_text(alloc, message)?;
    text.push_str(title.as_str())?;
    Ok(text)
}

// The line of an arrow.
fn line_text(
    alloc: Global,
    class: &str,
    from: u64,
    top: u64,
    to: u64,
    bottom: u64,
) -> Result<String, AllocError>
    ensures { IfOk result (λ s. string_bytes s ≡ line_text class.now from top to bottom) }
{
    format!(in alloc; "<path class='{class}' d='M{from} {top}L{to} {bottom}'>")
}

// The name of a message, which ends its arrow.
fn title_text(alloc: Global, message: &Message) -> Result<String, AllocError>
    ensures { IfOk result (λ s. string_bytes s ≡ title_text message.now) }
{
    let sender = message.from.as_str();
    let number = message.number;
    format!(in alloc; "<title>{sender} {number}</title></path>\n")
}

// Where a lost message ends on its way: before the next node.
fn lost_x(from: u64, to: u64) -> u64
    requires { from ≤ 12462 }
    ensures { result ≡ lost_x from to }
{
    if from < to {
        from + 90
    } else {
        from.saturating_sub(90)
    }
}

// Where an arrow begins that ends in this row: where the message left, or half a row before the end where that isn't known.
fn start_y(left: Option<u64>, row: u64) -> u64
    ensures y { result ≡ start_y left row }
    ensures bound { result ≤ 26000070 }
{
    match left {
        Some(left) => y_of(left),
        None => y_of(row) - 13,
    }
}

// The class of an arrow's style.
fn way_class(way: Way) -> &'static str
    ensures { result.now ≡ way_class way }
{
    match way {
        Way::Learned => "learned",
        Way::Known => "known",
        Way::Acked => "acked",
        Way::Cut => "cut",
        Way::Misdirected => "misdirected",
        Way::Refused => "came-refused",
    }
}
