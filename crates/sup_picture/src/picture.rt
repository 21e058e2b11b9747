//! A picture: what is drawn of a run.

ghost use Rattle.std.specs.Prelude.{◌≡◌, IfOk};
ghost use Rattle.sup_picture.specs.Arrows.{arrows_of};
ghost use Rattle.sup_picture.specs.Children.{children_of};
ghost use Rattle.sup_picture.specs.Turns.{bars_of, gaps_of};

use crate::arrows::{Arrow, arrows_of};
use crate::bars::{Bar, bars_of};
use crate::children::children_of;
use crate::gaps::{Gap, gaps_of};
use crate::log::{Log, Row};
use std::alloc::{AllocError, Global};
use sup_specs::{ChildId, NodeName};

/// What is drawn: the nodes from left to right, the rows from top to bottom, and what stands between them.
#[derive(Drop)]
pub struct Picture {
    pub nodes: Vec<NodeName>,
    pub rows: Vec<Row>,
    pub arrows: Vec<Arrow>,
    pub bars: Vec<Bar>,
    /// The children that have bars, each once.
    pub children: Vec<ChildId>,
    pub gaps: Vec<Gap>,
}

/// The picture of a log of these nodes.
///
/// # Errors
///
/// `AllocError` where memory was refused.
pub fn picture_of(alloc: Global, nodes: Vec<NodeName>, log: Log) -> Result<Picture, AllocError>
    ensures nodes { IfOk result (λ picture. picture.nodes.items ≡ nodes.items) }
    ensures rows { IfOk result (λ picture. picture.rows.items ≡ log.rows.items) }
    ensures arrows { IfOk result (λ picture. picture.arrows.items ≡ arrows_of log.posts.items) }
    ensures bars { IfOk result (λ picture. picture.bars.items ≡ bars_of log.changes.items) }
    ensures children { IfOk result (λ picture. picture.children.items ≡ children_of (bars_of log.changes.items)) }
    ensures gaps { IfOk result (λ picture. picture.gaps.items ≡ gaps_of log.changes.items) }
{
    let Log {
        rows,
        posts,
        changes,
    } = log;
    let arrows = arrows_of(alloc, posts.as_slice())?;
    let bars = bars_of(alloc, changes.as_slice())?;
    let children = children_of(alloc, bars.as_slice())?;
    let gaps = gaps_of(alloc, changes.as_slice())?;
    Ok(Picture {
        nodes,
        rows,
        arrows,
        bars,
        children,
        gaps,
    })
}
