//! The gaps of nodes: one for each time that a node was down.

ghost use Rattle.std.specs.Prelude.{◌≡◌, ◌∷◌, ◌++◌, IfOk, OnOk};
ghost use Rattle.sup_picture.specs.Turns.{comes_up, gap_of, gaps_of, up_row};

use crate::log::{Change, Turn};
use std::alloc::{AllocError, Global};
use sup_specs::NodeName;

/// A time in which a node was down.
#[derive(Clone, Copy)]
pub struct Gap {
    pub node: NodeName,
    /// The row in which it stopped.
    pub down: u64,
    /// The row in which it ran again, if it did.
    pub up: Option<u64>,
}

/// The gaps, in the order in which they begin.
///
/// # Errors
///
/// `AllocError` where memory was refused.
pub fn gaps_of(alloc: Global, changes: &[Change]) -> Result<Vec<Gap>, AllocError>
    ensures { IfOk result (λ gaps. gaps.items ≡ gaps_of changes.now) }
{
    let mut gaps = Vec::new(alloc);
    let mut rest = changes;
    while let [change, later @ ..] = rest {
        add_gap(&mut gaps, change, later)?;
        rest = later;
    }
    Ok(gaps)
}

// Adds the gap that begins here, if one does.
fn add_gap(gaps: &mut Vec<Gap>, change: &Change, later: &[Change]) -> Result<(), AllocError>
    ensures { OnOk result (gaps.new.items ++ gaps_of later.now ≡ gaps.old.items ++ gaps_of (change.now ∷ later.now)) }
{
    if let Turn::Down = &change.turn {
        gaps.push(gap_of(change, later))?;
    }
    Ok(())
}

// The gap that begins here.
fn gap_of(change: &Change, later: &[Change]) -> Gap
    ensures { result ≡ gap_of change.now later.now }
{
    Gap {
        node: change.node,
        down: change.row,
        up: up_row(&change.node, later),
    }
}

// The row in which a node runs again.
fn up_row(node: &NodeName, later: &[Change]) -> Option<u64>
    ensures { result ≡ up_row node.now later.now }
{
    match later.iter().find(|change| comes_up(change, node)) {
        Some(change) => Some(change.row),
        None => None,
    }
}

// Whether the node runs again here.
fn comes_up(change: &Change, node: &NodeName) -> bool
    ensures { result ≡ comes_up node.now change.now }
{
    match &change.turn {
        Turn::Up => change.node == *node,
        Turn::Began(_) | Turn::Ended(_) | Turn::Down => false,
    }
}
