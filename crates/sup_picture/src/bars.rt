//! The bars of children: one for each run, from where it began to where it ended.

ghost use Rattle.std.specs.Prelude.{◌≡◌, ◌∷◌, ◌++◌, IfOk, OnOk};
ghost use Rattle.sup_picture.specs.Turns.{bar_of, bars_of, end_row, ends, is_of};

use crate::log::{Change, ChildRun, Turn};
use std::alloc::{AllocError, Global};
use sup_specs::{ChildId, NodeName, Plain};

/// The run of a child at a node.
#[derive(Drop)]
pub struct Bar {
    pub node: NodeName,
    pub child: ChildId,
    /// Of the run: its boot, and which of the boot's runs it is.
    pub boot: u64,
    pub k: u64,
    /// The row in which it began.
    pub began: u64,
    /// The row of the first later change that ends it or stops its node; none where there is none.
    pub ended: Option<u64>,
}

/// The bars, in the order in which they begin.
///
/// # Errors
///
/// `AllocError` where memory was refused.
pub fn bars_of(alloc: Global, changes: &[Change]) -> Result<Vec<Bar>, AllocError>
    ensures { IfOk result (λ bars. bars.items ≡ bars_of changes.now) }
{
    let mut bars = Vec::new(alloc);
    let mut rest = changes;
    while let [change, later @ ..] = rest {
        add_bar(alloc, &mut bars, change, later)?;
        rest = later;
    }
    Ok(bars)
}

// Adds the bar that begins here, if one does.
fn add_bar(
    alloc: Global,
    bars: &mut Vec<Bar>,
    change: &Change,
    later: &[Change],
) -> Result<(), AllocError>
    ensures { OnOk result (bars.new.items ++ bars_of later.now ≡ bars.old.items ++ bars_of (change.now ∷ later.now)) }
{
    if let Turn::Began(run) = &change.turn {
        let bar = bar_of(alloc, change, run, later)?;
        bars.push(bar)?;
    }
    Ok(())
}

// The bar of a run that begins here.
fn bar_of(
    alloc: Global,
    change: &Change,
    run: &ChildRun,
    later: &[Change],
) -> Result<Bar, AllocError>
    ensures { IfOk result (λ bar. bar ≡ bar_of change.now run.now later.now) }
{
    let child = run.child.try_clone(alloc)?;
    Ok(Bar {
        node: change.node,
        child,
        boot: run.boot,
        k: run.k,
        began: change.row,
        ended: end_row(&change.node, run, later),
    })
}

// The row in which a run ends.
fn end_row(node: &NodeName, run: &ChildRun, later: &[Change]) -> Option<u64>
    ensures { result ≡ end_row node.now run.now later.now }
{
    match later.iter().find(|change| ends(change, node, run)) {
        Some(change) => Some(change.row),
        None => None,
    }
}

// Whether the run ends here: it, or its node.
fn ends(change: &Change, node: &NodeName, run: &ChildRun) -> bool
    ensures { result ≡ ends node.now run.now change.now }
{
    if change.node != *node {
        return false;
    }
    match &change.turn {
        Turn::Ended(other) => is_of(run, other),
        Turn::Down => true,
        Turn::Began(_) | Turn::Up => false,
    }
}

// Whether they are the same run.
fn is_of(run: &ChildRun, other: &ChildRun) -> bool
    ensures { result ≡ is_of run.now other.now }
{
    run.boot == other.boot && run.k == other.k && run.child == other.child
}
