//! Where the nodes and rows stand.

ghost use Rattle.std.specs.Prelude.{◌≡◌, ◌≤◌, ◌*◌, bytes_eq, position};
ghost use Rattle.sup_svg.specs.Grids.{bar_x, grid_of, longest_in, place_of, slot_of, width_of, x_of, y_of};

use sup_specs::{ChildId, NodeName};

/// How much room a node takes.
#[derive(Clone, Copy)]
pub struct Grid {
    /// For bars, left of its line.
    pub bars: u64,
    /// In all.
    pub node: u64,
}

/// A grid for these nodes and children.
pub fn grid_of(nodes: &[NodeName], children: &[ChildId]) -> Grid
    ensures { result ≡ grid_of nodes.now children.now }
{
    let bars = 14 * children.len().min(8) as u64;
    Grid {
        bars,
        node: bars + 190 + 7 * longest_of(nodes).min(64) as u64,
    }
}

// The length of the longest name.
fn longest_of(nodes: &[NodeName]) -> usize
    ensures { result ≡ longest_in 0 nodes.now }
{
    let mut longest = 0;
    let mut rest = nodes;
    while let [node, others @ ..] = rest {
        longest = longest.max(node.as_bytes().len());
        rest = others;
    }
    longest
}

impl Grid {
    /// The line of a node.
    pub fn x_of(&self, nodes: &[NodeName], node: &NodeName) -> u64
        ensures x { result ≡ x_of self.now nodes.now node.now }
        ensures bound { result ≤ 12462 }
    {
        let place = place_of(nodes, node);
        350 + self.bars.min(112) + columns(self.node.min(750), place.min(16) as u64)
    }

    /// How wide the picture is.
    pub fn width(&self, nodes: &[NodeName]) -> u64
        ensures { result ≡ width_of self.now nodes.now }
    {
        500 + columns(self.node.min(750), nodes.len().min(16) as u64)
    }
}

/// Where the bars of a place among eight stand, at the line of a node.
pub fn bar_x(x: u64, slot: u64) -> u64
    ensures { result ≡ bar_x x slot }
{
    x.saturating_sub(20 + 14 * slot.min(7))
}

// How wide so many nodes are.
fn columns(node: u64, count: u64) -> u64
    requires node { node ≤ 750 }
    requires count { count ≤ 16 }
    ensures columns { result ≡ node * count }
    ensures bound { result ≤ 12000 }
{
    node * count
}

/// The place of a child among eight.
pub fn slot_of(children: &[ChildId], child: &ChildId) -> u64
    ensures slot { result ≡ slot_of children.now child.now }
    ensures bound { result ≤ 7 }
{
    child_place(children, child) as u64 % 8
}

// The place of a node, or how many there are.
fn place_of(nodes: &[NodeName], node: &NodeName) -> usize
    ensures { result ≡ place_of nodes.now node.now }
{
    find_node(nodes, node).unwrap_or(nodes.len())
}

fn find_node(nodes: &[NodeName], node: &NodeName) -> Option<usize>
    ensures { result ≡ position (bytes_eq node.now) nodes.now }
{
    nodes.iter().position(|other| *node == *other)
}

// The place of a child, or how many there are.
fn child_place(children: &[ChildId], child: &ChildId) -> usize
    ensures { result ≡ place_of children.now child.now }
{
    find_child(children, child).unwrap_or(children.len())
}

fn find_child(children: &[ChildId], child: &ChildId) -> Option<usize>
    ensures { result ≡ position (bytes_eq child.now) children.now }
{
    children.iter().position(|other| *child == *other)
}

/// How far below the top a row stands; those behind number 1,000,000 stand where that one does.
pub fn y_of(row: u64) -> u64
    ensures y { result ≡ y_of row }
    ensures low { 70 ≤ result }
    ensures bound { result ≤ 26000070 }
{
    70 + 26 * row.min(1_000_000)
}
