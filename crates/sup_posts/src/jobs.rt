//! The jobs of a run's threads. Nodes are named by their places among the posts.
use crate::shared_node::Seat;
use sup_links::{LinkIn, LinkOut};
use sup_placement::Weigh;
use sup_plan::Command;

/// A link to another node, and the pass of that node's gate that its receiver has.
#[derive(Drop)]
pub struct Lane<W: Weigh> {
    pub to: usize,
    pub seat: Seat<W>,
    pub entry: LinkIn,
    pub exit: LinkOut,
}

/// What a driver is given: its node and a pass of its gate, the commands, and the links to the other nodes.
#[derive(Drop)]
pub struct Drive<W: Weigh> {
    pub at: usize,
    pub seat: Seat<W>,
    pub commands: Vec<Command>,
    pub lanes: Vec<Lane<W>>,
}

/// What a receiver hands back: the pass that it had, of the gate of this node.
#[derive(Drop)]
pub struct Arrived<W: Weigh> {
    pub to: usize,
    pub seat: Seat<W>,
}

/// What a driver hands back: its pass, and what the receivers of its links hand back, in the links' order.
#[derive(Drop)]
pub struct Driven<W: Weigh> {
    pub seat: Seat<W>,
    pub arrived: Vec<Arrived<W>>,
}
