//! A node of a run, as its threads share it.
use sup_keeper::MemKeeper;
use sup_node_gate::{NodeGate, Pass};
use sup_placement::Weigh;
use sup_specs::NodeName;

/// A node's gate. Its image is kept in memory.
pub type Gate<W> = NodeGate<MemKeeper, W>;

/// A thread's pass of a gate.
pub type Seat<W> = Pass<MemKeeper, W>;

/// A node of a run.
#[derive(Drop)]
pub struct SharedNode<W: Weigh> {
    pub name: NodeName,
    pub gate: Gate<W>,
}
