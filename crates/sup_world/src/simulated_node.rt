//! A node of a world.
use std::alloc::Global;
use sup_keeper::MemKeeper;
use sup_placement::Weigh;
use sup_replica::Letter;
use sup_specs::NodeName;
use sup_station::Station;

/// A station, and every letter that it ever sent, oldest first.
#[derive(Drop)]
pub struct SimulatedNode<W: Weigh> {
    pub(crate) name: NodeName,
    pub(crate) station: Station<MemKeeper, W>,
    pub(crate) letters: Vec<Letter>,
    pub(crate) alloc: Global,
}
