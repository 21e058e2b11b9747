//! What is left of a gate that was closed.
use crate::entry::Entry;
use crate::rule::GateSeat;
use sup_keeper::Keeper;
use sup_placement::Weigh;
use sup_station::Station;

/// The station of a gate that was closed, and its history.
#[derive(Drop)]
pub struct Closed<K: Keeper, W: Weigh> {
    pub station: Station<K, W>,
    /// The acts in their order, each with its answer.
    pub history: Vec<Entry>,
    /// What closed it. It is there for contracts.
    pub(crate) seat: GateSeat<K, W>,
}
