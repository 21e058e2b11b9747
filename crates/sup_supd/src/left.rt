//! What a node's run leaves.

ghost use Rattle.std.specs.Prelude.{◌≡◌};
ghost use Rattle.sup_supd.specs.Ends.{left_keeper};

use sup_disk::ImageKeeper;
use sup_placement::{FlatWeigh, Sha256Weigh};
use sup_station::Station;

/// The station of a node whose run has ended, by how it weighed children.
#[derive(Drop)]
pub enum Left<K: ImageKeeper> {
    Sha256(Station<K, Sha256Weigh>),
    Flat(Station<K, FlatWeigh>),
}

impl<K: ImageKeeper> Left<K> {
    /// The keeper that the run was given.
    pub fn keeper(&self) -> &K
        ensures { result.now ≡ left_keeper self.now }
    {
        match self {
            Left::Sha256(station) => station.keeper(),
            Left::Flat(station) => station.keeper(),
        }
    }
}
