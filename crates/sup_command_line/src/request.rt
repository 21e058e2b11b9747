//! What can be asked for.

use sup_replica::Config;

/// How members are weighed for children.
#[derive(Clone, Copy, Debug, PartialEq, Eq)]
pub enum Weighing {
    /// By SHA-256 of the member's name and the child's id.
    Sha256,
    /// All alike, so that the least name is every child's place.
    Flat,
}

/// A command with its options.
#[derive(Clone, Copy, Debug, PartialEq, Eq)]
pub enum Request {
    /// To run a script.
    Simulate {
        /// How its nodes weigh members.
        weighing: Weighing,
        /// What is set for each of its nodes.
        config: Config,
    },
    /// To run a script by threads.
    Cluster {
        /// How its nodes weigh members.
        weighing: Weighing,
        /// What is set for each of its nodes.
        config: Config,
    },
    /// To place children among members.
    Place {
        /// How the members are weighed.
        weighing: Weighing,
    },
    /// To look into a stored image.
    Inspect {
        /// How its members are weighed.
        weighing: Weighing,
    },
}
