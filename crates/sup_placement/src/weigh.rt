//! What a weigher is.
ghost use Rattle.std.specs.Prelude.{◌≡◌};
ghost use Rattle.sup_placement.specs.Place.{Weigher};

use sup_specs::{ChildId, NodeName};

/// Weighs members for children. All weighers of one type weigh alike: a weight depends on the type
/// and on the bytes of the two names, and on nothing that a weigher holds.
pub trait Weigh {
    // The weight of a member for a child, by their bytes.
    ghost weight_of: { Weigher };

    /// The weight of a member for a child, compared from its first byte.
    fn weight(&self, member: &NodeName, id: &ChildId) -> [u8; 32]
        ensures { result ≡ weight_of member.now id.now };
}
