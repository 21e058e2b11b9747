//! The weighers: by digest, and flat.
ghost use Rattle.sup_placement.specs.Weights.{sha256_weight, flat_weight};

use crate::weigh::Weigh;
use sha2::{Digest, Sha256};
use sup_specs::{ChildId, NodeName};

/// Weighs by SHA-256 of the bytes of the member, one byte 0, and the bytes of the child's id.
#[derive(Clone, Copy, Debug)]
pub struct Sha256Weigh;

impl Weigh for Sha256Weigh {
    ghost weight_of = { sha256_weight };

    fn weight(&self, member: &NodeName, id: &ChildId) -> [u8; 32] {
        let mut hasher = Sha256::new();
        hasher.update(member.as_bytes());
        // No name has a byte 0, so that no two pairs make one message.
        hasher.update(&[0u8]);
        hasher.update(id.as_str());
        hasher.finalize()
    }
}

/// Weighs all alike, so that each child is placed on the member of least name.
#[derive(Clone, Copy, Debug)]
pub struct FlatWeigh;

impl Weigh for FlatWeigh {
    ghost weight_of = { flat_weight };

    fn weight(&self, _member: &NodeName, _id: &ChildId) -> [u8; 32] {
        [0; 32]
    }
}
