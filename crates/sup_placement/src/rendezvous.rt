//! The choice of a child's member.
ghost use Rattle.std.specs.Prelude.{◌≡◌, ◌↔◌, [], IfSome, IsNone};
ghost use Rattle.sup_placement.specs.Place.{IsPlace, place};

use crate::weigh::Weigh;
use std::cmp::Reverse;
use sup_specs::{ChildId, NodeName};

/// The member that runs a child: the one of greatest weight, a tie going to the least name; none
/// where there are no members. Their order and repeats don't matter (rendezvous hashing, Thaler and
/// Ravishankar 1998; the tie is this project's).
pub fn place<W: Weigh>(weigher: &W, members: &[NodeName], id: &ChildId) -> Option<NodeName>
    ensures chosen { IfSome result (IsPlace W.weight_of members.now id.now) }
    ensures nowhere { IsNone result ↔ (members.now ≡ []) }
    ensures value { result ≡ place W.weight_of members.now id.now }
{
    members
        .iter()
        .min_by_key(|member| (Reverse(weigher.weight(member, id)), *member))
        .copied()
}
