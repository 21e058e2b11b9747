//! What a peer is sent.
use sup_tables::Tables;

/// What a peer is sent, so that it has all that its sender knows.
#[derive(Drop)]
pub struct Shipment {
    pub delta: Tables,
    /// The sender's count, which the peer acknowledges.
    pub n: u64,
    /// Whether the delta is the sender's state, as not all that the peer lacks is held, rather than deltas joined.
    pub whole: bool,
}
