//! Messages.
use sup_specs::NodeName;
use sup_tables::Tables;

/// What one node sends to another. `from` and `to` differ, and `n` is from 1 to [`MAX`](sup_specs::MAX): a text of
/// another one is refused where it is read.
#[derive(Drop)]
pub enum Message {
    /// That the sender has taken in the receiver's delta with this number.
    Ack {
        from: NodeName,
        to: NodeName,
        n: u64,
    },
    /// What an operation of the sender changed, without a number.
    Push {
        from: NodeName,
        to: NodeName,
        delta: Tables,
    },
    /// What changed at the sender, with a number that is to be acknowledged.
    Delta {
        from: NodeName,
        to: NodeName,
        n: u64,
        delta: Tables,
    },
}
