//! Steps of a world.
use sup_replica::{Act, MessageText};
use sup_specs::NodeName;

/// What happens in a world.
#[derive(Drop)]
pub enum Step {
    /// A node is told to do something, at this moment. Where a save would fail, `saves` is false.
    Node {
        at: NodeName,
        act: Act,
        now: u64,
        saves: bool,
    },
    /// The k-th message that a node ever sent, k from 1, comes: to its receiver or, where `at` names
    /// one, to that node, and without its last `drop` bytes.
    Deliver {
        from: NodeName,
        k: u64,
        at: Option<NodeName>,
        drop: u64,
        now: u64,
        saves: bool,
    },
    /// Bytes come that nobody sent.
    Raw {
        at: NodeName,
        bytes: MessageText,
    },
}
