//! What an act makes ready, before anything changes.
use sup_local_sup::{Effects, Plan, PlannedChange};
use sup_replica::Reply;
use sup_specs::{ChildId, NodeName};
use sup_tables::{PlannedTables, Tables};

/// What becomes of a node.
#[derive(Drop)]
pub(crate) enum Change {
    Nothing,
    /// A kept child begins a new run, at this moment.
    Begins(ChildId, u64),
    /// The tables have more, and what is kept follows them.
    Learns(Learned),
    /// A peer has acknowledged what was sent with this number.
    Acknowledges(NodeName, u64),
}

/// A delta that is taken in.
#[derive(Drop)]
pub(crate) struct Learned {
    pub intake: Intake,
    pub delta: Tables,
    // The delta once more, where it is of the node's own operation.
    pub own: Option<Tables>,
}

/// How tables and kept children become what they are with a delta.
#[derive(Drop)]
pub(crate) enum Intake {
    /// By these tables, which know both, and a plan of all that is kept.
    Whole(Tables, Plan),
    /// By plans of what the delta touches.
    Touched(PlannedTables, PlannedChange),
}

/// What an act answers, and what becomes of the node.
#[derive(Drop)]
pub(crate) struct Ready {
    pub reply: Reply,
    pub effects: Effects,
    pub change: Change,
}
